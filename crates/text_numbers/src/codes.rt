// Codes and versions in hex: four digits, of either case, high byte first. Several codes stand joined, and `-` stands for none.
ghost use Rattle.std.specs.Prelude.{◌≡◌, true, ◌+◌, ◌*◌, ◌<◌, min, length, get_or};
ghost use Rattle.byte_parts.specs.Part.{put};
ghost use Rattle.text_numbers.specs.Digit.{digit_of, digits};
ghost use Rattle.text_numbers.specs.Codes.{hex16, codes_field, codes_of};

use crate::digits::{are_digits, digit};
use crate::hex::is_hex_field;

// Gives the byte that the two hex digits of s at i spell.
fn byte_at(s: &[u8], i: usize) -> u16
    requires { (digits 16 s.now ≡ true) × (i + 1 < length s.now) }
    ensures { (result ≡ digit_of (get_or s.now i 0) * 16 + digit_of (get_or s.now (i + 1) 0)) × (result < 256) }
{
    digit(s[i]) as u16 * 16 + digit(s[i + 1]) as u16
}

// Gives code number i, from 0, of those that the hex digits of s spell.
fn code_at(s: &[u8], i: usize) -> u16
    requires { (digits 16 s.now ≡ true) × (i * 4 + 3 < length s.now) }
    ensures { result ≡ get_or (codes_of s.now) i 0 }
{
    let high = byte_at(s, i * 4);
    let low = byte_at(s, i * 4 + 2);
    high * 256 + low
}

// Reads the number that s spells, if s is four hex digits.
pub fn read_hex16(s: &[u8]) -> Option<u16>
    ensures { result ≡ hex16 s.now }
{
    if s.len() != 4 {
        return None;
    }
    if !are_digits(s, 16) {
        return None;
    }
    Some(code_at(s, 0))
}

// Tells whether s is joined codes: four hex digits for each, or `-` for none.
pub fn is_codes(s: &[u8]) -> bool
    ensures { result ≡ codes_field s.now }
{
    if !is_hex_field(s) {
        return false;
    }
    if s.len() == 1 {
        return true;
    }
    s.len() % 4 == 0
}

// Puts the codes that stand joined in s to the front of `out`, as many as it holds, and answers how many.
pub fn read_codes(s: &[u8], out: &mut [u16]) -> usize
    requires { codes_field s.now ≡ true }
    ensures value { result ≡ min (length out.old) (length (codes_of s.now)) }
    ensures out_after { out.new ≡ put out.old 0 result (codes_of s.now) }
{
    let n = out.len().min(s.len() / 4);
    for i in 0..n {
        out[i] = code_at(s, i);
    }
    n
}
