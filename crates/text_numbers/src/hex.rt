// Bytes in hex, two digits each: read in either case, printed in capitals. A field of none is `-`, so that no field is empty.
ghost use Rattle.std.specs.Prelude.{◌≡◌, true, [], ◌∷◌, ◌+◌, ◌*◌, ◌/◌, ◌≤◌, ◌<◌, length};
ghost use Rattle.byte_parts.specs.Part.{put};
ghost use Rattle.text_numbers.specs.Digit.{digit_of};
ghost use Rattle.text_numbers.specs.Hex.{hex_field, unhex, capital, to_hex, hex_text};

use crate::digits::{are_digits, hex_digit};

// Tells whether s is a hex field: `-` for no bytes, or whole bytes.
pub fn is_hex_field(s: &[u8]) -> bool
    ensures { result ≡ hex_field s.now }
{
    if s.len() == 0 {
        return false;
    }
    if s.len() == 1 {
        return s[0] == b'-';
    }
    if s.len() % 2 != 0 {
        return false;
    }
    are_digits(s, 16)
}

// Gives the byte that two hex digits spell.
fn byte(high: u8, low: u8) -> u8
    requires { (digit_of high < 16) × (digit_of low < 16) }
    ensures { result ≡ digit_of high * 16 + digit_of low }
{
    hex_digit(high) * 16 + hex_digit(low)
}

// Puts the bytes of the hex field s into `out` from `at` on, and answers the place after them.
pub fn put_bytes(s: &[u8], out: &mut [u8], at: usize) -> usize
    requires { (hex_field s.now ≡ true) × (at + length s.now / 2 ≤ length out.old) }
    ensures value { result ≡ at + length s.now / 2 }
    ensures out_after { out.new ≡ put out.old at (length s.now / 2) (unhex s.now) }
{
    let n = s.len() / 2;
    for i in 0..n {
        out[at + i] = byte(s[i * 2], s[i * 2 + 1]);
    }
    at + n
}

// Gives the capital hex digit of d.
fn capital_of(d: u8) -> u8
    requires { d < 16 }
    ensures { result ≡ capital d }
{
    if d < 10 { b'0' + d } else { b'A' + (d - 10) }
}

// Puts b as two hex digits into `out` from `at` on, and answers the place after them.
fn put_byte(b: u8, out: &mut [u8], at: usize) -> usize
    requires { at + 2 ≤ length out.old }
    ensures value { result ≡ at + 2 }
    ensures out_after { out.new ≡ put out.old at 2 (to_hex (b ∷ [])) }
{
    out[at] = capital_of(b / 16);
    out[at + 1] = capital_of(b % 16);
    at + 2
}

// Puts s as hex into `out` from `at` on, and answers the place after it.
fn put_hex(s: &[u8], out: &mut [u8], at: usize) -> usize
    requires { at + length s.now * 2 ≤ length out.old }
    ensures value { result ≡ at + length s.now * 2 }
    ensures out_after { out.new ≡ put out.old at (length s.now * 2) (to_hex s.now) }
{
    let mut o = at;
    for b in s {
        o = put_byte(*b, out, o);
    }
    o
}

// Puts s as a hex field into `out` from `at` on, `-` if s is empty, and answers the place after it.
pub fn put_hex_field(s: &[u8], out: &mut [u8], at: usize) -> usize
    requires { at + length (hex_text s.now) ≤ length out.old }
    ensures value { result ≡ at + length (hex_text s.now) }
    ensures out_after { out.new ≡ put out.old at (length (hex_text s.now)) (hex_text s.now) }
{
    if s.len() == 0 {
        out[at] = b'-';
        return at + 1;
    }
    put_hex(s, out, at)
}
