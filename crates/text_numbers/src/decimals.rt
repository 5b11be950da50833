// Decimals: no leading zero, a sign only where the number is negative, and none that its field's width does not hold. So each number has
// one spelling, and what is printed reads back.
ghost use Rattle.std.specs.Prelude.{◌≡◌, ◌+◌, ◌≤◌, ◌<◌, pos, negsuc, length};
ghost use Rattle.byte_parts.specs.Part.{put};
ghost use Rattle.text_numbers.specs.Digit.{spelt};
ghost use Rattle.text_numbers.specs.Decimal.{plain, up_to, decimal, positive, negative, signed, dec_text};

use crate::digits::{are_digits, digit};

// Tells whether s is a decimal: one digit or more, the first no 0 unless it stands alone.
fn is_plain(s: &[u8]) -> bool
    ensures { result ≡ plain s.now }
{
    if s.len() == 0 {
        return false;
    }
    if s[0] == b'0' {
        return s.len() == 1;
    }
    are_digits(s, 10)
}

// Gives the number that the digits of s spell, if it is at most `most`. It stops at the first digit that exceeds it, so that no text is too
// long for 64 bits.
fn value(s: &[u8], most: u32) -> Option<u32>
    ensures { result ≡ up_to most (spelt 10 0 s.now) }
{
    let mut n = 0u64;
    for x in s {
        n = n * 10 + digit(*x) as u64;
        if n > most as u64 {
            return None;
        }
    }
    Some(n as u32)
}

// Reads the decimal s; malformed is one above `most`, the most that its field's width holds.
pub fn read_dec(s: &[u8], most: u32) -> Option<u32>
    ensures { result ≡ decimal most s.now }
{
    if !is_plain(s) {
        return None;
    }
    value(s, most)
}

// Gives one below the negative of k, so that the lowest number of 32 bits is in reach.
fn minus(k: u32) -> i32
    requires { k < 2147483648 }
    ensures { result ≡ negsuc k }
{
    -1 - (k as i32)
}

// Gives what was read without a sign as a number with one, if 32 bits hold it.
fn positive_of(n: Option<u32>) -> Option<i32>
    ensures { result ≡ positive n }
{
    let k = n?;
    i32::try_from(k).ok()
}

// Gives the negative of what was read after a sign, if 32 bits hold it. Of 0 there is none: `-0` is malformed.
// By tests, and not by try_from as above: it may be 2147483648, which no number with a sign is.
fn negative_of(n: Option<u32>) -> Option<i32>
    ensures { result ≡ negative n }
{
    let k = n?;
    if k < 1 {
        return None;
    }
    if 2147483648 < k {
        return None;
    }
    Some(minus(k - 1))
}

// Reads the decimal s of 32 bits with a sign, whose first byte is `-` where it is negative. No other sign is read.
pub fn read_signed(s: &[u8]) -> Option<i32>
    ensures { result ≡ signed s.now }
{
    if s.len() == 0 {
        return None;
    }
    if s[0] == b'-' {
        return negative_of(read_dec(&s[1..], u32::MAX));
    }
    positive_of(read_dec(s, u32::MAX))
}

// Puts n as a decimal into `out` from `at` on, and answers the place after it.
pub fn put_dec(n: u64, out: &mut [u8], at: usize) -> usize
    requires { at + length (dec_text n) ≤ length out.old }
    ensures value { result ≡ at + length (dec_text n) }
    ensures out_after { out.new ≡ put out.old at (length (dec_text n)) (dec_text n) }
{
    if n < 10 {
        out[at] = b'0' + n as u8;
        return at + 1;
    }
    let end = put_dec(n / 10, out, at);
    out[end] = b'0' + (n % 10) as u8;
    end + 1
}
