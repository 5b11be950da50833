// What stands in a field of a printed line: a mark, a word, a number, bytes in hex, codes, each with the byte that ends its field.
#![tactic(auto)]

ghost use Rattle.std.specs.Prelude.{[], ◌∷◌, ◌+◌, ◌*◌, ◌≤◌, length};
ghost use Rattle.text_numbers.specs.Decimal.{dec_text};
ghost use Rattle.text_numbers.specs.Hex.{to_hex, hex_text};
ghost use Rattle.text_stream.specs.Stream.{Written};
ghost use Rattle.text_print.specs.Print.{closed, high_first, four_digits};

use byte_parts::spans;
use text_numbers::{decimals, hex};

// Puts one byte and the byte that ends its field into `out` from `at` on, and answers the place after them.
pub fn put_mark(mark: u8, end: u8, out: &mut [u8], at: usize) -> usize
    requires { at + 2 ≤ length out.old }
    ensures written { Written out.old at (closed end (mark ∷ [])) result out.new }
    ensures upper_bound { result ≤ at + 2 }
{
    out[at] = mark;
    out[at + 1] = end;
    at + 2
}

// Puts a word and the byte that ends its field, and answers the place after them.
pub fn put_word(word: &[u8], end: u8, out: &mut [u8], at: usize) -> usize
    requires { at + length word.now + 1 ≤ length out.old }
    ensures written { Written out.old at (closed end word.now) result out.new }
    ensures upper_bound { result ≤ at + length word.now + 1 }
{
    let n = word.len();
    spans::copy(out, at, word, 0, n);
    out[at + n] = end;
    at + n + 1
}

// Puts a decimal, which takes up to twenty bytes, and the byte that ends its field, and answers the place after them.
pub fn put_number(n: u64, end: u8, out: &mut [u8], at: usize) -> usize
    requires { at + 21 ≤ length out.old }
    ensures written { Written out.old at (closed end (dec_text n)) result out.new }
    ensures upper_bound { result ≤ at + 21 }
{
    let last = decimals::put_dec(n, out, at);
    out[last] = end;
    last + 1
}

// Puts bytes in hex, `-` for none, and the byte that ends their field, and answers the place after them.
pub fn put_hex(bytes: &[u8], end: u8, out: &mut [u8], at: usize) -> usize
    requires { at + length bytes.now * 2 + 2 ≤ length out.old }
    ensures written { Written out.old at (closed end (hex_text bytes.now)) result out.new }
    ensures upper_bound { result ≤ at + length bytes.now * 2 + 2 }
{
    let after = hex::put_hex_field(bytes, out, at);
    out[after] = end;
    after + 1
}

// Puts a number as four hex digits, and answers the place after them.
fn put_four(n: u16, out: &mut [u8], at: usize) -> usize
    requires { at + 4 ≤ length out.old }
    ensures written { Written out.old at (to_hex (high_first (n ∷ []))) result out.new }
    ensures upper_bound { result ≤ at + 4 }
{
    let two = [(n / 256) as u8, (n % 256) as u8];
    hex::put_hex_field(&two, out, at)
}

// Puts numbers as four hex digits each, joined, and answers the place after them.
fn put_joined(numbers: &[u16], out: &mut [u8], at: usize) -> usize
    requires { at + length numbers.now * 4 ≤ length out.old }
    ensures written { Written out.old at (to_hex (high_first numbers.now)) result out.new }
    ensures upper_bound { result ≤ at + length numbers.now * 4 }
{
    let mut last = at;
    for n in numbers {
        last = put_four(*n, out, last);
    }
    last
}

// Puts numbers as four hex digits each, joined, `-` for none, and the byte that ends their field, and answers the place after them.
pub fn put_numbers(numbers: &[u16], end: u8, out: &mut [u8], at: usize) -> usize
    requires { at + length numbers.now * 4 + 2 ≤ length out.old }
    ensures written { Written out.old at (closed end (four_digits numbers.now)) result out.new }
    ensures upper_bound { result ≤ at + length numbers.now * 4 + 2 }
{
    if numbers.len() == 0 {
        return put_mark(b'-', end, out, at);
    }
    let next = put_joined(numbers, out, at);
    out[next] = end;
    next + 1
}
