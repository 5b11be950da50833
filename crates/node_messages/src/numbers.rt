// Numbers of 16 bits in a message, one after the other.
ghost use Rattle.std.specs.Prelude.{◌≡◌, ◌+◌, ◌*◌, ◌≤◌, length, drop, get_or};
ghost use Rattle.byte_parts.specs.Part.{put};
ghost use Rattle.node_messages.specs.Numbers.{numbers_bytes, numbers_in};

use byte_parts::half;

// The byte of `s` at `i`, or 0 where there is none. That it is below 256 is promised too, so that sums need no proof that they fit.
pub(crate) fn byte_at(s: &[u8], i: usize) -> usize
    ensures { (result ≡ get_or s.now i 0) × (result ≤ 255) }
{
    if i < s.len() { s[i] as usize } else { 0 }
}

// Writes `numbers` to the bytes of `out` from `at` on.
pub(crate) fn put_numbers(out: &mut [u8], at: usize, numbers: &[u16])
    requires { at + 2 * length numbers.now ≤ length out.old }
    ensures { out.new ≡ put out.old at (2 * length numbers.now) (numbers_bytes numbers.now) }
{
    for i in 0..numbers.len() {
        half::put_half(out, at + 2 * i, numbers[i] as usize);
    }
}

// Reads `n` numbers from the bytes of `s` from `at` on to the first of `to`.
pub(crate) fn read_numbers(s: &[u8], at: usize, n: usize, to: &mut [u16])
    requires { (at + 2 * n ≤ length s.now) × (n ≤ length to.old) }
    ensures { to.new ≡ put to.old 0 n (numbers_in n (drop at s.now)) }
{
    for i in 0..n {
        to[i] = half::half(s, at + 2 * i);
    }
}
