// Parts of a slice of bytes, by their place and length. Each contract is one equation on the whole slice, so that a caller need not
// say again which bytes stayed.
ghost use Rattle.std.specs.Prelude.{◌≡◌, ◌+◌, ◌≤◌, min, length, drop, replicate};
ghost use Rattle.byte_parts.specs.Part.{put, same_bytes};

// The lesser of two numbers.
pub fn least(a: usize, b: usize) -> usize
    ensures { result ≡ min a b }
{
    a.min(b)
}

// Copies the n bytes of src from `from` on to dst from `at` on.
pub fn copy(dst: &mut [u8], at: usize, src: &[u8], from: usize, n: usize)
    requires { (at + n ≤ length dst.old) × (from + n ≤ length src.now) }
    ensures { dst.new ≡ put dst.old at n (drop from src.now) }
{
    dst[at..at + n].copy_from_slice(&src[from..from + n]);
}

// Makes the n bytes of s from `at` on 0.
pub fn zero(s: &mut [u8], at: usize, n: usize)
    requires { at + n ≤ length s.old }
    ensures { s.new ≡ put s.old at n (replicate n 0) }
{
    s[at..at + n].fill(0);
}

// Tells whether s and t are as long and hold the same bytes.
#[tactic(auto, using(crate::proofs::Part::pointwise_same))]
pub fn same(s: &[u8], t: &[u8]) -> bool
    ensures { result ≡ same_bytes s.now t.now }
{
    s == t
}
