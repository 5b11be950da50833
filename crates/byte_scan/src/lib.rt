// Where a byte first stands in a part of a slice.
#![tactic(auto)]

ghost use Rattle.std.specs.Prelude.{◌≡◌, ◌+◌, ◌≤◌, length};
ghost use Rattle.byte_scan.specs.Bytes.{index_of, slice};

// The index of the first byte of s[from..to] that equals b, or `to` where there is none.
pub fn find(s: &[u8], from: usize, to: usize, b: u8) -> usize
    requires { (from ≤ to) × (to ≤ length s.now) }
    ensures value { result ≡ from + index_of b (slice from to s.now) }
    ensures within { result ≤ to }
{
    for i in from..to {
        if s[i] == b {
            return i;
        }
    }
    to
}
