// Numbers of 16 bits: read from and written to two bytes of a slice, low byte first.
ghost use Rattle.std.specs.Prelude.{◌≡◌, ◌+◌, ◌≤◌, length};
ghost use Rattle.byte_parts.specs.Part.{put};
ghost use Rattle.byte_parts.specs.Half.{half_at, half_bytes};

// Reads the number that the two bytes of `s` from `at` on make: written out in one sum, which becomes one load whatever is asked of it.
pub fn half(s: &[u8], at: usize) -> u16
    requires { at + 2 ≤ length s.now }
    ensures { result ≡ half_at s.now at }
{
    s[at] as u16 + 256 * (s[at + 1] as u16)
}

// Writes the low 16 bits of `v` to the two bytes of `s` from `at` on.
pub fn put_half(s: &mut [u8], at: usize, v: usize)
    requires { at + 2 ≤ length s.old }
    ensures { s.new ≡ put s.old at 2 (half_bytes v) }
{
    s[at] = (v % 256) as u8;
    s[at + 1] = (v / 256 % 256) as u8;
}
