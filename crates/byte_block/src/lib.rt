// A block of sixteen bytes, copied at one go.
#![tactic(auto)]

ghost use Rattle.std.specs.Prelude.{◌≡◌, ◌+◌, ◌≤◌, length, drop};
ghost use Rattle.byte_parts.specs.Part.{put};

use byte_parts::spans;

// Copies the sixteen bytes of src from `from` on to dst from `at` on, by way of an array of its own: all are read before one is written, so
// that one load and one store do it.
pub fn copy_block(dst: &mut [u8], at: usize, src: &[u8], from: usize)
    requires { (at + 16 ≤ length dst.old) × (from + 16 ≤ length src.now) }
    ensures { dst.new ≡ put dst.old at 16 (drop from src.now) }
{
    let mut block = [0; 16];
    spans::copy(&mut block[0..16], 0, src, from, 16);
    spans::copy(dst, at, &block[0..16], 0, 16);
}
