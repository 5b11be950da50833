// Numbers of 32 bits: read from and written to four bytes of a slice, low byte first, and as what they stand for with a sign.
ghost use Rattle.std.specs.Prelude.{◌≡◌, ◌+◌, ◌≤◌, ◌<◌, ◌^◌, length};
ghost use Rattle.std.specs.Int.Signed.{mag};
ghost use Rattle.byte_parts.specs.Part.{put};
ghost use Rattle.byte_parts.specs.Word.{word_at, word_bytes, signed_of, word_of};

// Reads the number that the four bytes of s from `at` on make, in one sum as `half` does.
pub fn word(s: &[u8], at: usize) -> u32
    requires { at + 4 ≤ length s.now }
    ensures { result ≡ word_at s.now at }
{
    s[at] as u32
        + 256 * (s[at + 1] as u32)
        + 65536 * (s[at + 2] as u32)
        + 16777216 * (s[at + 3] as u32)
}

// Writes v to the four bytes of s from `at` on.
pub fn put_word(s: &mut [u8], at: usize, v: u32)
    requires { at + 4 ≤ length s.old }
    ensures { s.new ≡ put s.old at 4 (word_bytes v) }
{
    s[at] = (v % 256) as u8;
    s[at + 1] = (v / 256 % 256) as u8;
    s[at + 2] = (v / 65536 % 256) as u8;
    s[at + 3] = (v / 16777216 % 256) as u8;
}

// Gives what v stands for with a sign: from 2 ^ 31 on v less 2 ^ 32. In 64 bits, where sums of two such numbers fit.
pub fn signed(v: u32) -> i64
    ensures { result ≡ signed_of v }
{
    if v < 0x8000_0000 {
        v as i64
    } else {
        v as i64 - 0x1_0000_0000
    }
}

// Gives what v stands for with a sign, in the 32 bits in which a card keeps its limits.
pub fn signed32(v: u32) -> i32
    ensures { result ≡ signed_of v }
{
    if v <= 0x7fff_ffff {
        v as i32
    } else {
        -1 - (0xffff_ffff - v) as i32
    }
}

// Gives the 32 bits of z: below 0 those of z and 2 ^ 32.
pub fn unsigned(z: i64) -> u32
    requires { mag z < 2 ^ 32 }
    ensures { result ≡ word_of z }
{
    if z < 0 {
        (z + 0x1_0000_0000) as u32
    } else {
        z as u32
    }
}
