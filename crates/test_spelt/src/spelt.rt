// What the fields of a line spell, which blanks part.
ghost use Rattle.std.specs.Prelude.{◌≤◌, length};

use text_fields::field;

// Puts the bytes that field number k spells to the front of a buffer; gives how many they are.
pub fn bytes(line: &[u8], k: usize, out: &mut [u8]) -> usize
    ensures { result ≤ length out.old }
{
    test_stored::bytes_of(field(line, k, b' '), out)
}

// The first byte of field number k, or 0.
pub fn first(line: &[u8], k: usize) -> u8 {
    field(line, k, b' ').first().copied().unwrap_or(0)
}

// The number of 32 bits that field number k spells, or the largest one.
pub fn number(line: &[u8], k: usize) -> u32 {
    let mut b = [0u8; 4];
    let n = bytes(line, k, &mut b);
    if n == 4 {
        test_stored::number32(b[0], b[1], b[2], b[3])
    } else {
        0xffff_ffff
    }
}
