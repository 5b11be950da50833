// Numbers in the bytes of a line, high byte first.
use test_stored::{number16, number32};

// The number of 16 bits at an index, or 0 where the line is shorter.
pub fn at16(b: &[u8], i: usize) -> u16 {
    if b.len() < 2 {
        return 0;
    }
    if b.len() - 2 < i {
        return 0;
    }
    number16(b[i], b[i + 1])
}

// The number of 32 bits at an index, or 0 where the line is shorter.
pub fn at32(b: &[u8], i: usize) -> u32 {
    if b.len() < 4 {
        return 0;
    }
    if b.len() - 4 < i {
        return 0;
    }
    number32(b[i], b[i + 1], b[i + 2], b[i + 3])
}
