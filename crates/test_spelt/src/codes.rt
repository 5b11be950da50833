// Service codes of a line.
ghost use Rattle.std.specs.Prelude.{◌≤◌, length};

use test_stored::number16;

// Puts the codes that bytes spell, high byte first, into a list, as many as it holds; gives how many they are.
pub fn codes(b: &[u8], list: &mut [u16]) -> usize
    ensures { result ≤ length list.old }
{
    let n = list.len().min(b.len() / 2);
    for i in 0..n {
        list[i] = number16(b[2 * i], b[2 * i + 1]);
    }
    n
}
