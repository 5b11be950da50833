// One block of a board: byte 0 the lane, 1 and 2 the race, 3 to 14 the crew, 15 zero. Bytes that a short slice lacks count as zero, or
// are left out of a part.
ghost use Rattle.std.specs.Prelude.{◌≡◌, ◌<◌, ◌≤◌, length, get_or};
ghost use Rattle.byte_parts.specs.Part.{part};
ghost use Rattle.board_lanes.specs.Board.{block_at, is_empty, race_of, are_crew, crew_bytes, crew_length, crew_of};

use byte_parts::sizes::BLOCK_SIZE;

// Gives the n bytes of s from `at` on, or as many of them as there are.
fn part_of<'a>(s: &'a [u8], at: usize, n: usize) -> &'a [u8]
    ensures { result.now ≡ part s.now at n }
{
    if s.len() <= at {
        return &s[0..0];
    }
    if s.len() - at <= n {
        return &s[at..s.len()];
    }
    &s[at..at + n]
}

// Reads byte i of s.
pub(crate) fn byte(s: &[u8], i: usize) -> u64
    ensures { (result ≡ get_or s.now i 0) × (result < 256) }
{
    if i < s.len() { s[i] as u64 } else { 0 }
}

// Gives the block of lane k + 1, k from 0 to 7.
pub fn block<'a>(bytes: &'a [u8], k: usize) -> &'a [u8]
    requires { k < 8 }
    ensures { result.now ≡ block_at bytes.now k }
{
    part_of(bytes, BLOCK_SIZE * k, 16)
}

// Gives the bytes of a block's crew, with its spaces.
pub(crate) fn crew<'a>(b: &'a [u8]) -> &'a [u8]
    ensures { result.now ≡ crew_bytes b.now }
{
    part_of(b, 3, 12)
}

// Gives the number of a block's race.
pub fn race(b: &[u8]) -> u64
    ensures { (result ≡ race_of b.now) × (result < 65536) }
{
    byte(b, 1) + 256 * byte(b, 2)
}

// Tells whether a lane is empty: every byte of its block is zero.
pub fn is_empty(b: &[u8]) -> bool
    ensures { result ≡ is_empty b.now }
{
    b.iter().all(|x| *x == 0)
}

// Tells whether every byte of a crew is one that is printed.
pub(crate) fn are_crew(s: &[u8]) -> bool
    ensures { result ≡ are_crew s.now }
{
    s.iter().all(|x| 0x20 <= *x && *x <= 0x7e)
}

// Gives how long a crew is without its trailing spaces.
fn crew_length(s: &[u8]) -> usize
    ensures { (result ≡ crew_length s.now) × (result ≤ length s.now) }
{
    for i in (0..s.len()).rev() {
        if s[i] != b' ' {
            return i + 1;
        }
    }
    0
}

// Gives a block's crew without its trailing spaces.
pub fn crew_of<'a>(b: &'a [u8]) -> &'a [u8]
    ensures { result.now ≡ crew_of b.now }
{
    let s = crew(b);
    let n = crew_length(s);
    &s[0..n]
}
