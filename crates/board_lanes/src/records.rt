// The board as records for a program: sixteen bytes for each lane.
ghost use Rattle.std.specs.Prelude.{◌≡◌, ◌+◌, ◌≤◌, length};
ghost use Rattle.byte_parts.specs.Part.{put};
ghost use Rattle.board_lanes.specs.Board.{race_of, crew_of, lane_of, lanes_of};
ghost use Rattle.board_lanes.specs.Records.{lane_head, lane_record, lanes_records};

use crate::block::{block, crew_of, is_empty, race};
use byte_parts::sizes::BLOCK_SIZE;
use byte_parts::spans;

// Puts the first four bytes of a filled lane's record: 1, the crew's length, and the race low byte first.
fn put_head(b: &[u8], out: &mut [u8], at: usize)
    requires { at + 4 ≤ length out.old }
    ensures { out.new ≡ put out.old at 4 (lane_head (race_of b.now) (crew_of b.now)) }
{
    let number = race(b);
    let n = crew_of(b).len();
    out[at] = 1;
    out[at + 1] = n as u8;
    out[at + 2] = (number % 256) as u8;
    out[at + 3] = (number / 256) as u8;
}

// Puts the record of a lane: an empty lane's is zero.
fn put_record(b: &[u8], out: &mut [u8], at: usize)
    requires { at + 16 ≤ length out.old }
    ensures { out.new ≡ put out.old at 16 (lane_record (lane_of b.now)) }
{
    if is_empty(b) {
        spans::zero(out, at, 16);
        return;
    }
    put_head(b, out, at);
    let crew = crew_of(b);
    let n = crew.len();
    spans::copy(out, at + 4, crew, 0, n);
    spans::zero(out, at + 4 + n, 12 - n);
}

// Puts the eight records of a board to the front of `out`.
pub fn put_records(bytes: &[u8], out: &mut [u8])
    requires { 128 ≤ length out.old }
    ensures { out.new ≡ put out.old 0 128 (lanes_records (lanes_of bytes.now)) }
{
    for i in 0..8 {
        put_record(block(bytes, i), out, BLOCK_SIZE * i);
    }
}
