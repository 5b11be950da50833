// The eight lines of a board.
ghost use Rattle.std.specs.Prelude.{◌+◌, ◌<◌, ◌≤◌, length};
ghost use Rattle.text_stream.specs.Stream.{Written};
ghost use Rattle.board_lanes.specs.Board.{lane_of, lanes_of};
ghost use Rattle.board_line.specs.Text.{lane_text, lanes_text, most_board};

use board_lanes::block;
use text_print::{put_number, put_word};

// Puts the line of a lane into `out` from `at` on, and answers the place after it: lane, race and crew, or `-` twice where it is empty.
fn put_lane(b: &[u8], lane: u64, out: &mut [u8], at: usize) -> usize
    requires { (lane < 10) × (at + 23 ≤ length out.old) }
    ensures written { Written out.old at (lane_text lane (lane_of b.now)) result out.new }
    ensures upper_bound { result ≤ at + 21 }
{
    let next = put_number(lane, b'\t', out, at);
    if block::is_empty(b) {
        return put_word(b"-\t-", b'\n', out, next);
    }
    let after = put_number(block::race(b), b'\t', out, next);
    put_word(block::crew_of(b), b'\n', out, after)
}

// Puts the eight lines of a board into `out` from `at` on, and answers the place after them.
pub(crate) fn put_board(bytes: &[u8], out: &mut [u8], at: usize) -> usize
    requires { at + most_board ≤ length out.old }
    ensures written { Written out.old at (lanes_text 1 (lanes_of bytes.now)) result out.new }
    ensures upper_bound { result ≤ at + most_board }
{
    let mut last = at;
    for k in 0..8 {
        last = put_lane(block::block(bytes, k), k as u64 + 1, out, last);
    }
    last
}
