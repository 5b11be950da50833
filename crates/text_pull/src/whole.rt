// A whole text in a lent buffer.
ghost use Rattle.std.specs.Prelude.{◌≡◌, ◌+◌, ◌≤◌, ◌<◌, length};
ghost use Rattle.text_pull.specs.Pull.{more_of, More, lacks_of, settled_of, Slurped, is_full};

use crate::{Ends, Flow, Stage};
use std::io::Read;

// Takes in what a read of so much room behind the bytes held answered.
#[tactic(auto, using(crate::proofs::Stages::moved_room), unfolding(crate::specs::Pull::more_of))]
fn take_more(flow: Flow, got: Result<usize, i32>, room: usize) -> Flow
    requires { (1 ≤ flow.turns) × (flow.read + room < 18446744073709551616) × (flow.filled + room < 18446744073709551616) }
    ensures { result ≡ more_of flow got room }
{
    let n = crate::bytes_moved(got, room);
    Flow {
        turns: flow.turns - 1,
        filled: flow.filled + n,
        stage: crate::stage_of(got),
        read: flow.read + n as u64,
        ..flow
    }
}

// Reads behind the bytes held.
fn more<R: Read, W>(ends: &mut Ends<R, W>, flow: Flow, part: &mut [u8]) -> Flow
    requires { (1 ≤ flow.turns) × (flow.read + length part.old < 18446744073709551616) × (flow.filled + length part.old < 18446744073709551616) }
    ensures { More (length part.old) flow result }
{
    let got = crate::read(ends, part);
    take_more(flow, got, part.len())
}

// Whether more may come, with so much room.
#[tactic(auto, unfolding(crate::specs::Pull::lacks_of))]
fn lacks(flow: Flow, room: usize) -> bool
    ensures { result ≡ lacks_of flow room }
{
    0 < flow.turns && matches!(flow.stage, Stage::Reading) && flow.filled < room
}

// After the last read: a full buffer is too short, since nothing said that the text ends there.
#[tactic(auto, unfolding(crate::specs::Pull::settled_of))]
fn settle(flow: Flow, room: usize) -> Flow
    ensures { result ≡ settled_of flow room }
{
    if flow.filled == room {
        return Flow {
            stage: Stage::Full,
            ..flow
        };
    }
    flow
}

// Reads a whole text into a lent buffer. Then the text has ended, and is shorter than the buffer; or the buffer is too short; or a read
// failed; or the reads are used up.
pub fn slurp<R: Read, W>(ends: &mut Ends<R, W>, buffer: &mut [u8]) -> Flow
    requires { length buffer.old < 9223372036854775808 }
    ensures { Slurped (length buffer.old) result }
{
    let mut flow = crate::start();
    // no `for`: what is read says when it ends
    while lacks(flow, buffer.len()) {
        let from = flow.filled;
        flow = more(ends, flow, &mut buffer[from..]);
    }
    settle(flow, buffer.len())
}

// How many bytes of a whole text are held.
pub fn held(flow: Flow) -> usize
    ensures { result ≡ flow.filled }
{
    flow.filled
}

// Whether the buffer was too short for the text.
pub fn is_short(flow: Flow) -> bool
    ensures { result ≡ is_full flow.stage }
{
    matches!(flow.stage, Stage::Full)
}
