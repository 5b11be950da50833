// Writing what was printed: when, and until all of it is taken.
ghost use Rattle.std.specs.Prelude.{◌≡◌, ◌+◌, ◌≤◌, ◌<◌, length};
ghost use Rattle.text_pull.specs.Pull.{due_of, write_stage, put_of, Put, is_broken, left_of, last_stage, gave_up, Wrote, Flushed};

use crate::{Ends, Flow, Stage};
use std::io::Write;

// Whether what waits is to be written: the chunk is used up, or less than `most` of the room is left, or no more lines come.
#[tactic(auto, unfolding(crate::specs::Pull::due_of))]
fn is_due(flow: Flow, room: usize, most: usize) -> bool
    requires { flow.made ≤ room }
    ensures { result ≡ due_of flow room most }
{
    !matches!(flow.stage, Stage::Reading) || flow.filled <= flow.at || room - flow.made < most
}

// The stage after a write: one that took bytes leaves it, so that the next goes on behind them, and an interrupted one, so that it is made
// again; one that took nothing and has no error is a failure of its own.
#[tactic(auto, unfolding(crate::specs::Pull::write_stage, crate::specs::Pull::broken_stage))]
fn write_stage(stage: Stage, got: Result<usize, i32>) -> Stage
    ensures { result ≡ write_stage stage got }
{
    match got {
        Ok(0) => Stage::Untaken,
        Ok(_) => stage,
        Err(errno) if crate::is_interrupt(errno) => stage,
        Err(_) => Stage::Unwritten,
    }
}

// Takes in what a write of all that waits answered: what it took is written.
#[tactic(auto, using(crate::proofs::Stages::moved_room), unfolding(crate::specs::Pull::put_of))]
fn wrote(flow: Flow, got: Result<usize, i32>) -> Flow
    requires { (1 ≤ flow.turns) × (flow.written + flow.made < 18446744073709551616) }
    ensures { result ≡ put_of flow got }
{
    let n = crate::bytes_moved(got, flow.made);
    Flow {
        turns: flow.turns - 1,
        made: flow.made - n,
        stage: write_stage(flow.stage, got),
        written: flow.written + n as u64,
        ..flow
    }
}

// Writes all that waits, by one call.
fn put<R, W: Write>(ends: &mut Ends<R, W>, flow: Flow, words: &[u8]) -> Flow
    requires { (1 ≤ flow.turns) × (flow.made ≡ length words.now) × (flow.written + flow.made < 18446744073709551616) }
    ensures { Put flow result }
{
    wrote(flow, crate::write(ends, words))
}

// Whether a write failed, with an error or without.
fn is_broken(stage: Stage) -> bool
    ensures { result ≡ is_broken stage }
{
    matches!(stage, Stage::Unwritten | Stage::Untaken)
}

// Whether another call is to be made: bytes wait, no write failed, and turns are left.
#[tactic(auto, unfolding(crate::specs::Pull::left_of))]
fn is_left(flow: Flow) -> bool
    ensures { result ≡ left_of flow }
{
    !is_broken(flow.stage) && 0 < flow.turns && 0 < flow.made
}

// The stage where bytes still wait after the last call: a write failed, or none took them.
#[tactic(auto, unfolding(crate::specs::Pull::last_stage))]
fn last_stage(stage: Stage) -> Stage
    ensures { result ≡ last_stage stage }
{
    match stage {
        Stage::Unwritten => stage,
        _ => Stage::Untaken,
    }
}

// After the last call: where bytes still wait the program has failed.
#[tactic(auto, unfolding(crate::specs::Pull::gave_up))]
fn give_up(flow: Flow) -> Flow
    ensures { result ≡ gave_up flow }
{
    if 0 < flow.made {
        return Flow {
            made: 0,
            stage: last_stage(flow.stage),
            ..flow
        };
    }
    flow
}

// Writes all that waits: a call that took a part is followed by one for the rest, an interrupted one is made again.
fn write_out<R, W: Write>(ends: &mut Ends<R, W>, flow: Flow, out: &[u8]) -> Flow
    requires { (flow.made ≤ length out.now) × (flow.written + flow.made < 18446744073709551616) }
    ensures { Wrote flow result }
{
    let end = flow.made;
    let mut after = flow;
    // no `for`: a call takes as many bytes as it will
    while is_left(after) {
        let from = end - after.made;
        after = put(ends, after, &out[from..end]);
    }
    give_up(after)
}

// Writes what was printed, where it is due. A program calls it in one place, which requires that this is what its machine says next.
pub fn flush<R, W: Write>(ends: &mut Ends<R, W>, flow: Flow, out: &[u8], most: usize) -> Flow
    requires { (flow.made ≤ length out.now) × (flow.written + flow.made < 18446744073709551616) }
    ensures { Flushed most (length out.now) flow result }
{
    if is_due(flow, out.len(), most) {
        return write_out(ends, flow, out);
    }
    flow
}
