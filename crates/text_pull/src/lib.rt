// A text pulled line by line: where the reading is, what a read brings, the next whole line, what a line leaves, what a write leaves.
#![tactic(auto)]

mod saying;
pub mod whole;
pub mod writing;

ghost use Rattle.std.specs.Prelude.{◌≡◌, true, false, ◌+◌, ◌≤◌, ◌<◌, length, pos};
ghost use Rattle.text_pull.specs.Pull.{flow_start, is_interrupt, bytes_moved, stage_of, read_of, Refilled, stage_open, goes_on, last_of, fed_of, is_line, is_end, Pulled, took_of, closed_of, fault_of};
ghost use Rattle.text_pull.specs.declared.Stage.TheVariants.{Ended};

use std::io::{Error, ErrorKind, Read, Write};
use text_feed::Place;

// Errors of the system: a signal interrupted the call; a call failed for a reason that has no number.
const EINTR: i32 = 4;

const EIO: i32 = 5;

// What a read, a write or a machine came to.
#[derive(Clone, Copy)]
enum Stage {
    // bytes may come
    Reading,
    // the text has ended
    Ended,
    // a read failed
    Unread,
    // a write failed
    Unwritten,
    // all is printed
    Done,
    // a write took nothing
    Untaken,
    // the buffer for a whole text is full
    Full,
}

// A program between two calls: the turns left, of which a pull and a write use one each; the bytes kept of the line at hand; how many the
// chunk has and how many of them are taken; whether the line at hand is whole; how many bytes are printed and wait to be written; the stage;
// and how many were read and written in all. No other room can make one or change one.
#[derive(Clone, Copy)]
pub struct Flow {
    turns: u64,
    len: usize,
    filled: usize,
    at: usize,
    whole: bool,
    made: usize,
    stage: Stage,
    read: u64,
    written: u64,
}

// A program that has read nothing. Nothing says that a text ends, so the turns are counted down from a number that no run uses up.
const START: Flow = Flow {
    turns: 140737488355328,
    len: 0,
    filled: 0,
    at: 0,
    whole: false,
    made: 0,
    stage: Stage::Reading,
    read: 0,
    written: 0,
};

// A program starts.
pub fn start() -> Flow
    ensures { result ≡ flow_start }
{
    START
}

// A program's ends: what it reads from and what it writes to, and the number of the error of the call that failed last, 0 before any has.
#[derive(Drop)]
pub struct Ends<R, W> {
    from: R,
    to: W,
    errno: i32,
}

impl<R, W> Ends<R, W> {
    // Ends over which no call has failed.
    pub fn new(from: R, to: W) -> Ends<R, W>
        ensures { (result.from ≡ from) × (result.to ≡ to) × (result.errno ≡ pos 0) }
    {
        Ends { from, to, errno: 0 }
    }
}

// The number of an error, as the system counts them: EINTR (4) where a signal interrupted the call, and else another one; EIO (5) stands
// for an error that is none of the system's.
fn number_of(error: Error) -> i32 {
    if error.kind() == ErrorKind::Interrupted {
        return EINTR;
    }
    error.raw_os_error().unwrap_or(EIO)
}

// What a call answered: how many bytes it moved, or the number of its error, which is kept.
fn answered(moved: Result<usize, Error>, kept: &mut i32) -> Result<usize, i32> {
    let got = moved.map_err(number_of);
    if let Err(errno) = got {
        *kept = errno;
    }
    got
}

// Reads from the reader: the only read.
fn read<R: Read, W>(ends: &mut Ends<R, W>, chunk: &mut [u8]) -> Result<usize, i32> {
    answered(ends.from.read(chunk), &mut ends.errno)
}

// Writes to the writer: the only write.
fn write<R, W: Write>(ends: &mut Ends<R, W>, words: &[u8]) -> Result<usize, i32> {
    answered(ends.to.write(words), &mut ends.errno)
}

// Whether an error says that a signal interrupted the call.
fn is_interrupt(errno: i32) -> bool
    ensures { result ≡ is_interrupt errno }
{
    errno == EINTR
}

// How many bytes a call moved, with so much room: none where it had an error.
#[tactic(auto, unfolding(crate::specs::Pull::bytes_moved))]
fn bytes_moved(got: Result<usize, i32>, room: usize) -> usize
    ensures { result ≡ bytes_moved got room }
{
    match got {
        Ok(n) => n.min(room),
        Err(_) => 0,
    }
}

// The stage after a read: where it brought nothing and had no error, the text has ended; an interrupted one is tried again.
#[tactic(auto, unfolding(crate::specs::Pull::stage_of, crate::specs::Pull::came_stage, crate::specs::Pull::error_stage))]
fn stage_of(got: Result<usize, i32>) -> Stage
    ensures { result ≡ stage_of got }
{
    match got {
        Ok(0) => Stage::Ended,
        Ok(_) => Stage::Reading,
        Err(errno) if is_interrupt(errno) => Stage::Reading,
        Err(_) => Stage::Unread,
    }
}

// Takes in what a read of so much room answered.
#[tactic(auto, using(crate::proofs::Stages::moved_room), unfolding(crate::specs::Pull::read_of))]
fn take_in(flow: Flow, got: Result<usize, i32>, room: usize) -> Flow
    requires { flow.read + room < 18446744073709551616 }
    ensures { result ≡ read_of flow got room }
{
    let n = bytes_moved(got, room);
    Flow {
        filled: n,
        at: 0,
        stage: stage_of(got),
        read: flow.read + n as u64,
        ..flow
    }
}

// Reads, where all of the chunk is taken and the text has not ended.
fn refill<R: Read, W>(ends: &mut Ends<R, W>, flow: Flow, chunk: &mut [u8]) -> Flow
    requires { (flow.read + length chunk.old < 18446744073709551616) × (flow.at ≤ flow.filled) × (flow.filled ≤ length chunk.old) × (stage_open flow.stage ≡ true) × (flow.stage ≡ Ended → flow.filled ≤ flow.at) }
    ensures { Refilled flow chunk.old result chunk.new }
{
    if flow.at < flow.filled || is_end(flow) {
        return flow;
    }
    let got = read(ends, chunk);
    take_in(flow, got, chunk.len())
}

// Whether a stage is open: neither is all printed, nor has something failed.
fn is_open(stage: Stage) -> bool
    ensures { result ≡ stage_open stage }
{
    matches!(stage, Stage::Reading | Stage::Ended)
}

// Whether a program goes on: turns are left, and its stage is open.
#[tactic(auto, unfolding(crate::specs::Pull::goes_on))]
pub fn goes_on(flow: Flow) -> bool
    ensures { result ≡ goes_on flow }
{
    0 < flow.turns && is_open(flow.stage)
}

// Whether the line at hand is whole: a LF ended it, or the text did and bytes of it are kept.
#[tactic(auto, using(crate::proofs::Stages::last_whole, crate::proofs::Stages::last_open), unfolding(crate::specs::Pull::last_of, crate::specs::Pull::at_end))]
fn last(whole: bool, stage: Stage, len: usize) -> bool
    ensures { result ≡ last_of whole stage len }
{
    whole || matches!(stage, Stage::Ended) && 0 < len
}

// Takes in where the feeding came to, by one turn.
#[tactic(auto, unfolding(crate::specs::Pull::fed_of))]
fn fed(came: Flow, place: Place) -> Flow
    requires { 1 ≤ came.turns }
    ensures { result ≡ fed_of came place }
{
    Flow {
        turns: came.turns - 1,
        at: place.at,
        len: place.len,
        whole: last(place.whole == 1, came.stage, place.len),
        ..came
    }
}

// Pulls: reads where the chunk is used up, and takes its bytes up to a LF. Then a whole line stands in front of `line`; or the text has
// ended; or the read failed; or there is more to come.
pub fn pull<R: Read, W>(
    ends: &mut Ends<R, W>,
    flow: Flow,
    chunk: &mut [u8],
    line: &mut [u8],
) -> Flow
    requires le_turns { (1 ≤ flow.turns) × (flow.whole ≡ false) × (stage_open flow.stage ≡ true) × (flow.stage ≡ Ended → flow.filled ≤ flow.at) }
    requires at_le_filled { (flow.at ≤ flow.filled) × (flow.filled ≤ length chunk.old) × (flow.len ≤ length line.old) }
    requires chunk_bound { flow.read + length chunk.old < 18446744073709551616 }
    ensures { Pulled flow chunk.old line.old result chunk.new line.new }
{
    let came = refill(ends, flow, chunk);
    let place = text_feed::feed(
        Place {
            at: came.at,
            len: came.len,
            whole: 0,
        },
        &chunk[..came.filled],
        line,
    );
    fed(came, place)
}

// Whether the event is a whole line.
pub fn is_line(flow: Flow) -> bool
    ensures { result ≡ is_line flow }
{
    flow.whole
}

// Whether the text has ended, where no line is whole.
pub fn is_end(flow: Flow) -> bool
    ensures { result ≡ is_end flow }
{
    matches!(flow.stage, Stage::Ended)
}

// How many bytes of the line at hand stand in front of its buffer.
pub fn kept(flow: Flow) -> usize
    ensures { result ≡ flow.len }
{
    flow.len
}

// How many bytes are printed and wait.
pub fn made(flow: Flow) -> usize
    ensures { result ≡ flow.made }
{
    flow.made
}

// After the line at hand, which printed up to `made`: it is taken, and a program that stops is done.
pub fn took(flow: Flow, made: usize, stops: bool) -> Flow
    requires { is_line flow ≡ true }
    ensures { result ≡ took_of flow made stops }
{
    let stage = if stops { Stage::Done } else { flow.stage };
    Flow {
        len: 0,
        whole: false,
        made,
        stage,
        ..flow
    }
}

// After the end, which printed up to `made`.
pub fn closed(flow: Flow, made: usize) -> Flow
    requires { (is_line flow ≡ false) × (is_end flow ≡ true) }
    ensures { result ≡ closed_of flow made }
{
    let printed = Flow { made, ..flow };
    Flow {
        stage: Stage::Done,
        ..printed
    }
}

// What is said of a program that has left its loop.
#[derive(Clone, Copy)]
enum Fault {
    Unread,
    Unwritten,
    Untaken,
    Unended,
}

// What failed, if something: a read; a write, with an error or without one to tell; or the turns are used up.
#[tactic(auto, unfolding(crate::specs::Pull::stage_fault, crate::specs::Pull::write_fault))]
fn fault_of(flow: Flow) -> Option<Fault>
    ensures { result ≡ fault_of flow }
{
    match flow.stage {
        Stage::Reading | Stage::Ended => Some(Fault::Unended),
        Stage::Unread => Some(Fault::Unread),
        Stage::Unwritten => Some(Fault::Unwritten),
        Stage::Untaken => Some(Fault::Untaken),
        Stage::Done | Stage::Full => None,
    }
}

// Says on standard error what failed, in one line; where nothing did, nothing.
pub fn report<R, W>(rt: &(impl Eprint + Alloc), ends: &Ends<R, W>, flow: Flow) {
    match fault_of(flow) {
        None => {}
        Some(Fault::Unread) => saying::say_unread(rt, ends.errno),
        Some(Fault::Unwritten) => saying::say_unwritten(rt, ends.errno),
        Some(Fault::Untaken) => saying::say_untaken(rt),
        Some(Fault::Unended) => saying::say_unended(rt),
    }
}
