// Replay and inspection over a text: the answer to an event, the write, the loop, and what it lends, for both.
#![tactic(auto)]

ghost use Rattle.std.specs.Prelude.{◌≡◌, true, ◌+◌, ◌≤◌, ◌<◌, length, take, replicate};
ghost use Rattle.byte_parts.specs.Sizes.{most_printed};
ghost use Rattle.text_stream.specs.Stream.{says_of};
ghost use Rattle.text_pull.specs.Pull.{is_line, took_of, Answered, Next, Flushed, Ran};
ghost use Rattle.line_serve.specs.Text.{most_spelled};
ghost use Rattle.replay_state.specs.Phases.{stops_in};
ghost use Rattle.replay_line.specs.Replay.{lent_bytes, replay_machine, held_at_start};
ghost use Rattle.inspect_line.specs.Inspect.{begins_with, seen, inspect_machine, seen_at_start};
ghost use Rattle.shell.specs.Both.{both_machine, seen_stops};

use byte_parts::sizes::MOST_PRINTED;
use inspect_line::Inspect;
use replay_state::Phase;
use std::io::{Read, Write};
use text_pull::{Ends, Flow};

// An inspection, and where the reading is. A replay is an inspection that is asked nothing.
#[derive(Clone, Copy)]
struct Moved {
    inspect: Inspect,
    flow: Flow,
}

// Where the reading is after a line that printed up to `at`: a refused image line ends it.
fn passed(flow: Flow, at: usize, phase: Phase) -> Flow
    requires { is_line flow ≡ true }
    ensures { result ≡ took_of flow at (stops_in phase) }
{
    let stops = replay_state::stops_in(phase);
    text_pull::took(flow, at, stops)
}

// Answers an event: a whole line, by whether questions are asked; the end of the text; or nothing.
fn answer(
    asks: bool,
    inspect: Inspect,
    flow: Flow,
    arena: &mut [u8],
    work: &mut [u8],
    bytes: &mut [u8],
    line: &[u8],
    out: &mut [u8],
) -> Moved
    requires { (length work.old ≡ lent_bytes) × (most_spelled ≤ length bytes.old) × (flow.len ≤ length line.now) × (flow.made + most_printed ≤ length out.old) }
    ensures { Answered (both_machine asks) seen_stops most_printed flow (seen inspect arena.old) line.now out.old result.flow (seen result.inspect arena.new) out.new }
{
    if text_pull::is_line(flow) {
        let made = text_pull::made(flow);
        let len = text_pull::kept(flow);
        if asks {
            let looked = inspect_line::line(inspect, arena, work, bytes, &line[0..len], out, made);
            let after = looked.inspect;
            let held = after.replay;
            let phase = held.phase;
            return Moved {
                inspect: after,
                flow: passed(flow, looked.at, phase),
            };
        }
        let taken = replay_line::line(inspect.replay, arena, work, bytes, &line[0..len], out, made);
        let after = taken.replay;
        let phase = after.phase;
        return Moved {
            inspect: Inspect {
                replay: after,
                room: inspect.room,
                lent: inspect.lent,
            },
            flow: passed(flow, taken.at, phase),
        };
    }
    if text_pull::is_end(flow) {
        let rest = replay_state::close(inspect.replay, flow, out);
        return Moved {
            inspect,
            flow: rest,
        };
    }
    Moved { inspect, flow }
}

// Writes what was printed, where it is due: it is what a text of the length read prints next.
fn flush<R, W: Write>(ends: &mut Ends<R, W>, asks: bool, flow: Flow, out: &[u8]) -> Flow
    requires made_in_bounds { (flow.made ≤ length out.now) × (flow.written + flow.made < 18446744073709551616) }
    requires next { Next (says_of (both_machine asks) seen_at_start) flow (take flow.made out.now) }
    ensures { Flushed most_printed (length out.now) flow result }
{
    text_pull::writing::flush(ends, flow, out, MOST_PRINTED)
}

// Answers what is read from the start on, over lent buffers, to where is written.
fn run<R: Read, W: Write>(
    ends: &mut Ends<R, W>,
    asks: bool,
    inspect: Inspect,
    arena: &mut [u8],
    work: &mut [u8],
    bytes: &mut [u8],
    chunk: &mut [u8],
    line: &mut [u8],
    out: &mut [u8],
) -> Flow
    requires arena_value { (arena.old ≡ replicate lent_bytes 0) × (inspect ≡ begins_with) }
    requires work_len { (length work.old ≡ lent_bytes) × (most_spelled ≤ length bytes.old) × (length chunk.old ≡ 65536) × (length line.old ≡ 32769) × (length out.old ≡ 65536) }
    ensures { Ran (both_machine asks) seen_at_start result }
{
    let mut moved = Moved {
        inspect,
        flow: text_pull::start(),
    };
    // no `for`: what is read says when it ends
    while text_pull::goes_on(moved.flow) {
        let flow = text_pull::pull(ends, moved.flow, chunk, line);
        moved = answer(asks, moved.inspect, flow, arena, work, bytes, line, out);
        moved.flow = flush(ends, asks, moved.flow, out);
    }
    moved.flow
}

// Lends what a text is read into, kept in and printed to.
fn lend<R: Read, W: Write>(
    ends: &mut Ends<R, W>,
    asks: bool,
    arena: &mut [u8],
    work: &mut [u8],
    bytes: &mut [u8],
) -> Flow
    requires arena_value { arena.old ≡ replicate lent_bytes 0 }
    requires work_len { (length work.old ≡ lent_bytes) × (most_spelled ≤ length bytes.old) }
    ensures { Ran (both_machine asks) seen_at_start result }
{
    let start = inspect_line::start();
    let mut chunk = [0u8; 65536];
    let mut line = [0u8; 32769];
    let mut out = [0u8; 65536];
    run(
        ends, asks, start, arena, work, bytes, &mut chunk, &mut line, &mut out,
    )
}

// Lends what a card and its requests take, too.
fn whole<R: Read, W: Write>(ends: &mut Ends<R, W>, asks: bool) -> Flow
    ensures { Ran (both_machine asks) seen_at_start result }
{
    let mut arena = [0u8; 65536];
    let mut work = [0u8; 65536];
    let mut bytes = [0u8; 16384];
    lend(ends, asks, &mut arena, &mut work, &mut bytes)
}

// Replays what is read, to where is written, and answers where the reading is then.
pub fn replay<R: Read, W: Write>(ends: &mut Ends<R, W>) -> Flow
    ensures { Ran replay_machine held_at_start result }
{
    whole(ends, false)
}

// Inspects what is read, to where is written, and answers where the reading is then.
pub fn inspect<R: Read, W: Write>(ends: &mut Ends<R, W>) -> Flow
    ensures { Ran inspect_machine seen_at_start result }
{
    whole(ends, true)
}
