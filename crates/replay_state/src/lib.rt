// A replay: where it is between two lines, how it starts and ends, and when it stops reading.
#![tactic(auto)]

ghost use Rattle.std.specs.Prelude.{◌≡◌, ◌+◌, ◌≤◌, length, false};
ghost use Rattle.text_stream.specs.Stream.{Written};
ghost use Rattle.text_pull.specs.Pull.{is_line, Rested};
ghost use Rattle.replay_state.specs.Phases.{replay_start, refusal_text, finish_text, stops_in};

use answers::refusal::Refusal;
use card_build::card::{Card, System};
use text_print::{put_number, put_word};
use text_pull::Flow;

// Where a replay is: ahead of its first line, in the image, among the requests, or ended by a refused image line.
#[derive(Clone, Copy)]
pub enum Phase {
    First,
    Image,
    Requests,
    Ended,
}

// A replay between two lines: its card, and how many image lines and requests there were.
#[derive(Clone, Copy)]
pub struct Replay {
    pub card: Card,
    pub phase: Phase,
    pub lines: u64,
    pub asked: u64,
}

// A replay ahead of its first line.
pub fn start() -> Replay
    ensures { result ≡ replay_start }
{
    Replay {
        card: Card::new(System {
            code: 0,
            version: 0,
            join: false,
        }),
        phase: Phase::First,
        lines: 0,
        asked: 0,
    }
}

// Puts the line of a refused image line, `image`, line number and refusal number, into `out` from `at` on, and answers the place
// after it.
pub fn put_refusal(line: u64, refusal: Refusal, out: &mut [u8], at: usize) -> usize
    requires { at + 48 ≤ length out.old }
    ensures written { Written out.old at (refusal_text line refusal) result out.new }
    ensures upper_bound { result ≤ at + 48 }
{
    let next = put_word(b"image", b'\t', out, at);
    let last = put_number(line, b'\t', out, next);
    put_number(refusal.number() as u64, b'\n', out, last)
}

// Puts what the end of a text prints into `out` from `at` on, and answers the place after it: a text without a line is refused at
// line 1.
#[tactic(auto, using(text_stream::proofs::Prints::written_none))]
pub fn finish(replay: Replay, out: &mut [u8], at: usize) -> usize
    requires { at + 48 ≤ length out.old }
    ensures written { Written out.old at (finish_text replay.phase) result out.new }
    ensures upper_bound { result ≤ at + 48 }
{
    match replay.phase {
        Phase::First => put_refusal(1, Refusal::MalformedImage, out, at),
        _ => at,
    }
}

// Answers where no line is at hand: the end of the text, or nothing.
pub fn close(replay: Replay, flow: Flow, out: &mut [u8]) -> Flow
    requires { (is_line flow ≡ false) × (flow.made + 48 ≤ length out.old) }
    ensures rested { Rested (finish_text replay.phase) flow out.old result out.new }
    ensures made_bound { result.made ≤ flow.made + 48 }
{
    if text_pull::is_end(flow) {
        let made = text_pull::made(flow);
        let last = finish(replay, out, made);
        return text_pull::closed(flow, last);
    }
    flow
}

// Whether a replay stops reading: a refused image line ends the run.
pub fn stops_in(phase: Phase) -> bool
    ensures { result ≡ stops_in phase }
{
    matches!(phase, Phase::Ended)
}
