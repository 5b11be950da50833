// Replay, line by line: an image, then requests and their answers.
#![tactic(auto)]

ghost use Rattle.std.specs.Prelude.{◌≡◌, ◌+◌, ◌≤◌, length};
ghost use Rattle.byte_parts.specs.Sizes.{most_printed};
ghost use Rattle.text_stream.specs.Stream.{Written};
ghost use Rattle.line_build.specs.Image.{image_step};
ghost use Rattle.line_serve.specs.Line.{work_after, spelled_after};
ghost use Rattle.line_serve.specs.Text.{most_spelled, request_text};
ghost use Rattle.board_line.specs.Line.{board_line_text};
ghost use Rattle.replay_state.specs.Phases.{one_more};
ghost use Rattle.replay_line.specs.Replay.{lent_bytes, held, image_held, image_text, request_held, board_held, held_by, text_by, work_taken, bytes_by, line_held, line_text, work_held, bytes_held};

use replay_kind::Kind;
use replay_state::{Phase, Replay, put_refusal};

// A replay after a line, and the place after what the line printed.
#[derive(Clone, Copy)]
pub struct Taken {
    pub replay: Replay,
    pub at: usize,
}

// One more; a count that 64 bits cannot hold stays.
pub fn one_more(n: u64) -> u64
    ensures { result ≡ one_more n }
{
    if n < u64::MAX { n + 1 } else { n }
}

// Takes an image line, the first or a later one: a refused one is printed into `out` from `at` on and ends the run.
fn image_line(
    replay: Replay,
    first: bool,
    arena: &mut [u8],
    line: &[u8],
    out: &mut [u8],
    at: usize,
) -> Taken
    requires { at + 48 ≤ length out.old }
    ensures arena_after { held result.replay arena.new ≡ image_held replay (image_step first replay.card arena.old line.now) }
    ensures written { Written out.old at (image_text (one_more replay.lines) (image_step first replay.card arena.old line.now).added.answer) result.at out.new × (result.at ≤ at + 48) }
{
    let lines = one_more(replay.lines);
    let added = line_build::image_line(replay.card, first, arena, line);
    let card = added.card;
    let answer = added.answer;
    let asked = replay.asked;
    match answer {
        Ok(()) => Taken {
            replay: Replay {
                card,
                phase: Phase::Image,
                lines,
                asked,
            },
            at,
        },
        Err(refusal) => Taken {
            replay: Replay {
                card,
                phase: Phase::Ended,
                lines,
                asked,
            },
            at: put_refusal(lines, refusal, out, at),
        },
    }
}

// Takes a request, or any line after the first of them: its answer takes the next ordinal.
fn request_line(
    replay: Replay,
    arena: &mut [u8],
    work: &mut [u8],
    bytes: &mut [u8],
    line: &[u8],
    out: &mut [u8],
    at: usize,
) -> Taken
    requires { (length work.old ≡ lent_bytes) × (most_spelled ≤ length bytes.old) × (at + most_printed ≤ length out.old) }
    ensures arena_after { held result.replay arena.new ≡ request_held (held replay arena.old) line.now }
    ensures written { Written out.old at (request_text replay.card arena.old lent_bytes line.now (one_more replay.asked)) result.at out.new × (result.at ≤ at + most_printed) }
    ensures work_after { work.new ≡ work_after replay.card arena.old work.old line.now }
    ensures bytes_after { bytes.new ≡ spelled_after bytes.old line.now }
{
    let card = replay.card;
    let asked = one_more(replay.asked);
    let last = line_serve::request_line(card, arena, work, bytes, line, asked, out, at);
    Taken {
        replay: Replay {
            card,
            phase: Phase::Requests,
            lines: replay.lines,
            asked,
        },
        at: last,
    }
}

// Takes a refresh of the lane board: it takes the next ordinal, and card and arena stay.
fn refresh_line(replay: Replay, arena: &[u8], line: &[u8], out: &mut [u8], at: usize) -> Taken
    requires { at + most_printed ≤ length out.old }
    ensures arena_value { held result.replay arena.now ≡ board_held (held replay arena.now) }
    ensures written { Written out.old at (board_line_text replay.card arena.now line.now (one_more replay.asked)) result.at out.new × (result.at ≤ at + most_printed) }
{
    let card = replay.card;
    let phase = Phase::Requests;
    let ordinal = one_more(replay.asked);
    let last = board_line::board_line(card, arena, line, ordinal, out, at);
    Taken {
        replay: Replay {
            card,
            phase,
            lines: replay.lines,
            asked: ordinal,
        },
        at: last,
    }
}

// Takes one line of a replay for what it is said to be, and puts what it prints into `out` from `at` on.
pub fn take(
    replay: Replay,
    kind: Option<Kind>,
    arena: &mut [u8],
    work: &mut [u8],
    bytes: &mut [u8],
    line: &[u8],
    out: &mut [u8],
    at: usize,
) -> Taken
    requires { (length work.old ≡ lent_bytes) × (most_spelled ≤ length bytes.old) × (at + most_printed ≤ length out.old) }
    ensures arena_after { held result.replay arena.new ≡ held_by kind (held replay arena.old) line.now }
    ensures written { Written out.old at (text_by kind (held replay arena.old) line.now) result.at out.new × (result.at ≤ at + most_printed) }
    ensures work_after { work.new ≡ work_taken kind (held replay arena.old) work.old line.now }
    ensures bytes_after { bytes.new ≡ bytes_by kind bytes.old line.now }
{
    let Some(kind) = kind else {
        return Taken { replay, at };
    };
    match kind {
        Kind::Image(first) => image_line(replay, first, arena, line, out, at),
        Kind::Request => request_line(replay, arena, work, bytes, line, out, at),
        Kind::Board => refresh_line(replay, arena, line, out, at),
    }
}

// Takes one line of a replay, and puts what it prints into `out` from `at` on.
pub fn line(
    replay: Replay,
    arena: &mut [u8],
    work: &mut [u8],
    bytes: &mut [u8],
    line: &[u8],
    out: &mut [u8],
    at: usize,
) -> Taken
    requires { (length work.old ≡ lent_bytes) × (most_spelled ≤ length bytes.old) × (at + most_printed ≤ length out.old) }
    ensures arena_after { held result.replay arena.new ≡ line_held (held replay arena.old) line.now }
    ensures written { Written out.old at (line_text (held replay arena.old) line.now) result.at out.new × (result.at ≤ at + most_printed) }
    ensures work_after { work.new ≡ work_held (held replay arena.old) work.old line.now }
    ensures bytes_after { bytes.new ≡ bytes_held (held replay arena.old) bytes.old line.now }
{
    let phase = replay.phase;
    let kind = replay_kind::kind_of(phase, line);
    take(replay, kind, arena, work, bytes, line, out, at)
}
