// Inspection, line by line: an image, requests as in replay, and questions, mixed after line 1.
#![tactic(auto)]

ghost use Rattle.std.specs.Prelude.{◌≡◌, Some, ℕ, ◌+◌, ◌≤◌, length};
ghost use Rattle.byte_parts.specs.Sizes.{most_printed};
ghost use Rattle.text_stream.specs.Stream.{Written};
ghost use Rattle.line_serve.specs.Text.{most_spelled};
ghost use Rattle.replay_state.specs.Phases.{one_more};
ghost use Rattle.replay_line.specs.Replay.{lent_bytes, held, held_by, text_by, work_taken, bytes_by};
ghost use Rattle.inspect_ask.specs.Question.{question_of};
ghost use Rattle.inspect_line.specs.Inspect.{seen, begins_with, numbered, replayed_seen, question_seen, room_after, lent_after, question_text, sort_work, sort_bytes, line_seen, line_said, work_seen, bytes_seen};

use card_build::card::Card;
use inspect_ask::Question;
use inspect_sort::{Sort, sort_of};
use replay_kind::Kind;
use replay_state::Replay;

// An inspection between two lines: a replay, whose line number counts every line, and the lengths of the output and of the arena that are
// lent to a question.
#[derive(Clone, Copy)]
pub struct Inspect {
    pub replay: Replay,
    pub room: usize,
    pub lent: usize,
}

// An inspection after a line, and the place after what the line printed.
#[derive(Clone, Copy)]
pub struct Looked {
    pub inspect: Inspect,
    pub at: usize,
}

// An inspection ahead of its first line.
pub fn start() -> Inspect
    ensures { result ≡ begins_with }
{
    Inspect {
        replay: replay_state::start(),
        room: 4096,
        lent: 65536,
    }
}

// A replay that has come to this line number.
fn numbered_to(replay: Replay, lines: u64) -> Replay
    ensures { result ≡ numbered lines replay }
{
    let card = replay.card;
    let phase = replay.phase;
    Replay {
        card,
        phase,
        lines,
        asked: replay.asked,
    }
}

// The length of the output after a question.
fn room_after(question: Option<Question>, room: usize) -> usize
    ensures { result ≡ room_after question room }
{
    match question {
        None => room,
        Some(Question::Of(_)) => room,
        Some(Question::Room(n)) => n as usize,
        Some(Question::Arena(_)) => room,
    }
}

// The length of the arena after a question.
fn lent_after(question: Option<Question>, lent: usize) -> usize
    ensures { result ≡ lent_after question lent }
{
    match question {
        None => lent,
        Some(Question::Of(_)) => lent,
        Some(Question::Room(_)) => lent,
        Some(Question::Arena(n)) => n as usize,
    }
}

// Takes a line of the replay.
fn replayed_line(
    inspect: Inspect,
    kind: Kind,
    arena: &mut [u8],
    work: &mut [u8],
    bytes: &mut [u8],
    line: &[u8],
    out: &mut [u8],
    at: usize,
) -> Looked
    requires { (length work.old ≡ lent_bytes) × (most_spelled ≤ length bytes.old) × (at + most_printed ≤ length out.old) }
    ensures arena_after { seen result.inspect arena.new ≡ replayed_seen inspect (held_by (Some kind) (held inspect.replay arena.old) line.now) }
    ensures written { Written out.old at (text_by (Some kind) (held inspect.replay arena.old) line.now) result.at out.new × (result.at ≤ at + most_printed) }
    ensures work_after { work.new ≡ work_taken (Some kind) (held inspect.replay arena.old) work.old line.now }
    ensures bytes_after { bytes.new ≡ bytes_by (Some kind) bytes.old line.now }
{
    let replay = inspect.replay;
    let lines = replay_line::one_more(replay.lines);
    let taken = replay_line::take(replay, Some(kind), arena, work, bytes, line, out, at);
    let after = taken.replay;
    Looked {
        inspect: Inspect {
            replay: numbered_to(after, lines),
            room: inspect.room,
            lent: inspect.lent,
        },
        at: taken.at,
    }
}

// Puts what a question of this line number prints into `out` from `at` on, and answers the place after it.
fn put_question(
    question: Option<Question>,
    card: Card,
    arena: &[u8],
    lent: usize,
    room: usize,
    number: u64,
    line: &[u8],
    out: &mut [u8],
    at: usize,
) -> usize
    requires { (question_of line.now ≡ question) × (at + most_printed ≤ length out.old) }
    ensures { Written out.old at (question_text card arena.now lent room number line.now question) result out.new × (result ≤ at + most_printed) }
{
    let Some(question) = question else {
        return inspect_answer::put_unknown(number, out, at);
    };
    match question {
        Question::Of(asked) => {
            inspect_answer::put_answer(asked, card, arena, lent, room, line, out, at)
        }
        Question::Room(_) => at,
        Question::Arena(_) => at,
    }
}

// Takes a question: it takes no ordinal, and card and arena stay.
fn question_line(
    inspect: Inspect,
    question: Option<Question>,
    arena: &[u8],
    line: &[u8],
    out: &mut [u8],
    at: usize,
) -> Looked
    requires { (question_of line.now ≡ question) × (at + most_printed ≤ length out.old) }
    ensures arena_value { seen result.inspect arena.now ≡ question_seen (seen inspect arena.now) question }
    ensures written { Written out.old at (question_text inspect.replay.card arena.now inspect.lent inspect.room (one_more inspect.replay.lines) line.now question) result.at out.new × (result.at ≤ at + most_printed) }
{
    let replay = inspect.replay;
    let card = replay.card;
    let lines = replay_line::one_more(replay.lines);
    let lent = inspect.lent;
    let room = inspect.room;
    // ahead of the answer: behind it its place would be zeroed first, and the card copied twice more
    let counted = numbered_to(replay, lines);
    let last = put_question(question, card, arena, lent, room, lines, line, out, at);
    Looked {
        inspect: Inspect {
            replay: counted,
            room: room_after(question, room),
            lent: lent_after(question, lent),
        },
        at: last,
    }
}

// Takes one line of an inspection, and puts what it prints into `out` from `at` on.
pub fn line(
    inspect: Inspect,
    arena: &mut [u8],
    work: &mut [u8],
    bytes: &mut [u8],
    line: &[u8],
    out: &mut [u8],
    at: usize,
) -> Looked
    requires { (length work.old ≡ lent_bytes) × (most_spelled ≤ length bytes.old) × (at + most_printed ≤ length out.old) }
    ensures arena_after { seen result.inspect arena.new ≡ line_seen (seen inspect arena.old) line.now }
    ensures written { Written out.old at (line_said (seen inspect arena.old) line.now) result.at out.new × (result.at ≤ at + most_printed) }
    ensures work_after { work.new ≡ work_seen (seen inspect arena.old) work.old line.now }
    ensures bytes_after { bytes.new ≡ bytes_seen (seen inspect arena.old) bytes.old line.now }
{
    let replay = inspect.replay;
    let phase = replay.phase;
    match sort_of(phase, line) {
        Some(Sort::Replayed(kind)) => replayed_line(
            inspect, kind, arena, work, bytes, line, out, at,
        ),
        Some(Sort::Asked(question)) => question_line(inspect, question, arena, line, out, at),
        None => Looked { inspect, at },
    }
}
