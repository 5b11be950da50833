// Replays the Rust's stored answers on cards, a line each, through the proved card: growing one, asking about its tree,
// and serving requests. Prints how many lines of each kind agree and how many lines do not.
#![tactic(auto)]

use add::Grown;
use card_build::card::{Card, System};
use std::rt::Files;

mod add;
mod ask;

// How many lines agree, and how many do not.
#[derive(Clone, Copy)]
struct Tally {
    cards: u64,
    additions: u64,
    questions: u64,
    blocks: u64,
    requests: u64,
    wrong: u64,
}

// Counts a line of a kind.
fn counted(t: Tally, kind: u8, agrees: bool) -> Tally {
    let mut next = t;
    if !agrees {
        next.wrong = test_stored::one_more(t.wrong);
        return next;
    }
    match kind {
        b'T' => {
            next.cards = test_stored::one_more(t.cards);
        }
        b'a' | b's' | b'l' | b'm' => {
            next.additions = test_stored::one_more(t.additions);
        }
        b'b' => {
            next.blocks = test_stored::one_more(t.blocks);
        }
        b'R' | b'W' => {
            next.requests = test_stored::one_more(t.requests);
        }
        _ => {
            next.questions = test_stored::one_more(t.questions);
        }
    }
    next
}

// Whether a line that leaves the card as it is agrees, with as much of the arena as is lent.
fn asked(grown: Grown, kind: u8, line: &[u8], b: &[u8], arena: &mut [u8]) -> bool {
    let card = grown.card;
    let arena_len = grown.arena_len;
    if arena.len() < arena_len {
        return false;
    }
    match kind {
        b'b' => test_requests::set(card, &mut arena[0..arena_len], b),
        b'R' | b'W' => test_requests::request(card, &mut arena[0..arena_len], line),
        _ => ask::agrees(card, kind, b),
    }
}

// Whether a line makes a card, adds to it, or sets the arena's length.
fn is_step(kind: u8) -> bool {
    match kind {
        b'T' | b'a' | b's' | b'l' | b'm' => true,
        _ => false,
    }
}

// The card after a line, and whether the line agreed.
fn after(grown: Grown, kind: u8, line: &[u8], arena: &mut [u8]) -> Grown {
    let mut bytes = [0u8; 1024];
    let n = test_stored::bytes_of(line, &mut bytes);
    if is_step(kind) {
        return add::line(grown, kind, &bytes[0..n], arena);
    }
    let mut next = grown;
    next.agrees = asked(grown, kind, line, &bytes[0..n], arena);
    next
}

// The kind of a line: its first byte.
fn kind_of(line: &[u8]) -> u8 {
    if 0 < line.len() { line[0] } else { 0 }
}

// The card after the lines so far, and what they came to.
#[derive(Clone, Copy)]
struct Run {
    grown: Grown,
    tally: Tally,
}

// Counts a line.
fn one_line(run: Run, line: &[u8], arena: &mut [u8]) -> Run {
    let kind = kind_of(line);
    let before = run.grown;
    let tally = run.tally;
    let grown = after(before, kind, line, arena);
    Run {
        grown,
        tally: counted(tally, kind, grown.agrees),
    }
}

// Before the first line, which makes a card.
fn start() -> Run {
    let system = System {
        code: 0,
        version: 0,
        join: false,
    };
    Run {
        grown: add::start(system, 0),
        tally: Tally {
            cards: 0,
            additions: 0,
            questions: 0,
            blocks: 0,
            requests: 0,
            wrong: 0,
        },
    }
}

// Counts every line of every file; no line at all is wrong.
fn lines<R: Files + Eprint + Alloc>(rt: &R, arena: &mut [u8]) -> Tally {
    let mut run = start();
    let mut text = io::large_buffer();
    let mut line = test_stored::before_all();
    for read in 0..test_stored::MOST_LINES {
        line = test_stored::next_line(rt, line, &mut text);
        if line.size == 0 {
            if read == 0 {
                test_stored::report_none(rt);
                run.tally.wrong = 1;
            }
            break;
        }
        run = one_line(run, &text[line.start..line.end], arena);
    }
    run.tally
}

fn main(rt: HostRuntime) {
    let mut arena = [0u8; 70000];
    let t = lines(&rt, &mut arena);
    test_stored::report(b"cards", t.cards);
    test_stored::report(b"additions", t.additions);
    test_stored::report(b"questions", t.questions);
    test_stored::report(b"blocks", t.blocks);
    test_stored::report(b"requests", t.requests);
    test_stored::report(b"wrong", t.wrong);
}
