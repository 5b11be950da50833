// Replays the Rust's stored answers to questions on the leaves, a line each, through the proved leaves,
// and prints how many lines of each kind agree and how many lines do not.
#![tactic(auto)]

use std::rt::Files;

mod code;
mod element;
mod rule;

// How many lines of each kind agree, and how many lines do not.
#[derive(Clone, Copy)]
struct Tally {
    attributes: u64,
    packs: u64,
    bitmaps: u64,
    purses: u64,
    cyclics: u64,
    indexes: u64,
    wrong: u64,
}

// Whether the answer in a line of a kind is ours.
fn agrees(kind: u8, b: &[u8]) -> bool {
    match kind {
        b'A' => code::attribute(b),
        b'P' => element::pack(b),
        b'B' => element::bitmap(b),
        b'U' => rule::purse(b),
        b'C' => rule::cyclic(b),
        b'I' => element::index(b),
        _ => false,
    }
}

// Counts a line that agrees.
fn counted(t: Tally, kind: u8) -> Tally {
    let mut next = t;
    match kind {
        b'A' => {
            next.attributes = test_stored::one_more(t.attributes);
        }
        b'P' => {
            next.packs = test_stored::one_more(t.packs);
        }
        b'B' => {
            next.bitmaps = test_stored::one_more(t.bitmaps);
        }
        b'U' => {
            next.purses = test_stored::one_more(t.purses);
        }
        b'C' => {
            next.cyclics = test_stored::one_more(t.cyclics);
        }
        _ => {
            next.indexes = test_stored::one_more(t.indexes);
        }
    }
    next
}

// Counts a line.
fn one_line(t: Tally, line: &[u8]) -> Tally {
    let mut bytes = [0u8; 256];
    let n = test_stored::bytes_of(line, &mut bytes);
    let kind = line.first().copied().unwrap_or(0);
    if agrees(kind, &bytes[0..n]) {
        return counted(t, kind);
    }
    let mut next = t;
    next.wrong = test_stored::one_more(t.wrong);
    next
}

// Counts every line of every file; no line at all is wrong.
fn lines<R: Files + Eprint + Alloc>(rt: &R) -> Tally {
    let mut t = Tally {
        attributes: 0,
        packs: 0,
        bitmaps: 0,
        purses: 0,
        cyclics: 0,
        indexes: 0,
        wrong: 0,
    };
    let mut text = io::large_buffer();
    let mut line = test_stored::before_all();
    for read in 0..test_stored::MOST_LINES {
        line = test_stored::next_line(rt, line, &mut text);
        if line.size == 0 {
            if read == 0 {
                test_stored::report_none(rt);
                t.wrong = 1;
            }
            break;
        }
        let start = line.start;
        let end = line.end;
        t = one_line(t, &text[start..end]);
    }
    t
}

fn main(rt: HostRuntime) {
    let t = lines(&rt);
    test_stored::report(b"attributes", t.attributes);
    test_stored::report(b"packs", t.packs);
    test_stored::report(b"bitmaps", t.bitmaps);
    test_stored::report(b"purses", t.purses);
    test_stored::report(b"cyclics", t.cyclics);
    test_stored::report(b"indexes", t.indexes);
    test_stored::report(b"wrong", t.wrong);
}
