// Lines that grow a card.
use answers::refusal::Refusal;
use byte_parts::word;
use card_build::card::{Added, Card, System};
use test_spelt::numbers::{at16, at32};

// A card, the length of the arena that is lent, and whether the line agreed.
#[derive(Clone, Copy)]
pub(crate) struct Grown {
    pub(crate) card: Card,
    pub(crate) arena_len: usize,
    pub(crate) agrees: bool,
}

// A new card.
pub(crate) fn start(system: System, arena_len: usize) -> Grown {
    Grown {
        card: Card::new(system),
        arena_len,
        agrees: true,
    }
}

// A line that is none of these.
fn unknown(g: Grown) -> Grown {
    let mut next = g;
    next.agrees = false;
    next
}

// The refusal's number in the list, 0 for none.
fn refusal(a: Result<(), Refusal>) -> u8 {
    match a {
        Ok(()) => 0,
        Err(r) => r.number(),
    }
}

// After an addition whose refusal the list gives.
fn after(added: Added, arena_len: usize, told: u8) -> Grown {
    let answer = added.answer;
    let card = added.card;
    Grown {
        card,
        arena_len,
        agrees: refusal(answer) == told,
    }
}

// A line `a`: depth, code, end, version, refusal.
fn area(g: Grown, b: &[u8]) -> Grown {
    if b.len() != 11 {
        return unknown(g);
    }
    let card = g.card;
    let added = card.add_area(at32(b, 0), at16(b, 4), at16(b, 6), at16(b, 8));
    after(added, g.arena_len, b[10])
}

// A line `s`: depth, code, blocks, version, refusal, blocks in use after it.
fn service(g: Grown, b: &[u8], arena: &mut [u8]) -> Grown {
    if b.len() != 15 {
        return unknown(g);
    }
    let arena_len = g.arena_len;
    if arena.len() < arena_len {
        return unknown(g);
    }
    let used = at16(b, 13) as usize;
    let told = b[12];
    let card = g.card;
    let added = card.add_service(
        &mut arena[0..arena_len],
        at32(b, 0),
        at16(b, 4),
        at32(b, 6),
        at16(b, 10),
    );
    let mut next = after(added, arena_len, told);
    let grown = next.card;
    if grown.used != used {
        next.agrees = false;
    }
    next
}

// A line `l`: upper, lower, generation, refusal.
fn limit(g: Grown, b: &[u8]) -> Grown {
    if b.len() != 10 {
        return unknown(g);
    }
    let card = g.card;
    let added = card.set_limit(word::signed32(at32(b, 0)), word::signed32(at32(b, 4)), b[8]);
    after(added, g.arena_len, b[9])
}

// A line `T`: system code, key version, whether it joins, arena length.
fn tree(g: Grown, b: &[u8]) -> Grown {
    if b.len() != 9 {
        return unknown(g);
    }
    let system = System {
        code: at16(b, 0),
        version: at16(b, 2),
        join: b[4] == 1,
    };
    start(system, at32(b, 5) as usize)
}

// A line `m`: the length of the arena from here on.
fn arena_length(g: Grown, b: &[u8]) -> Grown {
    if b.len() != 4 {
        return unknown(g);
    }
    let mut next = g;
    next.arena_len = at32(b, 0) as usize;
    next.agrees = true;
    next
}

// One line.
pub(crate) fn line(g: Grown, kind: u8, b: &[u8], arena: &mut [u8]) -> Grown {
    match kind {
        b'T' => tree(g, b),
        b'm' => arena_length(g, b),
        b'a' => area(g, b),
        b's' => service(g, b, arena),
        b'l' => limit(g, b),
        _ => unknown(g),
    }
}
