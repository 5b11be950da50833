// Questions about a card's tree.
use answers::refusal::Refusal;
use card_build::card::Card;
use card_questions::{keys, listing, totals};
use test_spelt::codes::codes;
use test_spelt::numbers::at16;
use test_stored::number16;

// Whether a number is the one told.
fn number(told: Result<u16, Refusal>, high: u8, low: u8) -> bool {
    match told {
        Ok(n) => n == number16(high, low),
        Err(_) => false,
    }
}

// Whether a list check is the one told.
fn checked(check: Result<bool, Refusal>, told: u8) -> bool {
    match check {
        Ok(true) => told == 1,
        Ok(false) => told == 0,
        Err(_) => false,
    }
}

// Whether the pairs of a directory are those of a line, from its third byte on.
fn same_pairs(pairs: &[u16], b: &[u8]) -> bool {
    if b.len() != 2 + 2 * pairs.len() {
        return false;
    }
    for (i, pair) in pairs.iter().enumerate() {
        if *pair != number16(b[2 + 2 * i], b[3 + 2 * i]) {
            return false;
        }
    }
    true
}

// The same of a directory written to an output.
fn listed(card: Card, out: &mut [u16], b: &[u8]) -> bool {
    match listing::directory(card, out) {
        Err(r) => b.len() == 3 && r.number() == b[2],
        Ok(n) => {
            if out.len() / 2 < n {
                return false;
            }
            same_pairs(&out[0..2 * n], b)
        }
    }
}

// A line `D`: room in the output, then the pairs, or the refusal's number.
fn directory(card: Card, b: &[u8]) -> bool {
    if b.len() < 3 {
        return false;
    }
    let room = at16(b, 0) as usize;
    if 512 < room {
        return false;
    }
    let mut out = [0u16; 512];
    listed(card, &mut out[0..room], b)
}

// Whether a list check is the one that a line of a kind tells.
fn list_told(card: Card, kind: u8, list: &[u16], told: u8) -> bool {
    if kind == b'K' {
        checked(keys::area_list_well_formed(card, list), told)
    } else {
        checked(keys::service_list_well_formed(card, list), told)
    }
}

// A line `K` or `L`: codes, and whether the list is well formed.
fn list_check(card: Card, kind: u8, b: &[u8], list: &mut [u16]) -> bool {
    if b.len() == 0 {
        return false;
    }
    let last = b.len() - 1;
    let told = b[last];
    let n = codes(&b[0..last], list);
    list_told(card, kind, &list[0..n], told)
}

// Whether the answer in a line is ours.
pub(crate) fn agrees(card: Card, kind: u8, b: &[u8]) -> bool {
    match kind {
        b'D' => directory(card, b),
        b'K' | b'L' => {
            let mut list = [0u16; 128];
            list_check(card, kind, b, &mut list)
        }
        b'N' => {
            b.len() == 4 && number(totals::block_count_for_node(card, at16(b, 0)), b[2], b[3])
        }
        b'V' => { b.len() == 4 && number(keys::node_key_version(card, at16(b, 0)), b[2], b[3]) }
        _ => false,
    }
}
