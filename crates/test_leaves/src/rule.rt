// Questions on the purse rule and the cyclic rule.
use answers::status::Fault;
use byte_parts::{spans, word};
use rule_purse::bytes;
use rule_purse::fields::PurseOperation;
use service_code::limit::Limit;
use test_stored::number32;

// Status flag 2 of how a rule ended.
fn flag2(w: Result<(), Fault>) -> u8 {
    match w {
        Ok(()) => 0,
        Err(fault) => fault.status_flag2(),
    }
}

// The operation of a number in the list.
fn operation(n: u8) -> PurseOperation {
    match n {
        0 => PurseOperation::Direct,
        1 => PurseOperation::Decrement,
        _ => PurseOperation::Cashback,
    }
}

// The limit of a line: none, or upper and lower bound.
fn limit(b: &[u8]) -> Option<Limit> {
    if b.len() < 10 {
        return None;
    }
    if b[1] == 0 {
        return None;
    }
    Some(Limit {
        upper: word::signed32(number32(b[2], b[3], b[4], b[5])),
        lower: word::signed32(number32(b[6], b[7], b[8], b[9])),
        generation: 0,
    })
}

// A line `U`: operation, limit, bounds, stored block, command, status flag 2, block after.
pub(crate) fn purse(b: &[u8]) -> bool {
    if b.len() != 59 {
        return false;
    }
    let mut block = [0u8; 16];
    spans::copy(&mut block, 0, b, 10, 16);
    let ended = bytes::apply_purse_write(&mut block, &b[26..42], operation(b[0]), limit(b));
    flag2(ended) == b[42] && spans::same(&block, &b[43..59])
}

// A line `C`: blocks of the store, blocks of the run, their bytes, status flag 2, store after.
pub(crate) fn cyclic(b: &[u8]) -> bool {
    if b.len() < 3 {
        return false;
    }
    if b[0] > 5 {
        return false;
    }
    if b[1] > 5 {
        return false;
    }
    let store = 16 * b[0] as usize;
    let run = 16 * b[1] as usize;
    let from = 2 + store;
    let told = from + run;
    if b.len() != told + 1 + store {
        return false;
    }
    let mut space = [0u8; 80];
    cyclic_in(
        &mut space[0..store],
        &b[2..from],
        &b[from..told],
        b[told],
        &b[told + 1..],
    )
}

// The same, with a copy of the store to work in.
fn cyclic_in(space: &mut [u8], store: &[u8], run: &[u8], flag: u8, after: &[u8]) -> bool {
    if space.len() != store.len() {
        return false;
    }
    spans::copy(space, 0, store, 0, store.len());
    let ended = rule_cyclic::apply_cyclic_write(space, run);
    flag2(ended) == flag && spans::same(space, after)
}
