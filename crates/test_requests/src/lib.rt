// Requests on a card, and blocks set between them.
#![tactic(auto)]

ghost use Rattle.std.specs.Prelude.{◌≤◌, length};

use byte_parts::spans;
use card_build::card::Card;
use request_plan::{Reply, Response};
use request_serve::{reading, writing};
use test_spelt::codes::codes;
use test_spelt::numbers::at16;
use test_spelt::spelt;
use test_stored::number16;

// Whether a reply is the one told: two status bytes, or the number of a refusal.
fn told(reply: Reply, answer: &[u8]) -> bool {
    match reply.response() {
        Response::Refusal(number) => answer.len() == 1 && answer[0] == number,
        Response::Pair { flag1, flag2 } => {
            if answer.len() != 2 {
                return false;
            }
            answer[0] == flag1 && answer[1] == flag2
        }
    }
}

// Whether a reply is the one told, with the cause that the line's last field has: the Rust tells no cause.
fn told_of(line: &[u8], reply: Reply, answer: &[u8]) -> bool {
    let mut cause = [0u8; 8];
    let n = spelt::bytes(line, 9, &mut cause);
    n == 1 && cause[0] == reply.cause() && told(reply, answer)
}

// Whether all bytes have a value.
fn all(s: &[u8], value: u8) -> bool {
    s.iter().all(|b| *b == value)
}

// Whether the output holds what was read, and beyond it what it held.
fn read_right(out: &[u8], read: &[u8], rest: u8) -> bool {
    let n = read.len();
    if out.len() < n {
        return false;
    }
    spans::same(&out[0..n], read) && all(&out[n..], rest)
}

// A read: its reply, and the output, which held a mark before.
fn read_agrees(
    card: Card,
    arena: &[u8],
    line: &[u8],
    codes: &[u16],
    list: &[u8],
    out: &mut [u8],
) -> bool {
    out.fill(0xa5);
    let open = spelt::first(line, 1) == b'O';
    let reply = reading::read(card, arena, out, open, codes, spelt::number(line, 3), list);
    let mut answer = [0u8; 8];
    let n = spelt::bytes(line, 7, &mut answer);
    let mut last = [0u8; 16384];
    let m = spelt::bytes(line, 8, &mut last);
    told_of(line, reply, &answer[0..n]) && read_right(out, &last[0..m], 0xa5)
}

// Whether the staging is as a reply leaves it: zero for the blocks in use after a status pair, and else the mark it held.
fn staging_right(reply: Reply, used: usize, staging: &[u8]) -> bool {
    if let Response::Refusal(_) = reply.response() {
        return all(staging, 0xa5);
    }
    if staging.len() / 16 < used {
        return false;
    }
    let size = 16 * used;
    all(&staging[0..size], 0) && all(&staging[size..], 0xa5)
}

// Puts the changed blocks of a line, each a place and sixteen bytes, into a copy of the arena.
fn put_changed(copy: &mut [u8], changed: &[u8]) -> bool {
    for block in changed.chunks(18) {
        if block.len() < 18 {
            return false;
        }
        let at = 16 * (number16(block[0], block[1]) as usize);
        if copy.len() < at + 16 {
            return false;
        }
        spans::copy(copy, at, block, 2, 16);
    }
    true
}

// A write: its reply, the arena, and the staging, which held a mark before.
fn write_agrees(
    card: Card,
    arena: &mut [u8],
    line: &[u8],
    codes: &[u16],
    list: &[u8],
    staging: &mut [u8],
) -> bool {
    let arena_len = arena.len();
    if 70000 < arena_len {
        return false;
    }
    let mut copy = [0u8; 70000];
    spans::copy(&mut copy, 0, arena, 0, arena_len);
    staging.fill(0xa5);
    let open = spelt::first(line, 1) == b'O';
    let mut data = [0u8; 16384];
    let n = spelt::bytes(line, 5, &mut data);
    let count = spelt::number(line, 3);
    let reply = writing::write(card, arena, staging, open, codes, count, list, &data[0..n]);
    written_right(card, line, reply, arena, staging, &mut copy[0..arena_len])
}

// Whether a write's reply, arena and staging are those of the line.
fn written_right(
    card: Card,
    line: &[u8],
    reply: Reply,
    arena: &[u8],
    staging: &[u8],
    copy: &mut [u8],
) -> bool {
    let mut answer = [0u8; 8];
    let n = spelt::bytes(line, 7, &mut answer);
    let mut last = [0u8; 16384];
    let m = spelt::bytes(line, 8, &mut last);
    if !told_of(line, reply, &answer[0..n]) {
        return false;
    }
    if !staging_right(reply, card.used, staging) {
        return false;
    }
    if !put_changed(copy, &last[0..m]) {
        return false;
    }
    spans::same(arena, copy)
}

// Puts the codes that a line names to the front of a list; gives how many they are.
fn named(line: &[u8], names: &mut [u16]) -> usize
    ensures { result ≤ length names.old }
{
    let mut bytes = [0u8; 128];
    let n = spelt::bytes(line, 2, &mut bytes);
    codes(&bytes[0..n], names)
}

// A read or a write, by its line's kind.
fn served(
    card: Card,
    arena: &mut [u8],
    line: &[u8],
    codes: &[u16],
    list: &[u8],
    room: &mut [u8],
) -> bool {
    if spelt::first(line, 0) == b'R' {
        read_agrees(card, arena, line, codes, list, room)
    } else {
        write_agrees(card, arena, line, codes, list, room)
    }
}

// A line `R` or `W`.
pub fn request(card: Card, arena: &mut [u8], line: &[u8]) -> bool {
    let mut names = [0u16; 64];
    let n = named(line, &mut names);
    let mut list = [0u8; 2048];
    let m = spelt::bytes(line, 4, &mut list);
    let size = spelt::number(line, 6) as usize;
    if 70000 < size {
        return false;
    }
    let mut room = [0u8; 70000];
    served(
        card,
        arena,
        line,
        &names[0..n],
        &list[0..m],
        &mut room[0..size],
    )
}

// A line `b`: code, number, block.
pub fn set(card: Card, arena: &mut [u8], b: &[u8]) -> bool {
    if b.len() != 20 {
        return false;
    }
    let mut block = [0u8; 16];
    spans::copy(&mut block, 0, b, 4, 16);
    let number = at16(b, 2) as u32;
    match request_block::set_block(card, arena, at16(b, 0), number, block) {
        Ok(()) => true,
        Err(_) => false,
    }
}
