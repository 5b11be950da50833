// A race's card: the marshal writes lane 1 through a read/write service, the finish tower reads it through a read-only
// service of the same number. A late redraw in between is what the tower then reads; a write with too short a staging is
// refused, and the tower reads the lane as it was.
#![tactic(auto)]

use card_build::card::{Card, System};
use request_plan::{Reply, Response};
use request_serve::{reading, writing};

// The card: two lanes of number 41h, written by 1049 and read by 104B, both open.
fn race(arena: &mut [u8]) -> Card {
    let card = Card::new(System {
        code: 0x0001,
        version: 0x0000,
        join: false,
    });
    let marshal = card.add_service(arena, 1, 0x1049, 2, 0x0000);
    let written = marshal.card;
    let tower = written.add_service(arena, 1, 0x104b, 2, 0x0000);
    let both = tower.card;
    both
}

// Prints what was done and what it was told: two status bytes, or the number of a refusal.
fn print_reply(what: &[u8], reply: Reply) {
    io::write_all(1, what);
    match reply.response() {
        Response::Pair { flag1, flag2 } => {
            io::write_all(1, b" ");
            io::print_hex(1, flag1 as u64, 2);
            io::write_all(1, b" ");
            io::print_hex(1, flag2 as u64, 2);
        }
        Response::Refusal(number) => {
            io::write_all(1, b" refused, ");
            io::print_decimal(1, number as u64);
        }
    }
}

// The marshal's write of lane 1, which is block 0: sixteen bytes. The staging has to hold all blocks in use.
fn marshal(card: Card, arena: &mut [u8], staging: &mut [u8], block: &[u8]) {
    let codes = [0x1049u16];
    let list = [0x80u8, 0];
    let reply = writing::write(card, arena, staging, true, &codes, 1, &list, block);
    print_reply(b"marshal", reply);
    io::write_all(1, b"\n");
}

// The tower's read of the same lane.
fn tower(card: Card, arena: &[u8]) {
    let mut out = [b'-'; 16];
    let codes = [0x104bu16];
    let list = [0x80u8, 0];
    let reply = reading::read(card, arena, &mut out, true, &codes, 1, &list);
    print_reply(b"tower", reply);
    io::write_all(1, b" ");
    io::write_all(1, &out);
    io::write_all(1, b"\n");
}

fn main() {
    let mut arena = [0u8; 256];
    let mut staging = [0u8; 32];
    let card = race(&mut arena);
    marshal(card, &mut arena, &mut staging, b"lane 1: LEANDER ");
    tower(card, &arena);
    marshal(card, &mut arena, &mut staging, b"lane 1: THAMES  ");
    tower(card, &arena);
    marshal(card, &mut arena, &mut staging[0..16], b"lane 1: NEPTUNE ");
    tower(card, &arena);
}
