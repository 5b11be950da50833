// The lane board of a card in the caller's bytes.
ghost use Rattle.std.specs.Prelude.{◌≡◌, ◌≤◌, length};
ghost use Rattle.board_read.specs.Refresh.{board_served, refreshed};
ghost use Rattle.handset_bytes.specs.Card.{card_decoded};
ghost use Rattle.handset_words.specs.Board.{refreshed_as, board_room, board_made, records_by, records_after};

use crate::{outcome, requests};
use board_lanes::records;
use board_read::Refreshed;
use byte_parts::spans;
use card_build::card::Card;
use handset_bytes::decoding;

// How many of 128 bytes the read is lent, where `len` bytes are there for the records.
fn room(len: usize) -> usize
    ensures { (result ≡ board_room len) × (result ≤ 128) × (result ≤ len) }
{
    spans::least(len, 128)
}

// Reads the eight blocks into `bytes`, and writes the records of the lanes that they make to the front of `lanes`.
fn filled(card: Card, arena: &[u8], code: u16, bytes: &mut [u8], lanes: &mut [u8]) -> u32
    requires { length bytes.old ≤ length lanes.old }
    ensures value { result ≡ refreshed_as (refreshed card arena.now code (length bytes.old)) }
    ensures lanes_after { lanes.new ≡ records_by lanes.old (board_served card arena.now code (length bytes.old)).read (refreshed card arena.now code (length bytes.old)) }
{
    match board_read::refresh(card, arena, code, bytes) {
        Refreshed::Board => {
            records::put_records(&bytes[0..128], lanes);
            0
        }
        Refreshed::NoBoard(refusal) => outcome::numbered(refusal.number()),
        Refreshed::Card(reply) => requests::replied(reply),
    }
}

// Reads the eight lanes of the service `code`, in a session, and writes their records to the front of `lanes`, 16 bytes each.
#[unsafe(no_mangle)]
pub extern "C" fn uluvoli_board(card: &[u8], arena: &[u8], code: u16, lanes: &mut [u8]) -> u32
    ensures value { result ≡ refreshed_as (board_made (card_decoded card.now) arena.now code lanes.old) }
    ensures lanes_after { lanes.new ≡ records_after (card_decoded card.now) arena.now code lanes.old }
{
    let own = decoding::decode(card);
    let mut bytes = [0u8; 128];
    let lent = room(lanes.len());
    filled(own, arena, code, &mut bytes[0..lent], lanes)
}
