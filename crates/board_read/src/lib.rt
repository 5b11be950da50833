// A refresh of the lane board: one read of a store's first eight blocks, in a session, and what they make.
#![tactic(auto)]

ghost use Rattle.std.specs.Prelude.{◌≡◌, [], ◌∷◌, length};
ghost use Rattle.request_plan.specs.Request.{read_request};
ghost use Rattle.request_plan.specs.Serve.{serve, output_after};
ghost use Rattle.board_lanes.specs.Board.{board_judged};
ghost use Rattle.board_read.specs.Refresh.{eight_blocks, refreshed_by, refreshed, blocks_after};

use board_lanes::lanes;
use board_lanes::refusal::BoardRefusal;
use card_build::card::Card;
use request_plan::Reply;
use request_serve::reading;

// What a refresh came to: a board, whose blocks were read; blocks that make none, and why; or the card's own answer, with no block read.
#[derive(Clone, Copy)]
pub enum Refreshed {
    Board,
    NoBoard(BoardRefusal),
    Card(Reply),
}

// Tells what eight blocks make.
fn made(bytes: &[u8]) -> Refreshed
    ensures { result ≡ refreshed_by (board_judged bytes.now) }
{
    match lanes::judge(bytes) {
        Ok(()) => Refreshed::Board,
        Err(refusal) => Refreshed::NoBoard(refusal),
    }
}

// Reads the first eight blocks of a service's store to the front of `bytes`.
fn read_blocks(card: Card, arena: &[u8], open: bool, code: u16, bytes: &mut [u8]) -> Reply
    ensures { let x = serve card arena.now (read_request «open» (code ∷ []) 8 eight_blocks (length bytes.old)) in (result ≡ x.reply) × (bytes.new ≡ output_after bytes.old x) }
{
    let codes = [code];
    let list = b"\x80\x00\x80\x01\x80\x02\x80\x03\x80\x04\x80\x05\x80\x06\x80\x07";
    reading::read(card, arena, bytes, open, &codes, 8, list)
}

// Reads them in a session, and tells what they make.
pub fn refresh(card: Card, arena: &[u8], code: u16, bytes: &mut [u8]) -> Refreshed
    ensures value { result ≡ refreshed card arena.now code (length bytes.old) }
    ensures bytes_after { bytes.new ≡ blocks_after card arena.now code bytes.old }
{
    let reply = read_blocks(card, arena, false, code, bytes);
    match reply {
        Reply::Refused(_) => Refreshed::Card(reply),
        Reply::Done => made(&bytes[0..128]),
        Reply::ShortData => Refreshed::Card(reply),
        Reply::Failed { index: _, fault: _ } => Refreshed::Card(reply),
    }
}
