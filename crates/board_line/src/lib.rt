// An `L` line: a refresh of the lane board, carried out and printed.
#![tactic(auto)]

mod text;

ghost use Rattle.std.specs.Prelude.{◌≡◌, ◌&&◌, [], ◌+◌, ◌≤◌, eqb, length, Some};
ghost use Rattle.text_fields.specs.Field.{split};
ghost use Rattle.text_stream.specs.Stream.{Written};
ghost use Rattle.line_answer.specs.Answer.{answer_text};
ghost use Rattle.board_line.specs.Text.{most_board};
ghost use Rattle.board_line.specs.Line.{board_line, board_code, refreshed_text, code_text, board_line_text};

use answers::refusal::Refusal;
use board_read::Refreshed;
use byte_parts::sizes::LONGEST_LINE;
use card_build::card::Card;
use request_plan::Reply;
use text_numbers::codes;

// Tells whether a line is a refresh, well formed or not.
pub fn is_board(line: &[u8]) -> bool
    ensures { result ≡ board_line line.now }
{
    line_request::is_letter(line, 0, b'L')
}

// Tells whether a line is a refresh of two fields.
fn is_refresh(line: &[u8]) -> bool
    ensures { result ≡ board_line line.now && eqb (length (split 9 line.now)) 2 }
{
    if !is_board(line) {
        return false;
    }
    text_fields::field_count(line, b'\t') == 2
}

// Reads the code that a refresh asks: `L` and the code, in a line no longer than the longest size.
fn code_of(line: &[u8]) -> Option<u16>
    ensures { result ≡ board_code line.now }
{
    if LONGEST_LINE < line.len() {
        return None;
    }
    if !is_refresh(line) {
        return None;
    }
    codes::read_hex16(text_fields::field(line, 1, b'\t'))
}

// Puts a reply without data into `out` from `at` on, and answers the place after it.
fn put_reply(reply: Reply, bytes: &[u8], ordinal: u64, out: &mut [u8], at: usize) -> usize
    requires { at + most_board ≤ length out.old }
    ensures written { Written out.old at (answer_text ordinal reply []) result out.new }
    ensures upper_bound { result ≤ at + most_board }
{
    line_answer::put_answer(ordinal, reply, &bytes[0..0], out, at)
}

// Puts what a refresh came to into `out` from `at` on, and answers the place after it: eight lines of the blocks, or one with the ordinal.
fn put_refreshed(
    refreshed: Refreshed,
    bytes: &[u8],
    ordinal: u64,
    out: &mut [u8],
    at: usize,
) -> usize
    requires { at + most_board ≤ length out.old }
    ensures written { Written out.old at (refreshed_text ordinal bytes.now refreshed) result out.new }
    ensures upper_bound { result ≤ at + most_board }
{
    match refreshed {
        Refreshed::Board => text::put_board(bytes, out, at),
        Refreshed::NoBoard(refusal) => {
            line_answer::put_refused(ordinal, refusal.number(), out, at)
        }
        Refreshed::Card(reply) => put_reply(reply, bytes, ordinal, out, at),
    }
}

// Carries out the refresh of a code on blocks of its own, and puts what it came to.
fn put_refresh(
    card: Card,
    arena: &[u8],
    code: u16,
    ordinal: u64,
    out: &mut [u8],
    at: usize,
) -> usize
    requires { at + most_board ≤ length out.old }
    ensures written { Written out.old at (code_text card arena.now ordinal (Some code)) result out.new }
    ensures upper_bound { result ≤ at + most_board }
{
    let mut bytes = [0u8; 128];
    let refreshed = board_read::refresh(card, arena, code, &mut bytes);
    put_refreshed(refreshed, &bytes, ordinal, out, at)
}

// Carries out a refresh line, puts what it prints into `out` from `at` on, and answers the place after it. A malformed one is refused.
pub fn board_line(
    card: Card,
    arena: &[u8],
    line: &[u8],
    ordinal: u64,
    out: &mut [u8],
    at: usize,
) -> usize
    requires { at + most_board ≤ length out.old }
    ensures written { Written out.old at (board_line_text card arena.now line.now ordinal) result out.new }
    ensures upper_bound { result ≤ at + most_board }
{
    match code_of(line) {
        Some(code) => put_refresh(card, arena, code, ordinal, out, at),
        None => {
            let reply = Reply::Refused(Refusal::MalformedRequest);
            put_reply(reply, line, ordinal, out, at)
        }
    }
}
