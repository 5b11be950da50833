// What a question prints: its name and the fields of its answer, or that it is unknown.
#![tactic(auto)]

mod card;
mod message;

ghost use Rattle.std.specs.Prelude.{◌≡◌, Some, ◌+◌, ◌≤◌, length};
ghost use Rattle.byte_parts.specs.Sizes.{most_printed};
ghost use Rattle.text_stream.specs.Stream.{Written};
ghost use Rattle.text_print.specs.Print.{closed};
ghost use Rattle.inspect_ask.specs.declared.Question.TheVariants.{Of};
ghost use Rattle.inspect_ask.specs.Question.{most_room, question_of};
ghost use Rattle.inspect_fields.specs.Fields.{most_fields};
ghost use Rattle.inspect_answer.specs.Answer.{field_zero, fields_of, told_text, unknown_text};

use byte_parts::spans::least;
use card_build::card::Card;
use inspect_ask::Asked;
use inspect_fields::{attribute, read};
use text_print::{put_mark, put_number, put_word};

// Puts the name of a question, the first field of its line, and a tab into `out` from `at` on, and answers the place after them.
fn put_name(line: &[u8], out: &mut [u8], at: usize) -> usize
    requires { (length (field_zero line.now) ≤ 8) × (at + 9 ≤ length out.old) }
    ensures written { Written out.old at (closed 9 (field_zero line.now)) result out.new }
    ensures upper_bound { result ≤ at + 9 }
{
    put_word(text_fields::field(line, 0, b'\t'), b'\t', out, at)
}

// Puts the fields that answer a question into `out` from `at` on, and answers the place after them.
fn put_fields(
    asked: Asked,
    card: Card,
    arena: &[u8],
    room: usize,
    line: &[u8],
    out: &mut [u8],
    at: usize,
) -> usize
    requires { (question_of line.now ≡ Some (Of asked)) × (room ≤ most_room) × (at + most_fields ≤ length out.old) }
    ensures written { Written out.old at (fields_of card arena.now room line.now asked) result out.new }
    ensures upper_bound { result ≤ at + most_fields }
{
    match asked {
        Asked::List { parent, packet } => message::put_list(card, parent, packet, room, out, at),
        Asked::Info => message::put_info(card, arena, room, line, out, at),
        Asked::ReadList => read::put_read(true, line, out, at),
        Asked::ReadInfo => read::put_read(false, line, out, at),
        Asked::Total(code) => card::put_told(card, false, code, out, at),
        Asked::Version(code) => card::put_told(card, true, code, out, at),
        Asked::Directory => card::put_directory(card, room, out, at),
        Asked::Areas => card::put_well_formed(card, true, line, out, at),
        Asked::Services => card::put_well_formed(card, false, line, out, at),
        Asked::Block { code, number } => card::put_block(card, arena, code, number, out, at),
        Asked::Used => card::put_used(card, out, at),
        Asked::Attribute(code) => attribute::put_attribute(code, out, at),
    }
}

// Puts the line that answers a question into `out` from `at` on, and answers the place after it. It is lent the first `lent` bytes of the
// arena, and the first `room` of an output of 4,096.
pub fn put_answer(
    asked: Asked,
    card: Card,
    arena: &[u8],
    lent: usize,
    room: usize,
    line: &[u8],
    out: &mut [u8],
    at: usize,
) -> usize
    requires { (question_of line.now ≡ Some (Of asked)) × (at + most_printed ≤ length out.old) }
    ensures { Written out.old at (told_text card arena.now lent room line.now asked) result out.new × (result ≤ at + most_printed) }
{
    let next = put_name(line, out, at);
    let n = least(lent, arena.len());
    let most = least(room, 4096);
    put_fields(asked, card, &arena[0..n], most, line, out, next)
}

// Puts the line of an unknown question, `?` and its line number, into `out` from `at` on, and answers the place after it.
pub fn put_unknown(number: u64, out: &mut [u8], at: usize) -> usize
    requires { at + 23 ≤ length out.old }
    ensures { Written out.old at (unknown_text number) result out.new × (result ≤ at + 23) }
{
    let next = put_mark(b'?', b'\t', out, at);
    put_number(number, b'\n', out, next)
}
