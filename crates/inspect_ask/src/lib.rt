// What a question line asks.
#![tactic(auto)]

ghost use Rattle.std.specs.Prelude.{◌≡◌};
ghost use Rattle.text_fields.specs.Field.{split};
ghost use Rattle.inspect_ask.specs.Question.{list_line, block_question, single_of, code_line, codes_line, bytes_line, room_line, arena_line, lent_asked, stored_asked, lists_asked, card_asked, bytes_asked, message_asked, question_of};

use byte_parts::sizes::LONGEST_LINE;
use line_fields::Fields;

// What is asked of a card. Codes and bytes of a question stand in the line's field 1.
#[derive(Clone, Copy)]
pub enum Asked {
    List { parent: u16, packet: u32 },
    Info,
    ReadList,
    ReadInfo,
    Total(u16),
    Version(u16),
    Directory,
    Areas,
    Services,
    Block { code: u16, number: u32 },
    Used,
    Attribute(u16),
}

// What is asked of one code.
#[derive(Clone, Copy)]
pub enum Single {
    Total,
    Version,
    Attribute,
}

// What a line asks: something of the card, or that other lengths be lent from here on.
#[derive(Clone, Copy)]
pub enum Question {
    Of(Asked),
    Room(u32),
    Arena(u32),
}

// Reads a line `list`: parent, packet.
#[tactic(auto, unfolding(crate::specs::Question::list_line))]
fn list_line(fields: Fields) -> Option<Question>
    ensures { result ≡ list_line (split 9 fields.entry.line.now) }
{
    let parent = fields.code_at(1)?;
    let packet = fields.number_at(2, u32::MAX)?;
    Some(Question::Of(Asked::List { parent, packet }))
}

// Reads a line `block`: code, number.
#[tactic(auto, unfolding(crate::specs::Question::block_question))]
fn block_line(fields: Fields) -> Option<Question>
    ensures { result ≡ block_question (split 9 fields.entry.line.now) }
{
    let code = fields.code_at(1)?;
    let number = fields.number_at(2, u32::MAX)?;
    Some(Question::Of(Asked::Block { code, number }))
}

// What is asked of this code.
#[tactic(auto, unfolding(crate::specs::Question::single_of))]
fn asked_of(single: Single, code: u16) -> Asked
    ensures { result ≡ single_of single code }
{
    match single {
        Single::Total => Asked::Total(code),
        Single::Version => Asked::Version(code),
        Single::Attribute => Asked::Attribute(code),
    }
}

// Reads a line that asks of one code.
#[tactic(auto, unfolding(crate::specs::Question::code_line))]
fn code_line(fields: Fields, single: Single) -> Option<Question>
    ensures { result ≡ code_line single (split 9 fields.entry.line.now) }
{
    let code = fields.code_at(1)?;
    Some(Question::Of(asked_of(single, code)))
}

// Reads a line that asks of codes.
#[tactic(auto, unfolding(crate::specs::Question::codes_line))]
fn codes_line(fields: Fields, asked: Asked) -> Option<Question>
    ensures { result ≡ codes_line asked (split 9 fields.entry.line.now) }
{
    fields.has_codes(1).then_some(Question::Of(asked))
}

// Reads a line that asks of a message's bytes.
#[tactic(auto, unfolding(crate::specs::Question::bytes_line))]
fn bytes_line(fields: Fields, asked: Asked) -> Option<Question>
    ensures { result ≡ bytes_line asked (split 9 fields.entry.line.now) }
{
    fields.has_hex(1).then_some(Question::Of(asked))
}

// Reads a line `room`: the bytes of the output.
#[tactic(auto, unfolding(crate::specs::Question::room_line))]
fn room_line(fields: Fields) -> Option<Question>
    ensures { result ≡ room_line (split 9 fields.entry.line.now) }
{
    let room = fields.number_at(1, 4096)?;
    Some(Question::Room(room))
}

// Reads a line `arena`: the bytes of the arena.
#[tactic(auto, unfolding(crate::specs::Question::arena_line))]
fn arena_line(fields: Fields) -> Option<Question>
    ensures { result ≡ arena_line (split 9 fields.entry.line.now) }
{
    let arena = fields.number_at(1, 65536)?;
    Some(Question::Arena(arena))
}

// Reads a line by what it has lent from here on.
#[tactic(auto, unfolding(crate::specs::Question::lent_asked))]
fn lent_asked(fields: Fields) -> Option<Question>
    ensures { result ≡ lent_asked (split 9 fields.entry.line.now) }
{
    if fields.is_form(b"room", 2) {
        return room_line(fields);
    }
    if fields.is_form(b"arena", 2) {
        return arena_line(fields);
    }
    None
}

// Reads a line by what it asks of blocks, or of a code alone.
#[tactic(auto, unfolding(crate::specs::Question::stored_asked))]
fn stored_asked(fields: Fields) -> Option<Question>
    ensures { result ≡ stored_asked (split 9 fields.entry.line.now) }
{
    if fields.is_form(b"block", 3) {
        return block_line(fields);
    }
    if fields.is_form(b"used", 1) {
        return Some(Question::Of(Asked::Used));
    }
    if fields.is_form(b"attr", 2) {
        return code_line(fields, Single::Attribute);
    }
    lent_asked(fields)
}

// Reads a line by what it asks of a list of areas or services. (One function a definition: this and `bytes_asked` differ in each name, and
// a function of four names and two questions would be no plainer.)
#[tactic(auto, unfolding(crate::specs::Question::lists_asked))]
fn lists_asked(fields: Fields) -> Option<Question>
    ensures { result ≡ lists_asked (split 9 fields.entry.line.now) }
{
    if fields.is_form(b"areas", 2) {
        return codes_line(fields, Asked::Areas);
    }
    if fields.is_form(b"svcs", 2) {
        return codes_line(fields, Asked::Services);
    }
    stored_asked(fields)
}

// Reads a line by what it asks of the card.
#[tactic(auto, unfolding(crate::specs::Question::card_asked))]
fn card_asked(fields: Fields) -> Option<Question>
    ensures { result ≡ card_asked (split 9 fields.entry.line.now) }
{
    if fields.is_form(b"total", 2) {
        return code_line(fields, Single::Total);
    }
    if fields.is_form(b"ver", 2) {
        return code_line(fields, Single::Version);
    }
    if fields.is_form(b"dir", 1) {
        return Some(Question::Of(Asked::Directory));
    }
    lists_asked(fields)
}

// Reads a line by what it asks of a message's bytes.
#[tactic(auto, unfolding(crate::specs::Question::bytes_asked))]
fn bytes_asked(fields: Fields) -> Option<Question>
    ensures { result ≡ bytes_asked (split 9 fields.entry.line.now) }
{
    if fields.is_form(b"readlist", 2) {
        return bytes_line(fields, Asked::ReadList);
    }
    if fields.is_form(b"readinfo", 2) {
        return bytes_line(fields, Asked::ReadInfo);
    }
    card_asked(fields)
}

// Reads a line by what it asks of a message.
#[tactic(auto, unfolding(crate::specs::Question::message_asked))]
fn message_asked(fields: Fields) -> Option<Question>
    ensures { result ≡ message_asked (split 9 fields.entry.line.now) }
{
    if fields.is_form(b"list", 3) {
        return list_line(fields);
    }
    if fields.is_form(b"info", 2) {
        return codes_line(fields, Asked::Info);
    }
    bytes_asked(fields)
}

// Reads what a line asks: one over the longest size asks nothing that is known, whatever it says.
#[tactic(auto, unfolding(crate::specs::Question::question_of))]
pub fn question_of(line: &[u8]) -> Option<Question>
    ensures { result ≡ question_of line.now }
{
    if LONGEST_LINE < line.len() {
        return None;
    }
    message_asked(Fields::new(line))
}
