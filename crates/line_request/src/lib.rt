// What a request line asks.
#![tactic(auto)]

ghost use Rattle.std.specs.Prelude.{◌≡◌};
ghost use Rattle.line_fields.specs.Fields.{field_in};
ghost use Rattle.line_request.specs.Ask.{is_letter, is_either, request_line, shaped, is_write, ask_of};

use byte_parts::sizes::LONGEST_LINE;
use line_fields::Fields;

// What a line asks: a read or a write, open or in a session, and how many elements it has. Codes, list and data stand in the line.
#[derive(Clone, Copy)]
pub enum Ask {
    Read { open: bool, count: u32 },
    Write { open: bool, count: u32 },
}

// Whether field k of a line is one letter.
#[tactic(auto, unfolding(crate::specs::Ask::is_letter))]
pub fn is_letter(line: &[u8], k: usize, letter: u8) -> bool
    ensures { result ≡ is_letter letter (field_in line.now k) }
{
    let s = text_fields::field(line, k, b'\t');
    s.len() == 1 && s[0] == letter
}

// Whether field k of a line is one of two letters.
#[tactic(auto, unfolding(crate::specs::Ask::is_either))]
fn is_either(line: &[u8], k: usize, one: u8, other: u8) -> bool
    ensures { result ≡ is_either one other (field_in line.now k) }
{
    is_letter(line, k, one) || is_letter(line, k, other)
}

// Whether a line is a request, well formed or not.
#[tactic(auto, unfolding(crate::specs::Ask::request_line))]
pub fn is_request(line: &[u8]) -> bool
    ensures { result ≡ request_line line.now }
{
    is_either(line, 0, b'R', b'W')
}

// Whether a line begins with this letter and has `count` fields, and kind, codes and list are well formed.
#[tactic(auto, unfolding(crate::specs::Ask::shaped))]
fn is_shaped(fields: Fields, letter: u8, count: usize) -> bool
    ensures { result ≡ shaped letter count fields.entry.line.now }
{
    is_letter(fields.line, 0, letter)
        && fields.count() == count
        && is_either(fields.line, 1, b'O', b'S')
        && fields.has_codes(2)
        && fields.has_hex(4)
}

// Whether a line has the fields of a write.
#[tactic(auto, unfolding(crate::specs::Ask::is_write))]
fn is_write(fields: Fields) -> bool
    ensures { result ≡ is_write fields.entry.line.now }
{
    is_shaped(fields, b'W', 6) && fields.has_hex(5)
}

// Reads what a line asks, by where its fields end: one over the longest size is malformed, whatever it says.
#[tactic(auto, unfolding(crate::specs::Ask::ask_of))]
pub fn ask_of(fields: Fields) -> Option<Ask>
    ensures { result ≡ ask_of fields.entry.line.now }
{
    if LONGEST_LINE < fields.line.len() {
        return None;
    }
    let count = fields.number_at(3, u32::MAX)?;
    let open = is_letter(fields.line, 1, b'O');
    if is_shaped(fields, b'R', 5) {
        return Some(Ask::Read { open, count });
    }
    if is_write(fields) {
        return Some(Ask::Write { open, count });
    }
    None
}
