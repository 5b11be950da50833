// What an image line says.
#![tactic(auto)]

ghost use Rattle.std.specs.Prelude.{◌≡◌, [], get_or};
ghost use Rattle.byte_parts.specs.Part.{same_bytes};
ghost use Rattle.text_fields.specs.Field.{split};
ghost use Rattle.line_image.specs.Line.{hex32, join_word, joins, image_named, card_line, heading_of, area_line, service_line, limit_line, block_line, first_line, later_line, image_line};

use byte_parts::sizes::LONGEST_LINE;
use byte_parts::spans;
use card_build::card::System;
use line_fields::Fields;
use text_numbers::hex::is_hex_field;

// What an image line says. A block's bytes stay in the line's last field.
#[derive(Clone, Copy)]
pub enum Line {
    Card(System),
    Area {
        depth: u32,
        code: u16,
        end: u16,
        version: u16,
    },
    Service {
        depth: u32,
        code: u16,
        blocks: u32,
        version: u16,
    },
    Limit {
        upper: i32,
        lower: i32,
        generation: u8,
    },
    Block {
        code: u16,
        number: u32,
    },
}

// Reads a line `card`: the system's code, its version; whether it joins is known.
#[tactic(auto, unfolding(crate::specs::Line::card_line))]
fn card_line(fields: Fields, join: bool) -> Option<Line>
    ensures { result ≡ card_line join (split 9 fields.entry.line.now) }
{
    let code = fields.code_at(1)?;
    let version = fields.code_at(2)?;
    Some(Line::Card(System {
        code,
        version,
        join,
    }))
}

// What `area` and `svc` have in common: depth, code and version, in fields 1, 2 and 4.
#[derive(Clone, Copy)]
struct Heading {
    depth: u32,
    code: u16,
    version: u16,
}

// Reads what `area` and `svc` have in common.
#[tactic(auto, unfolding(crate::specs::Line::heading_of))]
fn heading_of(fields: Fields) -> Option<Heading>
    ensures { result ≡ heading_of (split 9 fields.entry.line.now) }
{
    let depth = fields.number_at(1, u32::MAX)?;
    let code = fields.code_at(2)?;
    let version = fields.code_at(4)?;
    Some(Heading {
        depth,
        code,
        version,
    })
}

// Reads a line `area`: depth, code, end, version.
#[tactic(auto, unfolding(crate::specs::Line::area_line))]
fn area_line(fields: Fields) -> Option<Line>
    ensures { result ≡ area_line (split 9 fields.entry.line.now) }
{
    let Heading {
        depth,
        code,
        version,
    } = heading_of(fields)?;
    let end = fields.code_at(3)?;
    Some(Line::Area {
        depth,
        code,
        end,
        version,
    })
}

// Reads a line `svc`: depth, code, blocks, version.
#[tactic(auto, unfolding(crate::specs::Line::service_line))]
fn service_line(fields: Fields) -> Option<Line>
    ensures { result ≡ service_line (split 9 fields.entry.line.now) }
{
    let Heading {
        depth,
        code,
        version,
    } = heading_of(fields)?;
    let blocks = fields.number_at(3, u32::MAX)?;
    Some(Line::Service {
        depth,
        code,
        blocks,
        version,
    })
}

// Reads a line `lim`: upper, lower, generation.
#[tactic(auto, unfolding(crate::specs::Line::limit_line))]
fn limit_line(fields: Fields) -> Option<Line>
    ensures { result ≡ limit_line (split 9 fields.entry.line.now) }
{
    let upper = fields.bound_at(1)?;
    let lower = fields.bound_at(2)?;
    let generation = fields.number_at(3, 255)?;
    Some(Line::Limit {
        upper,
        lower,
        generation: generation as u8,
    })
}

// Whether s is 32 hex digits.
#[tactic(auto, unfolding(crate::specs::Line::hex32))]
fn is_hex32(s: &[u8]) -> bool
    ensures { result ≡ hex32 s.now }
{
    s.len() == 32 && is_hex_field(s)
}

// Reads a line `blk`: code, number, 32 hex digits.
#[tactic(auto, unfolding(crate::specs::Line::block_line))]
fn block_line(fields: Fields) -> Option<Line>
    ensures { result ≡ block_line (split 9 fields.entry.line.now) }
{
    let code = fields.code_at(1)?;
    let number = fields.number_at(2, u32::MAX)?;
    is_hex32(fields.field(3)).then_some(Line::Block { code, number })
}

// Whether the line's first field names a kind of image line, well formed or not.
#[tactic(auto, unfolding(crate::specs::Line::image_named, line_fields::specs::Fields::named))]
pub fn is_image(line: &[u8]) -> bool
    ensures { result ≡ image_named (split 9 line.now) }
{
    let name = text_fields::field(line, 0, b'\t');
    spans::same(name, b"card")
        || spans::same(name, b"area")
        || spans::same(name, b"svc")
        || spans::same(name, b"lim")
        || spans::same(name, b"blk")
}

// Whether the line's fourth field is `join`.
fn says_join(fields: Fields) -> bool
    ensures { result ≡ same_bytes (get_or (split 9 fields.entry.line.now) 3 []) join_word }
{
    fields.is_word(3, b"join")
}

// Whether the line is `card` and ends with `join`, its fourth field.
#[tactic(auto, unfolding(crate::specs::Line::joins))]
fn is_join(fields: Fields) -> bool
    ensures { result ≡ joins (split 9 fields.entry.line.now) }
{
    fields.is_form(b"card", 4) && says_join(fields)
}

// Reads line 1, which must be `card`.
#[tactic(auto, unfolding(crate::specs::Line::first_line))]
fn first_line(fields: Fields) -> Option<Line>
    ensures { result ≡ first_line (split 9 fields.entry.line.now) }
{
    if fields.is_form(b"card", 3) {
        return card_line(fields, false);
    }
    if is_join(fields) {
        return card_line(fields, true);
    }
    None
}

// Reads any other line, which must not be `card`.
#[tactic(auto, unfolding(crate::specs::Line::later_line))]
fn later_line(fields: Fields) -> Option<Line>
    ensures { result ≡ later_line (split 9 fields.entry.line.now) }
{
    if fields.is_form(b"area", 5) {
        return area_line(fields);
    }
    if fields.is_form(b"svc", 5) {
        return service_line(fields);
    }
    if fields.is_form(b"lim", 4) {
        return limit_line(fields);
    }
    if fields.is_form(b"blk", 4) {
        return block_line(fields);
    }
    None
}

// Reads an image line, the first or a later one: one over the longest size is malformed, whatever it says.
#[tactic(auto, unfolding(crate::specs::Line::image_line))]
pub fn read_line(line: &[u8], first: bool) -> Option<Line>
    ensures { result ≡ image_line first line.now }
{
    if LONGEST_LINE < line.len() {
        return None;
    }
    let fields = Fields::new(line);
    if first {
        return first_line(fields);
    }
    later_line(fields)
}
