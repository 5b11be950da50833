// An image line, carried out on a card and an arena.
#![tactic(auto)]

ghost use Rattle.std.specs.Prelude.{◌≡◌, true, length};
ghost use Rattle.text_numbers.specs.Hex.{unhex};
ghost use Rattle.request_block.specs.Block.{block_judged, arena_set};
ghost use Rattle.line_image.specs.Line.{hex32};
ghost use Rattle.line_build.specs.Image.{image_step, answered};

use answers::refusal::Refusal;
use card_build::card::{Added, Card};
use line_image::line::{Line, read_line};
use request_block::set_block;
use text_numbers::hex::put_bytes;

// Hands back a card, as it is, with an answer.
fn keep(card: Card, answer: Result<(), Refusal>) -> Added
    ensures { result ≡ answered card answer }
{
    Added { card, answer }
}

// Sets a block to what 32 hex digits spell.
fn set_hex(
    card: Card,
    arena: &mut [u8],
    code: u16,
    number: u32,
    digits: &[u8],
) -> Result<(), Refusal>
    requires { hex32 digits.now ≡ true }
    ensures value { result ≡ block_judged card (length arena.old) code number }
    ensures arena_after { arena.new ≡ arena_set card arena.old code number (unhex digits.now) }
{
    let mut block = [0u8; 16];
    put_bytes(digits, &mut block[0..16], 0);
    set_block(card, arena, code, number, block)
}

// Carries out an image line, the first of the image or a later one, and hands the card back with the answer.
pub fn image_line(card: Card, first: bool, arena: &mut [u8], line: &[u8]) -> Added
    ensures value { result ≡ (image_step first card arena.old line.now).added }
    ensures arena_after { arena.new ≡ (image_step first card arena.old line.now).arena }
{
    let Some(says) = read_line(line, first) else {
        return keep(card, Err(Refusal::MalformedImage));
    };
    match says {
        Line::Card(system) => keep(Card::new(system), Ok(())),
        Line::Area {
            depth,
            code,
            end,
            version,
        } => card.add_area(depth, code, end, version),
        Line::Service {
            depth,
            code,
            blocks,
            version,
        } => card.add_service(arena, depth, code, blocks, version),
        Line::Limit {
            upper,
            lower,
            generation,
        } => card.set_limit(upper, lower, generation),
        Line::Block { code, number } => {
            let answer = set_hex(
                card,
                arena,
                code,
                number,
                text_fields::field(line, 3, b'\t'),
            );
            keep(card, answer)
        }
    }
}
