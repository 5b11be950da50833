// Building a card in the caller's bytes.
ghost use Rattle.std.specs.Prelude.{◌≡◌, cond, eqb, length};
ghost use Rattle.answers.specs.declared.refusal.Refusal.TheVariants.{NotBuilt};
ghost use Rattle.card_build.specs.Card.{system_of, new_card};
ghost use Rattle.card_build.specs.Build.{area_added, service_added, arena_added, limit_added};
ghost use Rattle.handset_bytes.specs.Layout.{card_size};
ghost use Rattle.handset_bytes.specs.Card.{card_put, card_decoded};
ghost use Rattle.handset_words.specs.Outcome.{refused_as, answer_as};
ghost use Rattle.handset_words.specs.Kept.{card_after};

use crate::outcome;
use answers::refusal::Refusal;
use card_build::card::{Added, Card, System};
use handset_bytes::{decoding, encoding, layout};

// A card of a new system, with nothing but its root.
fn begun(system: u16, version: u16, join: bool) -> Card
    ensures { result ≡ new_card (system_of system version join) }
{
    Card::new(System {
        code: system,
        version,
        join,
    })
}

// Writes a card with nothing but its root to `card`, whose services may join a store of another count if it joins. Bytes of another length than a card's are refusal 8.
#[unsafe(no_mangle)]
pub extern "C" fn uluvoli_new(card: &mut [u8], system: u16, version: u16, join: bool) -> u32
    ensures value { result ≡ cond (eqb (length card.old) card_size) 0 (refused_as NotBuilt) }
    ensures card_after { card.new ≡ card_put (new_card (system_of system version join)) card.old }
{
    if card.len() != layout::SIZE {
        return outcome::refused(Refusal::NotBuilt);
    }
    encoding::encode(begun(system, version, join), card);
    0
}

// Writes the card of an accepted addition to `card`, which a refused one leaves, and gives what the call returns.
fn kept(added: Added, card: &mut [u8]) -> u32
    ensures value { result ≡ answer_as added.answer }
    ensures card_after { card.new ≡ card_after card.old added }
{
    let answer = added.answer;
    match answer {
        Err(refusal) => outcome::refused(refusal),
        Ok(()) => {
            encoding::encode(added.card, card);
            0
        }
    }
}

// Adds an area from `code` to `end` at `depth` to the card that the bytes of `card` encode.
#[unsafe(no_mangle)]
pub extern "C" fn uluvoli_add_area(
    card: &mut [u8],
    depth: u32,
    code: u16,
    end: u16,
    version: u16,
) -> u32
    ensures value { result ≡ answer_as (area_added (card_decoded card.old) depth code end version).answer }
    ensures card_after { card.new ≡ card_after card.old (area_added (card_decoded card.old) depth code end version) }
{
    let own = decoding::decode(card);
    kept(own.add_area(depth, code, end, version), card)
}

// Adds a service at `depth`. The first of its number makes a store of `blocks` zeroed blocks in the arena.
#[unsafe(no_mangle)]
pub extern "C" fn uluvoli_add_service(
    card: &mut [u8],
    arena: &mut [u8],
    depth: u32,
    code: u16,
    blocks: u32,
    version: u16,
) -> u32
    ensures value { result ≡ answer_as (service_added (card_decoded card.old) (length arena.old) depth code blocks version).answer }
    ensures card_after { card.new ≡ card_after card.old (service_added (card_decoded card.old) (length arena.old) depth code blocks version) }
    ensures arena_after { arena.new ≡ arena_added (card_decoded card.old) (service_added (card_decoded card.old) (length arena.old) depth code blocks version) arena.old }
{
    let own = decoding::decode(card);
    kept(own.add_service(arena, depth, code, blocks, version), card)
}

// Sets the limits of the node added last, which must be a service.
#[unsafe(no_mangle)]
pub extern "C" fn uluvoli_set_limit(card: &mut [u8], upper: i32, lower: i32, generation: u8) -> u32
    ensures value { result ≡ answer_as (limit_added (card_decoded card.old) upper lower generation).answer }
    ensures card_after { card.new ≡ card_after card.old (limit_added (card_decoded card.old) upper lower generation) }
{
    let own = decoding::decode(card);
    kept(own.set_limit(upper, lower, generation), card)
}
