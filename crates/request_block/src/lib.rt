// One stored block: as the caller's own arena bytes, and set.
#![tactic(auto)]

ghost use Rattle.std.specs.Prelude.{◌≡◌, length};
ghost use Rattle.request_block.specs.Block.{block_located, block_judged, stored_block, arena_set};

use answers::refusal::Refusal;
use byte_parts::sizes::BLOCK_SIZE;
use byte_parts::spans;
use card_build::card::{Card, is_short};
use card_nodes::count;
use request_check::table;

// Finds a service's block of a number, in an arena of `arena_len` bytes: 8, 7, 23, or where it lies.
pub fn find_block(card: Card, arena_len: usize, code: u16, number: u32) -> Result<usize, Refusal>
    ensures { result ≡ block_located card arena_len code number }
{
    if !card.is_sound() {
        return Err(Refusal::NotBuilt);
    }
    if is_short(arena_len, card.used) {
        return Err(Refusal::ShortArena);
    }
    let own = table::row_of(count::records(&card.nodes, card.count), code);
    if own.blocks as u32 <= number {
        return Err(Refusal::NoSuchBlock);
    }
    Ok(BLOCK_SIZE * (own.start as usize + number as usize))
}

// Judges whether a service has a block of a number, in an arena of `arena_len` bytes: 8, 7, 23.
pub fn judge_block(card: Card, arena_len: usize, code: u16, number: u32) -> Result<(), Refusal>
    ensures { result ≡ block_judged card arena_len code number }
{
    find_block(card, arena_len, code, number)?;
    Ok(())
}

// Gives the sixteen bytes of a stored block, which are the arena's own, or none where it is refused.
pub fn stored_block<'a>(card: Card, arena: &'a [u8], code: u16, number: u32) -> &'a [u8]
    ensures { result.now ≡ stored_block card arena.now code number }
{
    match find_block(card, arena.len(), code, number) {
        Err(_) => &arena[0..0],
        Ok(at) => &arena[at..at + BLOCK_SIZE],
    }
}

// Sets a stored block to sixteen bytes, unless it is refused.
pub fn set_block(
    card: Card,
    arena: &mut [u8],
    code: u16,
    number: u32,
    block: [u8; 16],
) -> Result<(), Refusal>
    ensures value { result ≡ block_judged card (length arena.old) code number }
    ensures arena_after { arena.new ≡ arena_set card arena.old code number block }
{
    let at = find_block(card, arena.len(), code, number)?;
    spans::copy(arena, at, &block, 0, 16);
    Ok(())
}
