// Stored blocks of a card in the caller's bytes, one by one.
ghost use Rattle.std.specs.Prelude.{◌≡◌, length};
ghost use Rattle.request_block.specs.Block.{block_judged};
ghost use Rattle.handset_bytes.specs.Card.{card_decoded};
ghost use Rattle.handset_words.specs.Outcome.{answer_as};
ghost use Rattle.handset_words.specs.Block.{set_answer, set_after, block_place_after};

// Sets block `number` of the service `code` to the sixteen bytes of `block`. Their length is tested after 8, 7 and 23.
#[unsafe(no_mangle)]
pub extern "C" fn uluvoli_set_block(
    card: &[u8],
    arena: &mut [u8],
    code: u16,
    number: u32,
    block: &[u8],
) -> u32
    ensures value { result ≡ answer_as (set_answer (card_decoded card.now) (length arena.old) code number block.now) }
    ensures arena_after { arena.new ≡ set_after (card_decoded card.now) arena.old code number block.now }
{
    handset::blocks::uluvoli_set_block(card, arena, code, number, block)
}

// Tells in `offset` where block `number` of the service `code` lies in the arena.
#[unsafe(no_mangle)]
pub extern "C" fn uluvoli_stored_block(
    card: &[u8],
    arena: &[u8],
    code: u16,
    number: u32,
    offset: &mut usize,
) -> u32
    ensures value { result ≡ answer_as (block_judged (card_decoded card.now) (length arena.now) code number) }
    ensures offset_after { offset.new ≡ block_place_after offset.old (card_decoded card.now) (length arena.now) code number }
{
    handset::blocks::uluvoli_stored_block(card, arena, code, number, offset)
}
