// Stored blocks of a card in the caller's bytes, one by one.
ghost use Rattle.std.specs.Prelude.{◌≡◌, length};
ghost use Rattle.request_block.specs.Block.{block_judged};
ghost use Rattle.handset_bytes.specs.Card.{card_decoded};
ghost use Rattle.handset_words.specs.Outcome.{answer_as};
ghost use Rattle.handset_words.specs.Block.{unfit_after, set_answer, set_after, block_place_after};

use crate::outcome;
use answers::refusal::Refusal;
use byte_parts::spans;
use handset_bytes::decoding;

// The number that setting a block of another length than sixteen returns: 30, after the refusals in `answer` that the call
// gives for a block of sixteen.
fn unfit(answer: Result<(), Refusal>) -> u32
    ensures { result ≡ answer_as (unfit_after answer) }
{
    match answer {
        Ok(()) => outcome::refused(Refusal::MalformedImage),
        Err(refusal) => outcome::refused(refusal),
    }
}

// The sixteen bytes of `block` as an array.
fn sixteen(block: &[u8]) -> [u8; 16]
    requires { length block.now ≡ 16 }
    ensures { result ≡ block.now }
{
    let mut own = [0u8; 16];
    spans::copy(&mut own, 0, block, 0, 16);
    own
}

// Sets block `number` of the service `code` to the sixteen bytes of `block`. Their length is tested after 8, 7 and 23.
#[unsafe(no_mangle)]
pub extern "C" fn uluvoli_set_block(
    card: &[u8],
    arena: &mut [u8],
    code: u16,
    number: u32,
    block: &[u8],
) -> u32
    ensures value { result ≡ answer_as (set_answer (card_decoded card.now) (length arena.old) code number block.now) }
    ensures arena_after { arena.new ≡ set_after (card_decoded card.now) arena.old code number block.now }
{
    let own = decoding::decode(card);
    if block.len() != 16 {
        return unfit(request_block::judge_block(own, arena.len(), code, number));
    }
    let bytes = sixteen(block);
    outcome::answered(request_block::set_block(own, arena, code, number, bytes))
}

// Tells in `offset` where block `number` of the service `code` lies in the arena.
#[unsafe(no_mangle)]
pub extern "C" fn uluvoli_stored_block(
    card: &[u8],
    arena: &[u8],
    code: u16,
    number: u32,
    offset: &mut usize,
) -> u32
    ensures value { result ≡ answer_as (block_judged (card_decoded card.now) (length arena.now) code number) }
    ensures offset_after { offset.new ≡ block_place_after offset.old (card_decoded card.now) (length arena.now) code number }
{
    let own = decoding::decode(card);
    match request_block::find_block(own, arena.len(), code, number) {
        Err(refusal) => outcome::refused(refusal),
        Ok(at) => {
            *offset = at;
            0
        }
    }
}
