// The messages that tell what a card in the caller's bytes has.
ghost use Rattle.std.specs.Prelude.{◌≡◌, length};
ghost use Rattle.card_lists.specs.Packet.{code_list_put, code_list_out};
ghost use Rattle.card_lists.specs.Information.{blocks_put, blocks_out};
ghost use Rattle.handset_bytes.specs.Card.{card_decoded};
ghost use Rattle.handset_words.specs.Message.{put_as, put_after};

use crate::outcome;
use answers::refusal::Refusal;
use card_lists::{information, packet};
use handset_bytes::decoding;

// Writes to `out` how many bytes a message has, unless it was refused, and gives what the call returns.
fn sized(answer: Result<usize, Refusal>, out: &mut usize) -> u32
    ensures value { result ≡ put_as answer }
    ensures out_after { out.new ≡ put_after out.old answer }
{
    match answer {
        Err(refusal) => outcome::refused(refusal),
        Ok(many) => {
            *out = many;
            0
        }
    }
}

// Writes a packet of the children of the area `parent` to the front of `out`, as a code list, and to `bytes` how many bytes it has.
#[unsafe(no_mangle)]
pub extern "C" fn uluvoli_code_list(
    card: &[u8],
    parent: u16,
    packet: u32,
    out: &mut [u8],
    bytes: &mut usize,
) -> u32
    ensures value { result ≡ put_as (code_list_put (card_decoded card.now) parent packet (length out.old)) }
    ensures out_after { out.new ≡ code_list_out (card_decoded card.now) parent packet out.old }
    ensures bytes_after { bytes.new ≡ put_after bytes.old (code_list_put (card_decoded card.now) parent packet (length out.old)) }
{
    let own = decoding::decode(card);
    sized(packet::put_code_list(own, parent, packet, out), bytes)
}

// Writes the blocks of the nodes `codes` to the front of `out`, as block information, and to `bytes` how many bytes it has.
#[unsafe(no_mangle)]
pub extern "C" fn uluvoli_block_information(
    card: &[u8],
    arena: &[u8],
    codes: &[u16],
    out: &mut [u8],
    bytes: &mut usize,
) -> u32
    ensures value { result ≡ put_as (blocks_put (card_decoded card.now) (length arena.now) codes.now (length out.old)) }
    ensures out_after { out.new ≡ blocks_out (card_decoded card.now) (length arena.now) codes.now out.old }
    ensures bytes_after { bytes.new ≡ put_after bytes.old (blocks_put (card_decoded card.now) (length arena.now) codes.now (length out.old)) }
{
    let own = decoding::decode(card);
    sized(
        information::put_block_information(own, arena, codes, out),
        bytes,
    )
}
