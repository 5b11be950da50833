// Whole requests to a card in the caller's bytes.
ghost use Rattle.std.specs.Prelude.{◌≡◌, length};
ghost use Rattle.request_plan.specs.Request.{read_request, write_request};
ghost use Rattle.request_plan.specs.Serve.{serve, output_after};
ghost use Rattle.request_serve.specs.Steps.{staging_left};
ghost use Rattle.handset_bytes.specs.Card.{card_decoded};
ghost use Rattle.request_plan.specs.declared.Response.TheVariants.{Pair};
ghost use Rattle.handset_words.specs.Reply.{response_as, reply_as};

use crate::outcome;
use handset_bytes::decoding;
use request_plan::{Reply, Response};
use request_serve::{reading, writing};

// The number that a status pair returns, with the cause of an A5 above it.
fn paired(cause: u8, flag1: u8, flag2: u8) -> u32
    ensures { result ≡ response_as cause (Pair flag1 flag2) }
{
    16777216 * (cause as u32) + 256 * (flag1 as u32) + flag2 as u32
}

// The number that a request returns: its status pair, or its refusal.
pub(crate) fn replied(reply: Reply) -> u32
    ensures { result ≡ reply_as reply }
{
    let cause = reply.cause();
    match reply.response() {
        Response::Pair { flag1, flag2 } => paired(cause, flag1, flag2),
        Response::Refusal(number) => outcome::numbered(number),
    }
}

// Carries out a read on the card that the bytes of `card` encode.
#[unsafe(no_mangle)]
pub extern "C" fn uluvoli_read(
    card: &[u8],
    arena: &[u8],
    out: &mut [u8],
    open: bool,
    codes: &[u16],
    count: u32,
    list: &[u8],
) -> u32
    ensures value { result ≡ reply_as (serve (card_decoded card.now) arena.now (read_request «open» codes.now count list.now (length out.old))).reply }
    ensures out_after { out.new ≡ output_after out.old (serve (card_decoded card.now) arena.now (read_request «open» codes.now count list.now (length out.old))) }
{
    let own = decoding::decode(card);
    replied(reading::read(own, arena, out, open, codes, count, list))
}

// Carries out a write on the card that the bytes of `card` encode: all of it, or nothing.
#[unsafe(no_mangle)]
pub extern "C" fn uluvoli_write(
    card: &[u8],
    arena: &mut [u8],
    staging: &mut [u8],
    open: bool,
    codes: &[u16],
    count: u32,
    list: &[u8],
    data: &[u8],
) -> u32
    ensures value { result ≡ reply_as (serve (card_decoded card.now) arena.old (write_request «open» codes.now count list.now «data».now (length staging.old))).reply }
    ensures arena_after { arena.new ≡ (serve (card_decoded card.now) arena.old (write_request «open» codes.now count list.now «data».now (length staging.old))).arena }
    ensures staging_after { let c = card_decoded card.now in staging.new ≡ staging_left c (serve c arena.old (write_request «open» codes.now count list.now «data».now (length staging.old))).reply staging.old }
{
    let own = decoding::decode(card);
    replied(writing::write(own, arena, staging, open, codes, count, list, data))
}
