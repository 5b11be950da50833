// Whole requests to a card in the caller's bytes.
ghost use Rattle.std.specs.Prelude.{◌≡◌, length};
ghost use Rattle.request_plan.specs.Request.{read_request, write_request};
ghost use Rattle.request_plan.specs.Serve.{serve, output_after};
ghost use Rattle.request_serve.specs.Steps.{staging_left};
ghost use Rattle.handset_bytes.specs.Card.{card_decoded};
ghost use Rattle.handset_words.specs.Reply.{reply_as};

// Carries out a read on the card that the bytes of `card` encode.
#[unsafe(no_mangle)]
pub extern "C" fn uluvoli_read(
    card: &[u8],
    arena: &[u8],
    out: &mut [u8],
    open: bool,
    codes: &[u16],
    count: u32,
    list: &[u8],
) -> u32
    ensures value { result ≡ reply_as (serve (card_decoded card.now) arena.now (read_request «open» codes.now count list.now (length out.old))).reply }
    ensures out_after { out.new ≡ output_after out.old (serve (card_decoded card.now) arena.now (read_request «open» codes.now count list.now (length out.old))) }
{
    handset::requests::uluvoli_read(card, arena, out, open, codes, count, list)
}

// Carries out a write on the card that the bytes of `card` encode: all of it, or nothing.
#[unsafe(no_mangle)]
pub extern "C" fn uluvoli_write(
    card: &[u8],
    arena: &mut [u8],
    staging: &mut [u8],
    open: bool,
    codes: &[u16],
    count: u32,
    list: &[u8],
    data: &[u8],
) -> u32
    ensures value { result ≡ reply_as (serve (card_decoded card.now) arena.old (write_request «open» codes.now count list.now «data».now (length staging.old))).reply }
    ensures arena_after { arena.new ≡ (serve (card_decoded card.now) arena.old (write_request «open» codes.now count list.now «data».now (length staging.old))).arena }
    ensures staging_after { let c = card_decoded card.now in staging.new ≡ staging_left c (serve c arena.old (write_request «open» codes.now count list.now «data».now (length staging.old))).reply staging.old }
{
    handset::requests::uluvoli_write(card, arena, staging, open, codes, count, list, data)
}
