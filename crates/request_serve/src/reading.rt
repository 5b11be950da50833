// Reading: all elements are checked, then their blocks copied (`validate_read_block` of the Rust).
ghost use Rattle.std.specs.Prelude.{◌≡◌, ◌+◌, ◌*◌, ◌≤◌, length};
ghost use Rattle.byte_parts.specs.Sizes.{block_size};
ghost use Rattle.block_list.specs.Element.{elements_from};
ghost use Rattle.request_runs.specs.Ready.{AllReady};
ghost use Rattle.request_plan.specs.Request.{read_request};
ghost use Rattle.request_plan.specs.Serve.{blocks_read, serve, output_after};
ghost use Rattle.request_serve.specs.Steps.{rows_held, front_filled};

use crate::settle;
use answers::status::Failure;
use block_list::element;
use block_list::element::{BlockListElement, Unpacked};
use byte_parts::sizes::BLOCK_SIZE;
use card_build::card::Card;
use request_check::table::{Row, Table};
use request_plan::{Judged, Reply, Sizes};

// Gives where the block that an element names in its row's store stands in the arena.
fn block_at(row: Row, e: BlockListElement) -> usize
    ensures { result ≡ block_size * row.start + block_size * e.number }
{
    BLOCK_SIZE * (row.start as usize) + BLOCK_SIZE * (e.number as usize)
}

// Copies the blocks that the elements name to the front of the output.
fn copy_blocks(out: &mut [u8], arena: &[u8], table: Table, list: &[u8], count: usize)
    requires { (block_size * count ≤ length out.old) × AllReady (rows_held table) (length arena.now) (elements_from list.now count 0) }
    ensures { out.new ≡ front_filled out.old (blocks_read (rows_held table) arena.now (elements_from list.now count 0)) }
{
    let mut at = 0;
    for i in 0..count {
        let Some(Unpacked { element: e, next }) = element::unpack(list, at) else {
            break;
        };
        let own = table.rows[e.index as usize];
        let from = block_at(own, e);
        byte_block::copy_block(out, BLOCK_SIZE * i, arena, from);
        at = next;
    }
}

// Reads the blocks that the counted elements of `list` name, by the service `codes` that their indices choose, in an `open` request or one
// in a session, to the front of `out`. All elements are checked first: the output is written only where the reply is `Done`.
pub fn read(
    card: Card,
    arena: &[u8],
    out: &mut [u8],
    open: bool,
    codes: &[u16],
    count: u32,
    list: &[u8],
) -> Reply
    ensures { let x = serve card arena.now (read_request «open» codes.now count list.now (length out.old)) in (result ≡ x.reply) × (out.new ≡ output_after out.old x) }
{
    let sound = card.is_sound();
    let sizes = Sizes {
        used: card.used,
        count: count as usize,
        codes: codes.len(),
        arena: arena.len(),
        data: 0,
        room: out.len(),
    };
    let settled = settle::settle(sound, card, false, open, codes, list, sizes);
    match settled.judged {
        Judged::Refused(refusal) => Reply::Refused(refusal),
        Judged::ShortData => Reply::ShortData,
        Judged::Fit => {
            let checked = settled.checked; // a pattern with fields, at a field, is not proved
            match checked {
                Err(Failure { index, fault }) => Reply::Failed { index, fault },
                Ok(()) => {
                    copy_blocks(out, arena, settled.table, list, count as usize);
                    Reply::Done
                }
            }
        }
    }
}
