// Writing: all elements are checked, then the runs work on the stores that the codes name, staged, which are committed
// only if every run passes.
ghost use Rattle.std.specs.Prelude.{◌≡◌, true, ◌*◌, ◌≤◌, length, take};
ghost use Rattle.byte_parts.specs.Sizes.{block_size};
ghost use Rattle.block_list.specs.Element.{elements_from};
ghost use Rattle.request_runs.specs.Staged.{staged};
ghost use Rattle.request_runs.specs.Ready.{AllReady};
ghost use Rattle.request_plan.specs.declared.Judged.TheVariants.{Fit};
ghost use Rattle.request_plan.specs.Request.{write_request};
ghost use Rattle.request_plan.specs.Plan.{judged_of};
ghost use Rattle.request_plan.specs.Serve.{serve, committed};
ghost use Rattle.request_serve.specs.Stores.{AllIn, stores_put};
ghost use Rattle.request_serve.specs.Steps.{rows_held, staging_left, SameFrom, WriteLeaves, Looked};

use crate::settle;
use crate::settle::Settled;
use answers::status::Failure;
use byte_parts::sizes::BLOCK_SIZE;
use byte_parts::spans;
use card_build::card::Card;
use request_check::table::Table;
use request_plan::{Judged, Reply, Sizes};
use request_runs::run;

// Copies the stores of the table's rows to where they stand in the other slice.
fn copy_stores(to: &mut [u8], from: &[u8], table: Table)
    requires { (table.count ≤ 16) × AllIn (rows_held table) (length to.old) × AllIn (rows_held table) (length from.now) }
    ensures { to.new ≡ stores_put to.old from.now (rows_held table) }
{
    for i in 0..table.count {
        let row = table.rows[i];
        let at = BLOCK_SIZE * (row.start as usize);
        spans::copy(to, at, from, at, BLOCK_SIZE * (row.blocks as usize));
    }
}

// Stages the stores of the table's rows, walks the runs on them, and puts them back into the arena if every run passed. `size` bytes of
// arena and staging hold the blocks in use.
fn carry_out(
    arena: &mut [u8],
    staging: &mut [u8],
    size: usize,
    table: Table,
    list: &[u8],
    count: usize,
    data: &[u8],
) -> Reply
    requires { (size ≤ length arena.old) × (size ≤ length staging.old) × (block_size * count ≤ length «data».now) × AllReady (rows_held table) size (elements_from list.now count 0) × (table.count ≤ 16) × AllIn (rows_held table) size }
    ensures { WriteLeaves (committed size arena.old (staged (rows_held table) «data».now (elements_from list.now count 0) (take size arena.old))) result arena.new (SameFrom size staging.new staging.old) }
{
    copy_stores(staging, arena, table);
    match run::apply(&mut staging[0..size], table, list, count, data) {
        Err(Failure { index, fault }) => Reply::Failed { index, fault },
        Ok(()) => {
            copy_stores(arena, staging, table);
            Reply::Done
        }
    }
}

// Carries out a write that fits, if its elements passed their checks.
fn checked_write(
    card: Card,
    settled: Settled,
    arena: &mut [u8],
    staging: &mut [u8],
    open: bool,
    codes: &[u16],
    list: &[u8],
    count: usize,
    data: &[u8],
) -> Reply
    requires { (judged_of card (length arena.old) (write_request «open» codes.now count list.now «data».now (length staging.old)) ≡ Fit) × Looked card true «open» codes.now list.now count settled }
    ensures { WriteLeaves (serve card arena.old (write_request «open» codes.now count list.now «data».now (length staging.old))) result arena.new (SameFrom (block_size * card.used) staging.new staging.old) }
{
    let checked = settled.checked; // a pattern with fields, at a field, is not proved
    match checked {
        Err(Failure { index, fault }) => Reply::Failed { index, fault },
        Ok(()) => carry_out(
            arena,
            staging,
            BLOCK_SIZE * card.used,
            settled.table,
            list,
            count,
            data,
        ),
    }
}

// Carries out a write that fits, if its elements passed their checks, then zeroes the staging for all blocks in use, so that no other card's bytes stay in it.
fn wiped_write(
    card: Card,
    settled: Settled,
    arena: &mut [u8],
    staging: &mut [u8],
    open: bool,
    codes: &[u16],
    list: &[u8],
    count: usize,
    data: &[u8],
) -> Reply
    requires { (judged_of card (length arena.old) (write_request «open» codes.now count list.now «data».now (length staging.old)) ≡ Fit) × Looked card true «open» codes.now list.now count settled }
    ensures wiped { WriteLeaves (serve card arena.old (write_request «open» codes.now count list.now «data».now (length staging.old))) result arena.new (staging.new ≡ staging_left card result staging.old) }
{
    let reply = checked_write(
        card, settled, arena, staging, open, codes, list, count, data,
    );
    spans::zero(staging, 0, BLOCK_SIZE * card.used); // wherever a store was staged
    reply
}

// Writes `data`, sixteen bytes for each counted element of `list`, to the blocks that the elements name by the service `codes` that their
// indices choose. The arena changes only where the reply is `Done`; after a refusal the staging is as it was, else zero for all blocks
// in use.
pub fn write(
    card: Card,
    arena: &mut [u8],
    staging: &mut [u8],
    open: bool,
    codes: &[u16],
    count: u32,
    list: &[u8],
    data: &[u8],
) -> Reply
    ensures { WriteLeaves (serve card arena.old (write_request «open» codes.now count list.now «data».now (length staging.old))) result arena.new (staging.new ≡ staging_left card result staging.old) }
{
    let sound = card.is_sound();
    let sizes = Sizes {
        used: card.used,
        count: count as usize,
        codes: codes.len(),
        arena: arena.len(),
        data: data.len(),
        room: staging.len(),
    };
    let settled = settle::settle(sound, card, true, open, codes, list, sizes);
    match settled.judged {
        Judged::Refused(refusal) => Reply::Refused(refusal),
        Judged::ShortData => {
            spans::zero(staging, 0, BLOCK_SIZE * card.used); // as after every status pair
            Reply::ShortData
        }
        Judged::Fit => {
            wiped_write(
                card,
                settled,
                arena,
                staging,
                open,
                codes,
                list,
                count as usize,
                data,
            )
        }
    }
}
