// The runs of a write: longest stretches of consecutive elements of equal service number.
ghost use Rattle.std.specs.Prelude.{◌≡◌, ◌+◌, ◌*◌, ◌≤◌, length, take};
ghost use Rattle.byte_parts.specs.Sizes.{block_size};
ghost use Rattle.service_code.specs.Code.{number_of};
ghost use Rattle.block_list.specs.Element.{elements_from};
ghost use Rattle.request_runs.specs.Staged.{carried_on, closed_on, staged};
ghost use Rattle.request_runs.specs.Ready.{AllReady, walked_to};

use answers::status::{Failure, Fault};
use block_list::element;
use block_list::element::{BlockListElement, Unpacked};
use byte_parts::sizes::BLOCK_SIZE;
use request_check::table::{Row, Table};
use service_code::code::ServiceCode;

// Gives the service number that a row's code has.
fn number_of(row: Row) -> u16
    ensures { result ≡ number_of row.code }
{
    ServiceCode(row.code).number()
}

// Carries out an element, number `i` of its list, on the store of its row, with its own sixteen bytes of the data.
fn carry_element(
    stage: &mut [u8],
    data: &[u8],
    row: Row,
    i: usize,
    e: BlockListElement,
) -> Result<(), Failure>
    requires { (block_size * i + block_size ≤ length «data».now) × (block_size * row.start + block_size * row.blocks ≤ length stage.old) × (block_size * e.number + block_size ≤ block_size * row.blocks) }
    ensures { carried_on row «data».now i e stage.old ≡ walked_to result stage.new }
{
    let block = &data[BLOCK_SIZE * i..BLOCK_SIZE * i + BLOCK_SIZE];
    if let Err(fault) = request_rules::element_on(stage, block, row, e.number, e.mode) {
        return Err(Failure { index: i, fault }); // no map_err: what its closure gives would need a clause of its own
    }
    Ok(())
}

// Ends the run of the elements `from` up to `end` on the store of its row: AF is told at the run's first element.
fn close_run(
    stage: &mut [u8],
    data: &[u8],
    row: Row,
    from: usize,
    end: usize,
) -> Result<(), Failure>
    requires { (from ≤ end) × (block_size * end ≤ length «data».now) × (block_size * row.start + block_size * row.blocks ≤ length stage.old) }
    ensures { closed_on row «data».now from end stage.old ≡ walked_to result stage.new }
{
    let run = &data[BLOCK_SIZE * from..BLOCK_SIZE * end];
    if let Err(fault) = request_rules::end_on(stage, run, row) {
        return Err(Failure { index: from, fault });
    }
    Ok(())
}

// Carries out the counted elements of a list on the staged stores, run by run: each element as it comes, then the run's end.
// The first failure stops it, and of the stage nothing is said then. Both loops move the same two cursors, by as many elements as a run
// has: so neither is a `for`.
pub fn apply(
    stage: &mut [u8],
    table: Table,
    list: &[u8],
    count: usize,
    data: &[u8],
) -> Result<(), Failure>
    requires { (block_size * count ≤ length «data».now) × AllReady (take table.count table.rows) (length stage.old) (elements_from list.now count 0) }
    ensures { staged (take table.count table.rows) «data».now (elements_from list.now count 0) stage.old ≡ walked_to result stage.new }
{
    let mut at = 0;
    let mut end = 0;
    'runs: while end < count {
        let Some(Unpacked { element, next: _ }) = element::unpack(list, at) else {
            break 'runs;
        };
        let row = table.rows[element.index as usize];
        let number = number_of(row);
        let from = end;
        'scan: while end < count {
            let Some(Unpacked { element: f, next }) = element::unpack(list, at) else {
                break 'scan;
            };
            let own = table.rows[f.index as usize];
            if number_of(own) != number {
                break 'scan;
            }
            carry_element(stage, data, own, end, f)?;
            at = next;
            end += 1;
        }
        close_run(stage, data, row, from, end)?;
    }
    Ok(())
}
