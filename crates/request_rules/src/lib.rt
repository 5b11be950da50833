// What an element, and the end of a run, do to one store; and to that store where it lies in the stage.
#![tactic(auto)]

ghost use Rattle.std.specs.Prelude.{◌≡◌, ◌+◌, ◌*◌, ◌≤◌, length, Some};
ghost use Rattle.byte_parts.specs.Sizes.{block_size};
ghost use Rattle.answers.specs.Outcome.{written_of, bytes_after};
ghost use Rattle.request_rules.specs.Rules.{purse_in, cashback_in, cyclic_element, element_by, end_by, on_store};

use answers::status::Fault;
use byte_parts::sizes::BLOCK_SIZE;
use request_check::table::Row;
use rule_purse::bytes;
use rule_purse::fields::PurseOperation;
use service_code::code::ServiceAttribute;
use service_code::limit::Limit;

// Applies a purse operation to block `number` of a purse store, with the element's sixteen bytes.
fn purse_in(
    store: &mut [u8],
    block: &[u8],
    operation: PurseOperation,
    limit: Option<Limit>,
    number: u16,
) -> Result<(), Fault>
    requires { (block_size * number + block_size ≤ length store.old) × (16 ≤ length block.now) }
    ensures value { result ≡ written_of (purse_in operation limit number block.now store.old) }
    ensures store_after { store.new ≡ bytes_after store.old (purse_in operation limit number block.now store.old) }
{
    let at = BLOCK_SIZE * (number as usize);
    bytes::apply_purse_write(&mut store[at..at + BLOCK_SIZE], block, operation, limit)
}

// Gives what a cashback service does in an access mode: in mode 1 cashback, else a decrement.
fn cashback_in(mode: u8) -> PurseOperation
    ensures { result ≡ cashback_in mode }
{
    if mode == 1 {
        PurseOperation::Cashback
    } else {
        PurseOperation::Decrement
    }
}

// Tells how an element of a cyclic store ends: it must name block 0.
fn cyclic_element(number: u16) -> Result<(), Fault>
    ensures { result ≡ cyclic_element number }
{
    if number == 0 {
        Ok(())
    } else {
        Err(Fault::CyclicBlock)
    }
}

// Carries out one element on its store by the service's attribute, `block` being its sixteen bytes: a random block is replaced, a cyclic
// element must name block 0 (the run's end does the rest), a purse follows its operation.
fn element_by(
    store: &mut [u8],
    block: &[u8],
    attribute: ServiceAttribute,
    limit: Option<Limit>,
    number: u16,
    mode: u8,
) -> Result<(), Fault>
    requires { (block_size * number + block_size ≤ length store.old) × (16 ≤ length block.now) }
    ensures value { result ≡ written_of (element_by (Some attribute) limit number mode block.now store.old) }
    ensures store_after { store.new ≡ bytes_after store.old (element_by (Some attribute) limit number mode block.now store.old) }
{
    match attribute {
        ServiceAttribute::RandomReadWrite => {
            byte_block::copy_block(store, BLOCK_SIZE * (number as usize), block, 0);
            Ok(())
        }
        ServiceAttribute::CyclicReadWrite => cyclic_element(number),
        ServiceAttribute::PurseDirect => {
            purse_in(store, block, PurseOperation::Direct, limit, number)
        }
        ServiceAttribute::PurseCashback => {
            purse_in(store, block, cashback_in(mode), limit, number)
        }
        ServiceAttribute::PurseDecrement => {
            purse_in(store, block, PurseOperation::Decrement, limit, number)
        }
        // an arm of its own, so that a wrong program can change it alone
        ServiceAttribute::RandomReadOnly => Err(Fault::ReadOnly),
        ServiceAttribute::CyclicReadOnly | ServiceAttribute::PurseReadOnly => Err(Fault::ReadOnly),
    }
}

// Gives where a row's store begins in the stage.
fn place_of(row: Row) -> usize
    ensures { result ≡ block_size * row.start }
{
    BLOCK_SIZE * (row.start as usize)
}

// Carries out one element where its row's store lies in the stage.
pub fn element_on(
    stage: &mut [u8],
    block: &[u8],
    row: Row,
    number: u16,
    mode: u8,
) -> Result<(), Fault>
    requires { (block_size * row.start + block_size * row.blocks ≤ length stage.old) × (block_size * number + block_size ≤ block_size * row.blocks) × (16 ≤ length block.now) }
    ensures value { result ≡ written_of (on_store row (element_by row.attribute row.limit number mode block.now) stage.old) }
    ensures stage_after { stage.new ≡ bytes_after stage.old (on_store row (element_by row.attribute row.limit number mode block.now) stage.old) }
{
    let at = place_of(row);
    let end = at + BLOCK_SIZE * (row.blocks as usize);
    match row.attribute {
        Some(attribute) => {
            element_by(
                &mut stage[at..end],
                block,
                attribute,
                row.limit,
                number,
                mode,
            )
        }
        None => Err(Fault::Attribute),
    }
}

// Ends a run on its store, `run` being the bytes of all its elements: a cyclic store takes them in.
fn end_by(store: &mut [u8], run: &[u8], attribute: ServiceAttribute) -> Result<(), Fault>
    ensures value { result ≡ written_of (end_by (Some attribute) run.now store.old) }
    ensures store_after { store.new ≡ bytes_after store.old (end_by (Some attribute) run.now store.old) }
{
    match attribute {
        ServiceAttribute::CyclicReadWrite => rule_cyclic::apply_cyclic_write(store, run),
        _ => Ok(()),
    }
}

// Ends a run where its row's store lies in the stage.
pub fn end_on(stage: &mut [u8], run: &[u8], row: Row) -> Result<(), Fault>
    requires { block_size * row.start + block_size * row.blocks ≤ length stage.old }
    ensures value { result ≡ written_of (on_store row (end_by row.attribute run.now) stage.old) }
    ensures stage_after { stage.new ≡ bytes_after stage.old (on_store row (end_by row.attribute run.now) stage.old) }
{
    let at = place_of(row);
    let end = at + BLOCK_SIZE * (row.blocks as usize);
    match row.attribute {
        Some(attribute) => end_by(&mut stage[at..end], run, attribute),
        None => Ok(()),
    }
}
