// The purse rule on a block's fields (`blocks.rs` of the Rust): a stored value is lowered, raised by what was taken last, or written
// outright. Fields have a sign where the service has a limit, so few functions meet signed numbers; the rest go by bits and answers.
ghost use Rattle.std.specs.Prelude.{◌≡◌, ◌&&◌, true, false, ◌<◌, ◌^◌, pos, ◌+ℤ◌, ◌-ℤ◌};
ghost use Rattle.std.specs.Int.Signed.{mag, lt_z, le_z};
ghost use Rattle.rule_purse.specs.Purse.{value_of, inside_of, outside_of, sum_of, stored_of, purse_rule};

use answers::status::Fault;
use byte_parts::word;
use service_code::limit::Limit;

// What a write to a purse block does; the service's attribute and the access mode say which.
#[derive(Clone, Copy)]
pub enum PurseOperation {
    Direct,
    Decrement,
    Cashback,
}

// The fields of a block that the rule reads: the purse, the cashback (what was taken from the purse last), the execution id.
// In a command the purse is the amount.
#[derive(Clone, Copy)]
pub struct PurseData {
    pub purse: u32,
    pub cashback: u32,
    pub id: u32,
}

// What becomes of a block: it stays, it is replaced whole, or two of its fields are replaced.
#[derive(Clone, Copy)]
pub enum PurseWrite {
    Unchanged,
    Whole,
    Stored { purse: u32, cashback: u32 },
}

// Gives what the bits `raw` of a field stand for: with a sign if the service has a limit, else without.
fn value(limit: Option<Limit>, raw: u32) -> i64
    ensures { (result ≡ value_of limit raw) × (mag result < 2 ^ 32) }
{
    match limit {
        None => raw as i64,
        Some(_) => word::signed(raw),
    }
}

// Tells whether v lies within a limit, ends included.
fn between(limit: Limit, v: i64) -> bool
    ensures { (result ≡ (le_z limit.lower v && le_z v limit.upper)) × (result ≡ true → mag v < 2 ^ 32) }
{
    limit.lower as i64 <= v && v <= limit.upper as i64
}

// Tells whether a purse may hold v: lower to upper, or 0 to the most that four bytes hold, ends included.
fn inside(limit: Option<Limit>, v: i64) -> bool
    ensures { (result ≡ inside_of limit v) × (result ≡ true → mag v < 2 ^ 32) }
{
    match limit {
        None => 0 <= v && v <= 0xffff_ffff,
        Some(limit) => between(limit, v),
    }
}

// Gives the fault of a value outside the range: 03 with a limit, 01 without.
fn outside(limit: Option<Limit>) -> Fault
    ensures { result ≡ outside_of limit }
{
    match limit {
        None => Fault::OutsideWord,
        Some(_) => Fault::OutsideLimits,
    }
}

// Tells whether field a is below field b.
fn below(limit: Option<Limit>, a: u32, b: u32) -> bool
    ensures { result ≡ lt_z (value_of limit a) (value_of limit b) }
{
    let x = value(limit, a);
    let y = value(limit, b);
    x < y
}

// Tells whether fields a and b add up to more than four bytes hold, limit or not.
fn over(limit: Option<Limit>, a: u32, b: u32) -> bool
    ensures { result ≡ lt_z (pos 4294967295) (value_of limit a +ℤ value_of limit b) }
{
    let x = value(limit, a);
    let y = value(limit, b);
    0xffff_ffff < x + y
}

// Gives v as its 32 bits, if a purse may hold it.
fn ranged(limit: Option<Limit>, v: i64) -> Option<u32>
    ensures { result ≡ sum_of limit v }
{
    if inside(limit, v) {
        Some(word::unsigned(v))
    } else {
        None
    }
}

// Adds field b to field a.
fn more(limit: Option<Limit>, a: u32, b: u32) -> Option<u32>
    ensures { result ≡ sum_of limit (value_of limit a +ℤ value_of limit b) }
{
    let x = value(limit, a);
    let y = value(limit, b);
    ranged(limit, x + y)
}

// Takes field b from field a.
fn less(limit: Option<Limit>, a: u32, b: u32) -> Option<u32>
    ensures { result ≡ sum_of limit (value_of limit a -ℤ value_of limit b) }
{
    let x = value(limit, a);
    let y = value(limit, b);
    ranged(limit, x - y)
}

// Tells whether a purse may hold field a.
fn fits(limit: Option<Limit>, a: u32) -> bool
    ensures { result ≡ inside_of limit (value_of limit a) }
{
    inside(limit, value(limit, a))
}

// Stores a sum in range as the new purse, with a new cashback; a sum that is outside fails.
fn stored_of(limit: Option<Limit>, cashback: u32, sum: Option<u32>) -> Result<PurseWrite, Fault>
    ensures { result ≡ stored_of limit cashback sum }
{
    match sum {
        Some(purse) => Ok(PurseWrite::Stored { purse, cashback }),
        None => Err(outside(limit)),
    }
}

// Writes outright: the whole block is replaced, but neither purse nor cashback may rise, nor may what could be given back exceed four
// bytes. The new purse has to be in range, which is tested last.
fn direct(limit: Option<Limit>, stored: PurseData, command: PurseData) -> Result<PurseWrite, Fault>
    ensures { result ≡ purse_rule PurseOperation.Direct limit stored command }
{
    if below(limit, stored.purse, command.purse) {
        return Err(Fault::PurseRaised);
    }
    not_raised(limit, stored, command)
}

// The same for a purse that does not rise: what is left to test.
fn not_raised(
    limit: Option<Limit>,
    stored: PurseData,
    command: PurseData,
) -> Result<PurseWrite, Fault>
    requires { lt_z (value_of limit stored.purse) (value_of limit command.purse) ≡ false }
    ensures { result ≡ purse_rule PurseOperation.Direct limit stored command }
{
    if below(limit, stored.cashback, command.cashback) {
        return Err(Fault::CashbackRaised);
    }
    if over(limit, stored.purse, command.cashback) {
        return Err(Fault::SumTooLarge);
    }
    if fits(limit, command.purse) {
        Ok(PurseWrite::Whole)
    } else {
        Err(outside(limit))
    }
}

// Takes an amount from a purse: it becomes the cashback.
fn lowered(limit: Option<Limit>, stored: PurseData, amount: u32) -> Result<PurseWrite, Fault>
    ensures { result ≡ stored_of limit amount (sum_of limit (value_of limit stored.purse -ℤ value_of limit amount)) }
{
    stored_of(limit, amount, less(limit, stored.purse, amount))
}

// Decrements: the amount leaves the purse and becomes the cashback. A command that was carried out already, as its execution id says,
// changes nothing, ahead of any test of the amount: so a terminal may send it again.
fn decrement(
    limit: Option<Limit>,
    stored: PurseData,
    command: PurseData,
) -> Result<PurseWrite, Fault>
    ensures { result ≡ purse_rule PurseOperation.Decrement limit stored command }
{
    if command.id == stored.id {
        return Ok(PurseWrite::Unchanged);
    }
    lowered(limit, stored, command.purse)
}

// Returns an amount to a purse: nothing is held any more.
fn returned(limit: Option<Limit>, held: PurseData, amount: u32) -> Result<PurseWrite, Fault>
    ensures { result ≡ stored_of limit 0 (sum_of limit (value_of limit held.purse +ℤ value_of limit amount)) }
{
    stored_of(limit, 0, more(limit, held.purse, amount))
}

// Gives back: an amount up to the cashback that is held returns to the purse, and nothing is held any more. A command that was carried
// out already changes nothing, as with a decrement.
fn cashback(limit: Option<Limit>, held: PurseData, command: PurseData) -> Result<PurseWrite, Fault>
    ensures { result ≡ purse_rule PurseOperation.Cashback limit held command }
{
    if command.id == held.id {
        return Ok(PurseWrite::Unchanged);
    }
    if below(limit, held.cashback, command.purse) {
        return Err(Fault::CashbackExceeds);
    }
    returned(limit, held, command.purse)
}

// Decides what a write makes of a purse block, from the fields of the block and of the command.
pub fn purse_write(
    operation: PurseOperation,
    limit: Option<Limit>,
    stored: PurseData,
    command: PurseData,
) -> Result<PurseWrite, Fault>
    ensures { result ≡ purse_rule operation limit stored command }
{
    match operation {
        PurseOperation::Direct => direct(limit, stored, command),
        PurseOperation::Decrement => decrement(limit, stored, command),
        PurseOperation::Cashback => cashback(limit, stored, command),
    }
}
