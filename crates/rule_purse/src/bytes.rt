// The purse rule on a block's bytes, in place: purse in bytes 0 to 3, cashback in 4 to 7, execution id in 12 to 15, low byte first.
ghost use Rattle.std.specs.Prelude.{◌≡◌, ◌+◌, ◌≤◌, length, drop};
ghost use Rattle.byte_parts.specs.Part.{put};
ghost use Rattle.byte_parts.specs.Sizes.{block_size};
ghost use Rattle.answers.specs.Outcome.{written_of, bytes_after};
ghost use Rattle.rule_purse.specs.Bytes.{purse_data_of, purse_applied};

use crate::fields::{PurseData, PurseOperation, PurseWrite, purse_write};
use answers::status::Fault;
use byte_parts::sizes::BLOCK_SIZE;
use byte_parts::{spans, word};
use service_code::limit::Limit;

// Reads the fields of a block.
fn purse_data(block: &[u8]) -> PurseData
    requires { block_size ≤ length block.now }
    ensures { result ≡ purse_data_of block.now }
{
    PurseData {
        purse: word::word(block, 0),
        cashback: word::word(block, 4),
        id: word::word(block, 12),
    }
}

// Gives a block `n` bytes of a command, from `at` on in both.
fn take_over(block: &mut [u8], command: &[u8], at: usize, n: usize)
    requires { (at + n ≤ length block.old) × (at + n ≤ length command.now) }
    ensures { block.new ≡ put block.old at n (drop at command.now) }
{
    spans::copy(block, at, command, at, n);
}

// Gives a block the execution id of a command.
fn put_id(block: &mut [u8], command: &[u8])
    requires { (block_size ≤ length block.old) × (block_size ≤ length command.now) }
    ensures { block.new ≡ put block.old 12 4 (drop 12 command.now) }
{
    take_over(block, command, 12, 4);
}

// Carries a purse write out on `block`, with the fields of `command`. Bytes 8 to 11 are the user's own: only a direct write touches them.
pub fn apply_purse_write(
    block: &mut [u8],
    command: &[u8],
    operation: PurseOperation,
    limit: Option<Limit>,
) -> Result<(), Fault>
    requires { (block_size ≤ length block.old) × (block_size ≤ length command.now) }
    ensures value { result ≡ written_of (purse_applied operation limit block.old command.now) }
    ensures block_after { block.new ≡ bytes_after block.old (purse_applied operation limit block.old command.now) }
{
    let stored = purse_data(block);
    let asked = purse_data(command);
    match purse_write(operation, limit, stored, asked)? {
        PurseWrite::Unchanged => Ok(()),
        PurseWrite::Whole => {
            spans::copy(block, 0, command, 0, BLOCK_SIZE);
            Ok(())
        }
        PurseWrite::Stored { purse, cashback } => {
            word::put_word(block, 0, purse);
            word::put_word(block, 4, cashback);
            put_id(block, command);
            Ok(())
        }
    }
}
