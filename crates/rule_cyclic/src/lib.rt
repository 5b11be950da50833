// What a write makes of a cyclic store (`blocks.rs` of the Rust): the newest block stands first, and the oldest ones are lost. It takes a
// whole run of blocks at once, since a run that is repeated may not shift the store again.
#![tactic(auto)]

ghost use Rattle.std.specs.Prelude.{◌≡◌, ◌++◌, ◌-◌, ◌≤◌, length, take};
ghost use Rattle.byte_parts.specs.Part.{put, same_bytes};
ghost use Rattle.answers.specs.Outcome.{written_of, bytes_after};
ghost use Rattle.rule_cyclic.specs.Cyclic.{cyclic_of};

use answers::status::Fault;
use byte_parts::spans;

// Writes a run of blocks to a cyclic store. A run longer than the store fails (AF); one that the store begins with already changes
// nothing; else the run comes first and the store's first blocks follow, as many as still fit.
pub fn apply_cyclic_write(store: &mut [u8], run: &[u8]) -> Result<(), Fault>
    ensures value { result ≡ written_of (cyclic_of store.old run.now) }
    ensures store_after { store.new ≡ bytes_after store.old (cyclic_of store.old run.now) }
{
    if store.len() < run.len() {
        return Err(Fault::CyclicTooLong);
    }
    if begins(store, run) {
        return Ok(());
    }
    push(store, run);
    Ok(())
}

// Tells whether a store begins with a run.
#[tactic(auto, using(crate::proofs::Ring::starts_same))]
fn begins(store: &[u8], run: &[u8]) -> bool
    requires { length run.now ≤ length store.now }
    ensures { result ≡ same_bytes (take (length run.now) store.now) run.now }
{
    store.starts_with(run)
}

// Puts a run ahead of what a store has; as many of its last bytes are lost.
fn push(store: &mut [u8], run: &[u8])
    requires { length run.now ≤ length store.old }
    ensures { store.new ≡ run.now ++ take (length store.old - length run.now) store.old }
{
    let n = run.len();
    shift(store, n);
    spans::copy(store, 0, run, 0, n);
}

// Moves the bytes of a store back by n; the last n are lost. From the last on, so that each has moved before it is overwritten.
fn shift(store: &mut [u8], n: usize)
    requires { n ≤ length store.old }
    ensures { store.new ≡ put store.old n (length store.old - n) store.old }
{
    for i in (n..store.len()).rev() {
        store[i] = store[i - n];
    }
}
