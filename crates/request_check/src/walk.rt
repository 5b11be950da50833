// One walk of a request's list: whether it is as many elements as are counted, and which of them fails first. What depends on a code
// and a mode alone is settled before, as how many blocks an element may name by way of them.
ghost use Rattle.std.specs.Prelude.{◌≡◌, ◌≤◌, length, take};
ghost use Rattle.request_check.specs.Walk.{bound_of, Bounds, walked_from, fault_at, walked_of};

use crate::check;
use crate::table::{Row, Table};
use answers::status::Failure;
use block_list::element::Unpacked;
use block_list::{element, reader};
use byte_parts::spans;

// What a walk says: whether the list is the counted elements and nothing more, and how the check of its elements ended.
#[derive(Clone, Copy)]
pub struct Walked {
    pub ends: bool,
    pub checked: Result<(), Failure>,
}

// How far the elements of a list pass: all that are there, which then end where the list does or not, or up to one that does not. No
// Result: where the walk stops is an answer of its own, and its caller handles both.
#[derive(Clone, Copy)]
enum Stop {
    Over(bool),
    Stopped { index: usize, place: usize },
}

// Gives how many blocks an element of a mode may name by way of a row: all of its store, or none.
fn bound_of(row: Row, write: bool, open: bool, mode: u8) -> u16
    ensures { result ≡ bound_of row write «open» mode }
{
    match check::row_check(row, write, open, 0, mode) {
        Ok(()) => row.blocks,
        Err(_) => 0,
    }
}

// Gives how many blocks an element may name, for each first byte without its top bit: sixteen times the mode plus the index.
fn bounds_of(table: Table, write: bool, open: bool) -> [u16; 128]
    ensures { (length result ≡ 128) × Bounds (take table.count table.rows) write «open» result }
{
    let mut bounds = [0; 128];
    let n = spans::least(table.count, 16);
    for i in 0..n {
        let row = table.rows[i];
        bounds[i] = bound_of(row, write, open, 0);
        bounds[16 + i] = bound_of(row, write, open, 1);
    }
    bounds
}

// Walks the counted elements of a list up to the first that names a block that it may not.
fn walk(bounds: &[u16], list: &[u8], count: usize) -> Stop
    requires { 128 ≤ length bounds.now }
    ensures { result ≡ walked_from bounds.now list.now count 0 0 }
{
    let mut at = 0;
    for i in 0..count {
        let Some(Unpacked { element: e, next }) = element::unpack(list, at) else {
            return Stop::Over(false);
        };
        let head = list[at];
        if bounds[(head % 128) as usize] <= e.number {
            return Stop::Stopped {
                index: i,
                place: at,
            };
        }
        at = next;
    }
    Stop::Over(at == list.len())
}

// Works out what is at fault with the element at a place of the list, number `index` of it.
fn fault_at(
    table: Table,
    write: bool,
    open: bool,
    index: usize,
    list: &[u8],
    place: usize,
) -> Result<(), Failure>
    ensures { result ≡ fault_at (take table.count table.rows) write «open» index list.now place }
{
    let Some(taken) = element::unpack(list, place) else {
        return Ok(());
    };
    let e = taken.element;
    let row = table.rows[e.index as usize];
    if let Err(fault) = check::element_check(row, table.count, write, open, e) {
        return Err(Failure { index, fault });
    }
    Ok(())
}

// Checks the counted elements of a list in order, and tells whether they are all of it: behind one that fails the list is walked to its
// end, and only that one's fault is worked out.
pub fn check_all(table: Table, write: bool, open: bool, list: &[u8], count: usize) -> Walked
    ensures { result ≡ walked_of (take table.count table.rows) write «open» list.now count }
{
    let bounds = bounds_of(table, write, open);
    match walk(&bounds[0..128], list, count) {
        Stop::Over(ends) => Walked {
            ends,
            checked: Ok(()),
        },
        Stop::Stopped { index, place } => Walked {
            ends: reader::list_ends(list, count),
            checked: fault_at(table, write, open, index, list, place),
        },
    }
}
