// The checks of a block list element, in their order (`validate_block_element` of the Rust).
ghost use Rattle.std.specs.Prelude.{◌≡◌, true, not, ◌&&◌, eqb};
ghost use Rattle.service_code.specs.Code.{requires_key, allows_cashback};
ghost use Rattle.request_check.specs.Check.{mode_allowed, attribute_check, access_check, block_check, service_check, defined_check, row_check, named_check};

use crate::table::Row;
use answers::status::Fault;
use block_list::element::BlockListElement;
use service_code::code::{ServiceAttribute, ServiceCode};

// Tells whether a read, or a write, may use an access mode: 0, and on a write 1 too.
fn mode_allowed(write: bool, mode: u8) -> bool
    ensures { result ≡ mode_allowed write mode }
{
    if write { mode < 2 } else { mode == 0 }
}

// Tells whether an open request meets a service whose code says that it needs a key.
fn key_missing(open: bool, code: u16) -> bool
    ensures { result ≡ («open» && requires_key code) }
{
    open && ServiceCode(code).requires_key()
}

// Tells whether an access mode is the one of cashback, on a service that gives none.
fn no_cashback(attribute: ServiceAttribute, mode: u8) -> bool
    ensures { result ≡ (eqb mode 1 && not (allows_cashback attribute)) }
{
    mode == 1 && !attribute.allows_cashback()
}

// Checks what a service's attribute lets a write do in an access mode.
fn write_check(attribute: ServiceAttribute, mode: u8) -> Result<(), Fault>
    ensures { result ≡ attribute_check true attribute mode }
{
    if !attribute.allows_write() {
        return Err(Fault::ReadOnly); // A5
    }
    if no_cashback(attribute, mode) {
        return Err(Fault::NoCashback); // A5
    }
    Ok(())
}

// Checks what a service's attribute lets a request do; a read may do anything.
fn attribute_check(write: bool, attribute: ServiceAttribute, mode: u8) -> Result<(), Fault>
    ensures { result ≡ attribute_check write attribute mode }
{
    if !write {
        return Ok(());
    }
    write_check(attribute, mode)
}

// Checks what a service lets a request do: the key is asked for first.
fn access_check(
    code: u16,
    attribute: ServiceAttribute,
    write: bool,
    open: bool,
    mode: u8,
) -> Result<(), Fault>
    ensures { result ≡ access_check code attribute write «open» mode }
{
    if key_missing(open, code) {
        return Err(Fault::KeyNeeded); // A5
    }
    attribute_check(write, attribute, mode)
}

// Checks that a store of so many blocks has one of a number.
fn block_check(blocks: u16, number: u16) -> Result<(), Fault>
    ensures { result ≡ block_check blocks number }
{
    if blocks <= number {
        return Err(Fault::BlockNumber); // A8
    }
    Ok(())
}

// Checks what the service of a row lets a request do, then that its store has the block.
fn service_check(
    row: Row,
    attribute: ServiceAttribute,
    write: bool,
    open: bool,
    number: u16,
    mode: u8,
) -> Result<(), Fault>
    ensures { result ≡ service_check row attribute write «open» number mode }
{
    access_check(row.code, attribute, write, open, mode)?;
    block_check(row.blocks, number)
}

// Checks that a row is that of a service on the card, then what the service lets a request do.
fn defined_check(row: Row, write: bool, open: bool, number: u16, mode: u8) -> Result<(), Fault>
    ensures { result ≡ defined_check row write «open» number mode row.attribute }
{
    let Some(attribute) = row.attribute else {
        return Err(Fault::Attribute); // A4: undefined, or FFFF
    };
    if !row.found {
        return Err(Fault::NoService); // A6
    }
    service_check(row, attribute, write, open, number, mode)
}

// Checks an element's mode, then its number against the row that it names.
pub(crate) fn row_check(
    row: Row,
    write: bool,
    open: bool,
    number: u16,
    mode: u8,
) -> Result<(), Fault>
    ensures { result ≡ row_check row write «open» number mode }
{
    if !mode_allowed(write, mode) {
        return Err(Fault::AccessMode); // A7
    }
    defined_check(row, write, open, number, mode)
}

// Checks one element against the row at its index, of which the first `count` are the codes'.
pub(crate) fn element_check(
    row: Row,
    count: usize,
    write: bool,
    open: bool,
    e: BlockListElement,
) -> Result<(), Fault>
    ensures { result ≡ named_check count row write «open» e }
{
    if count <= e.index as usize {
        return Err(Fault::ListIndex); // A3
    }
    row_check(row, write, open, e.number, e.mode)
}
