// The fields that answer `total`, `ver`, `dir`, `areas`, `svcs`, `block` and `used`.
ghost use Rattle.std.specs.Prelude.{◌≡◌, true, ◌+◌, ◌*◌, ◌/◌, ◌≤◌, length};
ghost use Rattle.text_numbers.specs.Codes.{codes_field, codes_of};
ghost use Rattle.text_stream.specs.Stream.{Written};
ghost use Rattle.text_print.specs.Print.{closed};
ghost use Rattle.inspect_answer.specs.Fields.{told_answer, count_text, told_fields, directory_fields, list_answer, checked_fields, block_fields, used_fields};
ghost use Rattle.inspect_fields.specs.Fields.{most_fields, field_one};

use answers::refusal::Refusal;
use card_build::card::Card;
use card_questions::{keys, listing, totals};
use inspect_fields::line::read_codes;
use inspect_fields::put::put_refusal;
use text_print::{put_hex, put_number, put_numbers, put_word};

// What is told of a code: its key version, or its total.
fn told_of(card: Card, version: bool, code: u16) -> Result<u16, Refusal>
    ensures { result ≡ told_answer version card code }
{
    if version {
        return keys::node_key_version(card, code);
    }
    totals::block_count_for_node(card, code)
}

// Puts a key version, or a total, into `out` from `at` on, and answers the place after it.
fn put_counted(version: bool, n: u16, out: &mut [u8], at: usize) -> usize
    requires { at + most_fields ≤ length out.old }
    ensures written { Written out.old at (closed 10 (count_text version n)) result out.new }
    ensures upper_bound { result ≤ at + most_fields }
{
    if version {
        let one = [n];
        return put_numbers(&one, b'\n', out, at);
    }
    put_number(n as u64, b'\n', out, at)
}

// Puts the answer to `ver`, or to `total`, into `out` from `at` on, and answers the place after it.
pub(crate) fn put_told(card: Card, version: bool, code: u16, out: &mut [u8], at: usize) -> usize
    requires { at + most_fields ≤ length out.old }
    ensures written { Written out.old at (told_fields version (told_answer version card code)) result out.new }
    ensures upper_bound { result ≤ at + most_fields }
{
    match told_of(card, version, code) {
        Ok(n) => put_counted(version, n, out, at),
        Err(refusal) => put_refusal(refusal, out, at),
    }
}

// Writes the directory to `pairs`, puts it into `out` from `at` on, and answers the place after it.
fn put_pairs(card: Card, pairs: &mut [u16], out: &mut [u8], at: usize) -> usize
    requires { (length pairs.old ≤ 2048) × (at + most_fields ≤ length out.old) }
    ensures written { Written out.old at (directory_fields card (length pairs.old)) result out.new }
    ensures upper_bound { result ≤ at + most_fields }
{
    match listing::directory(card, pairs) {
        Ok(n) => put_numbers(&pairs[0..2 * n], b'\n', out, at),
        Err(refusal) => put_refusal(refusal, out, at),
    }
}

// Puts the answer to `dir` into `out` from `at` on, and answers the place after it.
pub(crate) fn put_directory(card: Card, room: usize, out: &mut [u8], at: usize) -> usize
    requires { (room ≤ 4096) × (at + most_fields ≤ length out.old) }
    ensures written { Written out.old at (directory_fields card (room / 2)) result out.new }
    ensures upper_bound { result ≤ at + most_fields }
{
    let mut pairs = [0u16; 2048];
    let half = room / 2;
    put_pairs(card, &mut pairs[0..half], out, at)
}

// Puts whether a list is well formed into `out` from `at` on, and answers the place after it.
fn put_checked(checked: Result<bool, Refusal>, out: &mut [u8], at: usize) -> usize
    requires { at + most_fields ≤ length out.old }
    ensures written { Written out.old at (checked_fields checked) result out.new }
    ensures upper_bound { result ≤ at + most_fields }
{
    match checked {
        Ok(true) => put_word(b"yes", b'\n', out, at),
        Ok(false) => put_word(b"no", b'\n', out, at),
        Err(refusal) => put_refusal(refusal, out, at),
    }
}

// Whether codes are a well formed list, of areas or of services.
fn list_check(card: Card, areas: bool, codes: &[u16]) -> Result<bool, Refusal>
    ensures { result ≡ list_answer areas card codes.now }
{
    if areas {
        return keys::area_list_well_formed(card, codes);
    }
    keys::service_list_well_formed(card, codes)
}

// Puts the answer to `areas`, or to `svcs`, into `out` from `at` on, and answers the place after it.
pub(crate) fn put_well_formed(
    card: Card,
    areas: bool,
    line: &[u8],
    out: &mut [u8],
    at: usize,
) -> usize
    requires { (codes_field (field_one line.now) ≡ true) × (length line.now ≤ 32768) × (at + most_fields ≤ length out.old) }
    ensures written { Written out.old at (checked_fields (list_answer areas card (codes_of (field_one line.now)))) result out.new }
    ensures upper_bound { result ≤ at + most_fields }
{
    let mut codes = [0u16; 8192];
    let n = read_codes(line, &mut codes);
    put_checked(list_check(card, areas, &codes[0..n]), out, at)
}

// Puts the answer to `block` into `out` from `at` on, and answers the place after it.
pub(crate) fn put_block(
    card: Card,
    arena: &[u8],
    code: u16,
    number: u32,
    out: &mut [u8],
    at: usize,
) -> usize
    requires { at + most_fields ≤ length out.old }
    ensures written { Written out.old at (block_fields card arena.now code number) result out.new }
    ensures upper_bound { result ≤ at + most_fields }
{
    put_hex(
        request_block::stored_block(card, arena, code, number),
        b'\n',
        out,
        at,
    )
}

// Puts the answer to `used` into `out` from `at` on, and answers the place after it.
pub(crate) fn put_used(card: Card, out: &mut [u8], at: usize) -> usize
    requires { at + most_fields ≤ length out.old }
    ensures written { Written out.old at (used_fields card) result out.new }
    ensures upper_bound { result ≤ at + most_fields }
{
    put_number(card.used as u64, b'\n', out, at)
}
