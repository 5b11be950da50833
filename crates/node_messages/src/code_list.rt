// The code list message (`RequestCodeListResult` of the Rust): one packet of an area's children.
ghost use Rattle.std.specs.Prelude.{◌≡◌, ◌+◌, ◌-◌, ◌*◌, ◌≤◌, min, length, get_or};
ghost use Rattle.byte_parts.specs.Values.{flag_of};
ghost use Rattle.node_messages.specs.Message.{message_put, message_after};
ghost use Rattle.node_messages.specs.CodeList.{most_entries, empty_list, list_refused, code_list_bytes, is_counted, is_code_list, read_code_list};

use crate::{message, numbers};
use answers::refusal::Refusal;
use byte_parts::spans;

// Whether more packets follow; how many areas this one has, with code and end of each; how many services, with their codes. Entries
// past their count are 0.
#[derive(Clone, Copy)]
pub struct CodeList {
    pub more: bool,
    pub areas: usize,
    pub ranges: [u16; 32],
    pub services: usize,
    pub codes: [u16; 16],
}

// A code list, or why there is none; the list is then the empty one.
#[derive(Clone, Copy)]
pub struct Listed {
    pub list: CodeList,
    pub answer: Result<(), Refusal>,
}

impl CodeList {
    // The list of no entries, the last one.
    pub fn empty() -> Self
        ensures { result ≡ empty_list }
    {
        CodeList {
            more: false,
            areas: 0,
            ranges: [0u16; 32],
            services: 0,
            codes: [0u16; 16],
        }
    }
}

impl Listed {
    // No list, and why.
    pub fn refused(refusal: Refusal) -> Self
        ensures { result ≡ list_refused refusal }
    {
        Listed {
            list: CodeList::empty(),
            answer: Err(refusal),
        }
    }
}

// A flag as its byte.
fn flag(more: bool) -> u8
    ensures { result ≡ flag_of more }
{
    u8::from(more)
}

// How many services are written behind `areas` areas: as many as the sixteen entries leave.
fn services_left(services: usize, areas: usize) -> usize
    requires { areas ≤ most_entries }
    ensures { result ≡ min services (most_entries - areas) }
{
    spans::least(services, 16 - areas)
}

// Writes a code list: flag, area count, code and end of each, service count, codes. A list that counts more than sixteen entries is
// cut to them. The output beyond the message stays as it was.
pub fn put_code_list(list: CodeList, out: &mut [u8]) -> Result<usize, Refusal>
    ensures value { result ≡ message_put (code_list_bytes list) (length out.old) }
    ensures out_after { out.new ≡ message_after (code_list_bytes list) out.old }
{
    let areas = spans::least(list.areas, 16);
    let services = services_left(list.services, areas);
    let size = 3 + 4 * areas + 2 * services;
    // refusal 5
    if message::is_short(out.len(), size) {
        return Err(Refusal::ShortOutput);
    }
    out[0] = flag(list.more);
    out[1] = areas as u8;
    let ranges = list.ranges;
    numbers::put_numbers(out, 2, &ranges[0..2 * areas]);
    let at = 2 + 4 * areas;
    out[at] = services as u8;
    let codes = list.codes;
    numbers::put_numbers(out, at + 1, &codes[0..services]);
    Ok(size)
}

// The count of services that stands behind `areas` areas, or 0 where there is none.
fn services_at(bytes: &[u8], areas: usize) -> usize
    requires { areas ≤ 255 }
    ensures { (result ≡ get_or bytes.now (2 + 4 * areas) 0) × (result ≤ 255) }
{
    numbers::byte_at(bytes, 2 + 4 * areas)
}

// Whether bytes count at most sixteen entries, and there is no byte too few or left over.
#[tactic(auto, unfolding(crate::specs::CodeList::is_counted))]
fn is_counted(bytes: &[u8]) -> bool
    ensures { result ≡ is_counted bytes.now }
{
    let areas = numbers::byte_at(bytes, 1);
    let services = services_at(bytes, areas);
    areas + services <= 16 && bytes.len() == 3 + 4 * areas + 2 * services
}

// Whether bytes are a code list: flag 0 or 1, and what its counts say.
#[tactic(auto, unfolding(crate::specs::CodeList::is_code_list, crate::specs::CodeList::is_counted))]
fn is_code_list(bytes: &[u8]) -> bool
    ensures { result ≡ is_code_list bytes.now }
{
    let first = numbers::byte_at(bytes, 0);
    first <= 1 && is_counted(bytes)
}

// Reads a code list, or refuses with 47. Its codes are not judged.
pub fn read_code_list(bytes: &[u8]) -> Listed
    ensures { result ≡ read_code_list bytes.now }
{
    // refusal 47
    if !is_code_list(bytes) {
        return Listed::refused(Refusal::NotAMessage);
    }
    let first = numbers::byte_at(bytes, 0);
    let areas = numbers::byte_at(bytes, 1);
    let services = services_at(bytes, areas);
    let mut ranges = [0u16; 32];
    numbers::read_numbers(bytes, 2, 2 * areas, &mut ranges[0..32]);
    let mut codes = [0u16; 16];
    numbers::read_numbers(bytes, 3 + 4 * areas, services, &mut codes[0..16]);
    Listed {
        list: CodeList {
            more: first == 1,
            areas,
            ranges,
            services,
            codes,
        },
        answer: Ok(()),
    }
}
