// The same messages, read by a program that has their bytes.
ghost use Rattle.std.specs.Prelude.{◌≡◌, Bool, ◌&&◌, ℕ, ◌*◌, ◌≤◌, leb, length};
ghost use Rattle.byte_parts.specs.Part.{put};
ghost use Rattle.node_messages.specs.CodeList.{read_code_list};
ghost use Rattle.node_messages.specs.Information.{read_information};
ghost use Rattle.handset_words.specs.Outcome.{answer_as};
ghost use Rattle.handset_words.specs.Message.{told_by, numbers_told, roomed, list_read, information_read};

use crate::outcome;
use answers::refusal::Refusal;
use node_messages::{code_list, information};

// Whether two lists find room in the parts that are there for them.
fn both_fit(first: usize, room: usize, second: usize, rest: usize) -> bool
    ensures { result ≡ (leb first room && leb second rest) }
{
    if room < first {
        return false;
    }
    second <= rest
}

// A reader's answer: its own refusal, or 5 where one of its two lists finds no room.
fn judged(
    answer: Result<(), Refusal>,
    first: usize,
    room: usize,
    second: usize,
    rest: usize,
) -> Result<(), Refusal>
    ensures { result ≡ roomed answer first room second rest }
{
    let both = both_fit(first, room, second, rest);
    match answer {
        Err(refusal) => Err(refusal),
        Ok(()) => {
            if both {
                return Ok(());
            }
            Err(Refusal::ShortOutput)
        }
    }
}

// Writes the first `n` of `numbers` to the front of `to`.
fn fill(numbers: &[u16], n: usize, to: &mut [u16])
    requires { (n ≤ length numbers.now) × (n ≤ length to.old) }
    ensures { to.new ≡ put to.old 0 n numbers.now }
{
    for i in 0..n {
        to[i] = numbers[i];
    }
}

// Reads a code list. Code and end of each area go to the front of `areas`, the codes of the services to the front of `services`;
// their counts and the flag are told beside them.
#[unsafe(no_mangle)]
pub extern "C" fn uluvoli_read_code_list(
    message: &[u8],
    areas: &mut [u16],
    services: &mut [u16],
    area_count: &mut usize,
    service_count: &mut usize,
    more: &mut bool,
) -> u32
    ensures value { result ≡ answer_as (list_read message.now (length areas.old) (length services.old)) }
    ensures areas_after { let l = (read_code_list message.now).list in areas.new ≡ numbers_told (list_read message.now (length areas.old) (length services.old)) areas.old (2 * l.areas) l.ranges }
    ensures services_after { let l = (read_code_list message.now).list in services.new ≡ numbers_told (list_read message.now (length areas.old) (length services.old)) services.old l.services l.codes }
    ensures area_count_after { area_count.new ≡ told_by {A = ℕ} (list_read message.now (length areas.old) (length services.old)) area_count.old (read_code_list message.now).list.areas }
    ensures service_count_after { service_count.new ≡ told_by {A = ℕ} (list_read message.now (length areas.old) (length services.old)) service_count.old (read_code_list message.now).list.services }
    ensures more_after { more.new ≡ told_by {A = Bool} (list_read message.now (length areas.old) (length services.old)) more.old (read_code_list message.now).list.more }
{
    let read = code_list::read_code_list(message);
    let list = read.list;
    let said = read.answer;
    let answer = judged(
        said,
        2 * list.areas,
        areas.len(),
        list.services,
        services.len(),
    );
    match answer {
        Err(refusal) => outcome::refused(refusal),
        Ok(()) => {
            let ranges = list.ranges;
            fill(&ranges[0..32], 2 * list.areas, areas);
            let codes = list.codes;
            fill(&codes[0..16], list.services, services);
            *area_count = list.areas;
            *service_count = list.services;
            *more = list.more;
            0
        }
    }
}

// Reads block information. The assigned counts go to the front of `assigned`, the free ones to the front of `free`, and `nodes` tells how
// many nodes they are of.
#[unsafe(no_mangle)]
pub extern "C" fn uluvoli_read_block_information(
    message: &[u8],
    assigned: &mut [u16],
    free: &mut [u16],
    nodes: &mut usize,
) -> u32
    ensures value { result ≡ answer_as (information_read message.now (length assigned.old) (length free.old)) }
    ensures assigned_after { let t = (read_information message.now).told in assigned.new ≡ numbers_told (information_read message.now (length assigned.old) (length free.old)) assigned.old t.count t.assigned }
    ensures free_after { let t = (read_information message.now).told in free.new ≡ numbers_told (information_read message.now (length assigned.old) (length free.old)) free.old t.count t.free }
    ensures nodes_after { nodes.new ≡ told_by {A = ℕ} (information_read message.now (length assigned.old) (length free.old)) nodes.old (read_information message.now).told.count }
{
    let read = information::read_information(message);
    let told = read.told;
    let said = read.answer;
    let answer = judged(said, told.count, assigned.len(), told.count, free.len());
    match answer {
        Err(refusal) => outcome::refused(refusal),
        Ok(()) => {
            let counts = told.assigned;
            fill(&counts[0..32], told.count, assigned);
            let unused = told.free;
            fill(&unused[0..32], told.count, free);
            *nodes = told.count;
            0
        }
    }
}
