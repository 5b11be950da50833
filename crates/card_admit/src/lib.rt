// What may come under a node: the refusals of a new area and of a new service, in their order, and the store that a service gets.
#![tactic(auto)]

ghost use Rattle.std.specs.Prelude.{◌≡◌};
ghost use Rattle.service_code.specs.Code.{attribute_of};
ghost use Rattle.card_nodes.specs.Node.{end_of};
ghost use Rattle.card_admit.specs.Admit.{is_depth, root_misfit, outside, out_of_range, bars_areas, codes_misfit, range_under, area_under, is_undefined, service_under, same_kind, joined_to, usable, new_store, placed_under, may_join, agreed};

use answers::refusal::Refusal;
use byte_parts::sizes::{BLOCK_SIZE, MOST_BLOCKS};
use card_nodes::node;
use card_nodes::node::{Entry, Node};
use service_code::code::ServiceCode;

// Where a new service's store lies, and the blocks in use after it.
#[derive(Clone, Copy)]
pub struct Placed {
    pub start: u16,
    pub blocks: u16,
    pub used: usize,
}

// Whether a node other than the root may be at `depth`: 1 to 8.
#[tactic(auto, unfolding(crate::specs::Admit::is_depth))]
pub fn is_depth(depth: usize) -> bool
    ensures { result ≡ is_depth depth }
{
    1 <= depth && depth <= 8
}

// Whether area 0000 ends elsewhere than at FFFE.
#[tactic(auto, unfolding(crate::specs::Admit::root_misfit))]
fn root_misfit(code: u16, end: u16) -> bool
    ensures { result ≡ root_misfit code end }
{
    code == 0 && end != 0xfffe
}

// Whether codes from `code` to `end` leave those from `first` to `last`.
#[tactic(auto, unfolding(crate::specs::Admit::outside))]
fn is_outside(code: u16, end: u16, first: u16, last: u16) -> bool
    ensures { result ≡ outside code end first last }
{
    code < first || last < end
}

// Whether an area's code or its end is past FFFE.
#[tactic(auto, unfolding(crate::specs::Admit::out_of_range))]
fn out_of_range(code: u16, end: u16) -> bool
    ensures { result ≡ out_of_range code end }
{
    0xfffe < code || 0xfffe < end
}

// Whether codes from `code` to `end` leave those of a node, from `first` to the end that its entry has.
fn leaves(first: u16, entry: Entry, code: u16, end: u16) -> bool
    ensures { result ≡ outside code end first (end_of entry) }
{
    let last = node::end_of(entry);
    is_outside(code, end, first, last)
}

// Whether no area may come under one of `code`: its low six bits are not 0.
fn bars_areas(code: u16) -> bool
    ensures { result ≡ bars_areas code }
{
    code % 64 != 0
}

// The refusal of an area's code and end by themselves, or none.
#[tactic(auto, unfolding(crate::specs::Admit::codes_misfit))]
fn codes_misfit(code: u16, end: u16) -> Result<(), Refusal>
    ensures { result ≡ codes_misfit code end }
{
    // 13: first the code, then the end
    if out_of_range(code, end) {
        return Err(Refusal::NodeCodeOutOfRange);
    }
    // 12
    if root_misfit(code, end) {
        return Err(Refusal::InvalidRootAreaRange);
    }
    Ok(())
}

// The refusal of the range from `code` to `end` under the node `above`, or none.
#[tactic(auto, unfolding(crate::specs::Admit::range_under))]
fn range_under(above: Node, code: u16, end: u16) -> Result<(), Refusal>
    ensures { result ≡ range_under above code end }
{
    let first = above.code;
    let entry = above.entry;
    // 11
    if end < code {
        return Err(Refusal::InvalidAreaRange);
    }
    // 15
    if bars_areas(first) {
        return Err(Refusal::ChildAreaForbidden);
    }
    // 18
    if leaves(first, entry, code, end) {
        return Err(Refusal::AreaOutOfRange);
    }
    Ok(())
}

// The refusal of an area from `code` to `end` under the node `above`, or none.
#[tactic(auto, unfolding(crate::specs::Admit::area_under, crate::specs::Admit::codes_misfit, crate::specs::Admit::out_of_range, crate::specs::Admit::range_under))]
pub fn area_under(above: Node, code: u16, end: u16) -> Result<(), Refusal>
    ensures { result ≡ area_under above code end }
{
    // 13, 12
    codes_misfit(code, end)?;
    // 14: an area's low six bits are 0 or 1
    if 1 < code % 64 {
        return Err(Refusal::InvalidAreaAttribute);
    }
    // 11, 15, 18
    range_under(above, code, end)
}

// Whether the attribute of `code` is none of those that are defined.
fn is_undefined(code: u16) -> bool
    ensures { result ≡ is_undefined (attribute_of code) }
{
    ServiceCode(code).attribute().is_none()
}

// The refusal of a service of `code` under the node `above`, or none.
#[tactic(auto, unfolding(crate::specs::Admit::service_under))]
fn service_under(above: Node, code: u16) -> Result<(), Refusal>
    ensures { result ≡ service_under above code }
{
    let first = above.code;
    let entry = above.entry;
    // 13
    if code > 0xfffe {
        return Err(Refusal::NodeCodeOutOfRange);
    }
    // 16
    if is_undefined(code) {
        return Err(Refusal::UndefinedServiceAttribute);
    }
    // 17
    if leaves(first, entry, code, code) {
        return Err(Refusal::ServiceOutOfRange);
    }
    Ok(())
}

// Whether two codes are of one kind.
#[tactic(auto, unfolding(crate::specs::Admit::same_kind))]
fn same_kind(a: u16, b: u16) -> bool
    ensures { result ≡ same_kind a b }
{
    ServiceCode(a).kind() == ServiceCode(b).kind()
}

// The store of a later service of a number: that of `first`, with its blocks, whatever count the new one names.
#[tactic(auto, unfolding(crate::specs::Admit::joined_to))]
fn joined_to(first: Node, code: u16, used: usize) -> Result<Placed, Refusal>
    ensures { result ≡ joined_to first code used }
{
    // 19
    if !same_kind(first.code, code) {
        return Err(Refusal::OverlapKindMismatch);
    }
    let entry = first.entry;
    Ok(Placed {
        start: node::start_of(entry),
        blocks: node::blocks_of(entry),
        used,
    })
}

// How many blocks of an arena of `arena_len` bytes can be used.
#[tactic(auto, unfolding(crate::specs::Admit::usable))]
pub fn usable_blocks(arena_len: usize) -> usize
    ensures { result ≡ usable arena_len }
{
    (arena_len / BLOCK_SIZE).min(MOST_BLOCKS)
}

// The store of the first service of a number: `blocks` blocks next after those in use.
fn new_store(used: usize, arena_len: usize, blocks: u32) -> Result<Placed, Refusal>
    ensures { result ≡ new_store used arena_len blocks }
{
    // 22: fewer usable blocks are unused than the store needs
    let usable = usable_blocks(arena_len);
    if usable < used {
        return Err(Refusal::NoRoom);
    }
    if usable - used < blocks as usize {
        return Err(Refusal::NoRoom);
    }
    Ok(Placed {
        start: used as u16,
        blocks: blocks as u16,
        used: used + blocks as usize,
    })
}

// Where the store of a service of `code` under the node `above` lies, or its refusal: with the first of its number, or next after those in use.
pub fn placed_under(
    above: Node,
    first: Option<Node>,
    used: usize,
    arena_len: usize,
    code: u16,
    blocks: u32,
) -> Result<Placed, Refusal>
    ensures { result ≡ placed_under above first used arena_len code blocks }
{
    service_under(above, code)?;
    match first {
        Some(node) => joined_to(node, code, used),
        None => new_store(used, arena_len, blocks),
    }
}

// Whether a store of `own` blocks is given to a service that names `blocks`: any is by a system that joins, and else one of that count.
#[tactic(auto, unfolding(crate::specs::Admit::may_join))]
fn may_join(join: bool, own: u16, blocks: u32) -> bool
    ensures { result ≡ may_join join own blocks }
{
    join || own as u32 == blocks
}

// Where a service that names `blocks` was placed, if the store's count agrees. A new store has the count that was named, so 24 never meets 22.
pub fn agree(join: bool, blocks: u32, placed: Result<Placed, Refusal>) -> Result<Placed, Refusal>
    ensures { result ≡ agreed join blocks placed }
{
    let placed = placed?;
    // 24
    if !may_join(join, placed.blocks, blocks) {
        return Err(Refusal::CountsDiffer);
    }
    Ok(placed)
}
