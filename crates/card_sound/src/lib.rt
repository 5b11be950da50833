// Refusal 8: whether accepted additions and limits produce a card's records.
#![tactic(auto)]

ghost use Rattle.std.specs.Prelude.{◌≡◌, ◌<◌, ◌≤◌, drop};
ghost use Rattle.service_code.specs.Code.{number_of};
ghost use Rattle.card_sound.specs.Sound.{is_root, all_roots, area_step, service_step, sound_of};
ghost use Rattle.card_sound.specs.Walk.{starting, depth_open, deepest_by, first_by, first_after, step_under};

use answers::refusal::Refusal;
use card_admit::Placed;
use card_nodes::node::{Entry, Node};
use service_code::code::ServiceCode;

// Whether a record is the root's, which an unused one is too.
#[tactic(auto, unfolding(crate::specs::Sound::is_root))]
fn is_root(node: Node) -> bool
    ensures { result ≡ is_root node }
{
    let is_whole = matches!(node.entry, Entry::Area { end: 0xfffe });
    node.depth == 0 && node.code == 0 && node.version == 0 && is_whole
}

// The step over an area's record whose addition was judged so: no block more is in use.
fn area_step(used: usize, answer: Result<(), Refusal>) -> Option<usize>
    ensures { result ≡ area_step used answer }
{
    match answer {
        Ok(()) => Some(used),
        Err(_) => None,
    }
}

// The step over a service's record of a start and a count, which must be those of the store that the building gives it.
fn service_step(start: u16, blocks: u16, placed: Result<Placed, Refusal>) -> Option<usize>
    ensures { result ≡ service_step start blocks placed }
{
    let Ok(given) = placed else {
        return None;
    };
    if given.start != start || given.blocks != blocks {
        return None;
    }
    Some(given.used)
}

// Whether a node may come at `depth`: from 1 to 8, and no deeper than those before it leave open.
#[tactic(auto, unfolding(crate::specs::Walk::depth_open))]
fn is_open(depth: usize, deepest: usize) -> bool
    ensures { result ≡ depth_open depth deepest }
{
    card_admit::is_depth(depth) && depth <= deepest
}

// The deepest that `node` leaves open to the next: under an area, beside a service.
fn deepest_by(node: Node) -> usize
    ensures { result ≡ deepest_by node.depth node.entry }
{
    let entry = node.entry;
    match entry {
        Entry::Area { .. } => node.depth as usize + 1,
        Entry::Service { .. } => node.depth as usize,
    }
}

// The first service of a number, which `node` is; none where the root's record stands for it.
fn first_by(node: Node) -> Option<Node>
    ensures { result ≡ first_by node node.entry }
{
    let entry = node.entry;
    match entry {
        Entry::Area { .. } => None,
        Entry::Service { .. } => Some(node),
    }
}

// The index of the first service of a number after `node` of that number at `i`: `f` where there was a first, else `i` for a service.
fn first_after(first: Option<Node>, f: u8, node: Node, i: usize) -> u8
    requires { i < 64 }
    ensures { result ≡ first_after first f node.entry i }
{
    let None = first else {
        return f;
    };
    let entry = node.entry;
    match entry {
        Entry::Area { .. } => f,
        Entry::Service { .. } => i as u8,
    }
}

// The step over `node` under the node `above`, after the first service of its number. The arena is the longest, so that 22 is the card's own limit.
fn step_under(node: Node, above: Node, first: Option<Node>, used: usize) -> Option<usize>
    ensures { result ≡ step_under above first used node.code node.entry }
{
    let entry = node.entry;
    match entry {
        Entry::Area { end } => area_step(used, card_admit::area_under(above, node.code, end)),
        Entry::Service {
            start,
            blocks,
            limit: _,
        } => service_step(
            start,
            blocks,
            card_admit::placed_under(above, first, used, 65536, node.code, blocks as u32),
        ),
    }
}

// The service number of a node's code.
fn number_of(node: Node) -> usize
    ensures { (result ≡ number_of node.code) × (result < 1024) }
{
    ServiceCode(node.code).number() as usize
}

// Whether a count takes one record or more, of at most 64, and the first is the root's.
#[tactic(auto, unfolding(crate::specs::Walk::starting))]
fn starts(count: usize, root: Node) -> bool
    ensures { result ≡ starting count root }
{
    0 < count && count <= 64 && is_root(root)
}

// Whether every record after the first `count` is as an unused one is.
fn all_unused(nodes: [Node; 64], count: usize) -> bool
    requires { count ≤ 64 }
    ensures { result ≡ all_roots (drop count nodes) }
{
    for k in count..64 {
        if !is_root(nodes[k]) {
            return false;
        }
    }
    true
}

// Whether accepted additions and limits produce these records and these blocks in use: no search, each record is judged by what is kept of those before it.
pub fn sound(nodes: [Node; 64], count: usize, used: usize) -> bool
    ensures { result ≡ sound_of nodes count used }
{
    let root = nodes[0];
    if !starts(count, root) {
        return false;
    }
    if !all_unused(nodes, count) {
        return false;
    }
    let mut parents = [0; 10]; // for each depth, the record that a node comes under
    let mut firsts = [0; 1024]; // for each number, the record of its first service, or the root's
    let mut deepest = 1; // the deepest at which a node may come
    let mut now = 0; // the blocks in use
    for i in 1..count {
        let node = nodes[i];
        let depth = node.depth as usize;
        if !is_open(depth, deepest) {
            return false;
        }
        let above = nodes[parents[depth]];
        let number = number_of(node);
        let f = firsts[number];
        let first = first_by(nodes[f as usize]);
        let Some(after) = step_under(node, above, first, now) else {
            return false;
        };
        now = after;
        deepest = deepest_by(node);
        parents[depth + 1] = i;
        firsts[number] = first_after(first, f, node, i);
    }
    now == used
}
