// What may follow the nodes that are there: a new node's parent, and its refusals from 21 on.
ghost use Rattle.std.specs.Prelude.{◌≡◌, take};
ghost use Rattle.card_nodes.specs.Find.{shared_of, parent_of, open_at};
ghost use Rattle.card_admit.specs.Admit.{parent_at, area_judged, first_in, placed_under, placed_of, agreed};

use answers::refusal::Refusal;
use card_admit::Placed;
use card_nodes::node::{Entry, Node};
use card_nodes::{count, find};

// The area under which a new node of `depth` comes: each node that is shallower decides anew.
fn find_parent(nodes: &[Node], depth: u8) -> Option<usize>
    ensures { result ≡ parent_of nodes.now depth }
{
    let mut found = None;
    for (i, node) in nodes.iter().enumerate() {
        if node.depth < depth {
            found = open_at(*node, depth, i);
        }
    }
    found
}

// What `node` at `i`, shallower than a new one of `depth`, decides: it is the parent if it is an area one level up, and else there is none.
#[tactic(auto, unfolding(card_nodes::specs::Find::open_at))]
fn open_at(node: Node, depth: u8, i: usize) -> Option<usize>
    ensures { result ≡ open_at node depth i }
{
    if node.depth as u32 + 1 != depth as u32 {
        return None;
    }
    let entry = node.entry;
    match entry {
        Entry::Area { .. } => Some(i),
        Entry::Service { .. } => None,
    }
}

// The parent of a new node of `depth`; none unless that is from 1 to 8.
#[tactic(auto, unfolding(card_admit::specs::Admit::parent_at), using(card_admit::proofs::Growth::depth_deep))]
fn parent_at(nodes: &[Node], depth: u32) -> Option<usize>
    ensures { result ≡ parent_at nodes.now depth }
{
    if !card_admit::is_depth(depth as usize) {
        return None;
    }
    find_parent(nodes, depth as u8)
}

// The refusal of an area from `code` to `end` at `depth` after `count` nodes, or none.
pub fn judge_area(
    nodes: [Node; 64],
    count: usize,
    depth: u32,
    code: u16,
    end: u16,
) -> Result<(), Refusal>
    ensures { result ≡ area_judged (take count nodes) depth code end }
{
    let nodes = count::records(&nodes, count);
    // 21
    let Some(parent) = parent_at(nodes, depth) else {
        return Err(Refusal::NoParent);
    };
    let above = nodes[parent];
    card_admit::area_under(above, code, end)
}

// The first service of the number of `code` among nodes, or that there is none.
fn first_of(nodes: &[Node], code: u16) -> Option<Node>
    ensures { result ≡ first_in nodes.now (shared_of nodes.now code) }
{
    let j = find::find_shared(nodes, code)?;
    Some(nodes[j])
}

// Where the store of a service of `code` and `blocks` under the node `above` lies, after the first of its number, or its refusal.
fn given_under(
    above: Node,
    first: Option<Node>,
    join: bool,
    used: usize,
    arena_len: usize,
    code: u16,
    blocks: u32,
) -> Result<Placed, Refusal>
    ensures { result ≡ agreed join blocks (placed_under above first used arena_len code blocks) }
{
    let placed = card_admit::placed_under(above, first, used, arena_len, code, blocks);
    card_admit::agree(join, blocks, placed)
}

// Where the store of a service of `code` and `blocks` at `depth` after `count` nodes lies, or its refusal.
#[inline(never)]
pub fn place_service(
    nodes: [Node; 64],
    count: usize,
    join: bool,
    used: usize,
    arena_len: usize,
    depth: u32,
    code: u16,
    blocks: u32,
) -> Result<Placed, Refusal>
    ensures { result ≡ agreed join blocks (placed_of (take count nodes) used arena_len depth code blocks) }
{
    let taken = count::records(&nodes, count);
    // 21
    let Some(p) = parent_at(taken, depth) else {
        return Err(Refusal::NoParent);
    };
    let above = taken[p];
    // lent again, so that a wrong program can change either search alone
    let first = first_of(count::records(&nodes, count), code);
    given_under(above, first, join, used, arena_len, code, blocks)
}
