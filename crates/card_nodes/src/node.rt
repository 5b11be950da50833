// One record of a card, an area or a service, and what its case holds.
ghost use Rattle.std.specs.Prelude.{◌≡◌};
ghost use Rattle.card_nodes.specs.Node.{root_node, is_area, is_service, end_of, start_of, blocks_of};

use service_code::limit::Limit;

// What a node is: an area to the end of its codes, or a service over a store of blocks.
// RULES 5.2
#[derive(Clone, Copy)]
pub enum Entry {
    Area {
        end: u16,
    },
    Service {
        start: u16,
        blocks: u16,
        limit: Option<Limit>,
    },
}

// A node of the tree, at its depth; the root's is 0.
// RULES 5.2
#[derive(Clone, Copy)]
pub struct Node {
    pub depth: u8,
    pub code: u16,
    pub version: u16,
    pub entry: Entry,
}

impl Node {
    // Area 0, which holds all others, and what an unused record reads.
    pub fn root() -> Self
        ensures { result ≡ root_node }
    {
        Node {
            depth: 0,
            code: 0,
            version: 0,
            entry: Entry::Area { end: 0xfffe },
        }
    }
}

// Whether an entry is an area's.
pub fn is_area(entry: Entry) -> bool
    ensures { result ≡ is_area entry }
{
    matches!(entry, Entry::Area { .. })
}

// Whether an entry is a service's.
pub fn is_service(entry: Entry) -> bool
    ensures { result ≡ is_service entry }
{
    matches!(entry, Entry::Service { .. })
}

// The last code of an area; 0 of a service, which has no codes under it.
pub fn end_of(entry: Entry) -> u16
    ensures { result ≡ end_of entry }
{
    match entry {
        Entry::Area { end } => end,
        Entry::Service { .. } => 0,
    }
}

// The first block of a service's store; 0 of an area, which has none.
pub fn start_of(entry: Entry) -> u16
    ensures { result ≡ start_of entry }
{
    match entry {
        Entry::Area { .. } => 0,
        Entry::Service { start, .. } => start,
    }
}

// How many blocks a service's store has; 0 of an area.
pub fn blocks_of(entry: Entry) -> u16
    ensures { result ≡ blocks_of entry }
{
    match entry {
        Entry::Area { .. } => 0,
        Entry::Service { blocks, .. } => blocks,
    }
}
