// The value of a card, a new one, and the tests of refusals 8 and 7.
ghost use Rattle.std.specs.Prelude.{◌≡◌};
ghost use Rattle.card_build.specs.Card.{of_one, new_card, is_sound, too_short, is_short};

use answers::refusal::Refusal;
use byte_parts::sizes::BLOCK_SIZE;
use card_nodes::node::Node;

// The system of a card: its code, its key version, and whether a service may join a store of another block count.
#[derive(Clone, Copy)]
pub struct System {
    pub code: u16,
    pub version: u16,
    pub join: bool,
}

// A card: 64 records of which `count` are taken, root first, and how many blocks of the arena are in use.
#[derive(Clone, Copy)]
pub struct Card {
    pub nodes: [Node; 64],
    pub count: usize,
    pub used: usize,
    pub system: System,
}

// A card handed back, and how the call on it ended. A struct and no Result: a refused call hands the card back too, and laws of the crates above name both fields.
#[derive(Clone, Copy)]
pub struct Added {
    pub card: Card,
    pub answer: Result<(), Refusal>,
}

// Whether so many bytes are too few for a number of blocks.
pub fn too_short(bytes: usize, blocks: usize) -> bool
    ensures { result ≡ too_short bytes blocks }
{
    bytes / BLOCK_SIZE < blocks
}

// Whether an arena of `arena_len` bytes is shorter than the blocks in use; if so, every call that is lent it is refused with 7.
pub fn is_short(arena_len: usize, used: usize) -> bool
    ensures { result ≡ is_short arena_len used }
{
    too_short(arena_len, used)
}

impl Card {
    // A card of a system whose records all read `node`: the first is taken, and no block is in use.
    fn of_one(node: Node, system: System) -> Self
        ensures { result ≡ of_one node system }
    {
        Self {
            nodes: [node; 64],
            count: 1,
            used: 0,
            system,
        }
    }

    // A card of a system with nothing but its root.
    pub fn new(system: System) -> Self
        ensures { result ≡ new_card system }
    {
        Self::of_one(Node::root(), system)
    }

    // Whether accepted additions and limits produce this card; if not, every call is refused with 8.
    pub fn is_sound(self) -> bool
        ensures { result ≡ is_sound self }
    {
        let nodes = self.nodes;
        card_sound::sound(nodes, self.count, self.used)
    }
}
