// A card read from its bytes.
ghost use Rattle.std.specs.Prelude.{◌≡◌, length};
ghost use Rattle.handset_bytes.specs.Layout.{card_size};
ghost use Rattle.handset_bytes.specs.Card.{system_in, is_headed, no_card, card_decoded};

use crate::{layout, node};
use byte_parts::half;
use card_build::card::{Card, System};
use card_nodes::node::Node;

// What stands for the card of bytes that encode none. It has not even a root, so that every call on it is refusal 8.
#[inline(never)]
fn none() -> Card
    ensures { result ≡ no_card }
{
    let root = Node::root();
    Card {
        nodes: [root; 64],
        count: 0,
        used: 0,
        system: System {
            code: 0,
            version: 0,
            join: false,
        },
    }
}

// Whether there are as many bytes as a card takes, of this layout, with 0 or 1 where they say whether it joins, and at most 64 records.
#[tactic(auto, unfolding(crate::specs::Card::is_headed))]
fn is_headed(bytes: &[u8]) -> bool
    ensures { result ≡ is_headed bytes.now }
{
    bytes.len() == layout::SIZE
        && half::half(bytes, layout::LAYOUT) == layout::NUMBER
        && half::half(bytes, layout::FLAGS) <= 1
        && half::half(bytes, layout::COUNT) <= 64
}

// The system that the header names.
fn system_in(bytes: &[u8]) -> System
    requires { length bytes.now ≡ card_size }
    ensures { result ≡ system_in bytes.now }
{
    System {
        code: half::half(bytes, layout::SYSTEM),
        version: half::half(bytes, layout::KEY),
        join: half::half(bytes, layout::FLAGS) == 1,
    }
}

// The card that `bytes` encode: a card's header, each record taken a node's. No record past the count is looked at, nor whether
// accepted calls build the card.
pub fn decode(bytes: &[u8]) -> Card
    ensures { result ≡ card_decoded bytes.now }
{
    if !is_headed(bytes) {
        return none();
    }
    let count = half::half(bytes, layout::COUNT) as usize;
    let root = Node::root();
    let mut nodes = [root; 64];
    for i in 0..count {
        if !node::is_record(bytes, i) {
            return none();
        }
        nodes[i] = node::read(bytes, i);
    }
    Card {
        nodes,
        count,
        used: half::half(bytes, layout::USED) as usize,
        system: system_in(bytes),
    }
}
