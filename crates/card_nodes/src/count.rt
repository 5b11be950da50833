// Which of the 64 records of a card are taken.
ghost use Rattle.std.specs.Prelude.{◌≡◌, min, take};

use crate::node::Node;
use byte_parts::spans;

// How many of the 64 records `count` takes: no more than there are.
pub fn taken(count: usize) -> usize
    ensures { result ≡ min count 64 }
{
    spans::least(count, 64)
}

// The records that `count` takes.
pub fn records<'a>(nodes: &'a [Node; 64], count: usize) -> &'a [Node]
    ensures { result.now ≡ take count nodes.now }
{
    &nodes[0..taken(count)]
}
