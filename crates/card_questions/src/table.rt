// The preorder table of a card as columns of numbers, so that a recursion over it lends the same few slices on and no call copies 64 records.
ghost use Rattle.std.specs.Prelude.{◌≡◌, map};
ghost use Rattle.card_questions.specs.Directory.{second_of};
ghost use Rattle.card_questions.specs.Table.{cell_of};

use card_nodes::node;
use card_nodes::node::{Entry, Node};

// What a column has of each node: its depth, its code, the second number of its pair, the blocks of its store.
// An enum and no closure: the laws of proofs/Columns.antt name the column, so a closure would leave this type in specs/ and ask a clause of each caller.
#[derive(Clone, Copy)]
pub(crate) enum Column {
    Depth,
    Code,
    Second,
    Blocks,
}

// The second number of a node's pair: an area's end, or FFFF for a service.
fn second(entry: Entry) -> u16
    ensures { result ≡ second_of entry }
{
    match entry {
        Entry::Area { end } => end,
        Entry::Service { .. } => 0xffff,
    }
}

// What `column` has of `node`.
fn cell(node: Node, column: Column) -> u16
    ensures { result ≡ cell_of column node }
{
    let entry = node.entry;
    match column {
        Column::Depth => node.depth as u16,
        Column::Code => node.code,
        Column::Second => second(entry),
        Column::Blocks => node::blocks_of(entry),
    }
}

// The whole `column`, over the 64 records.
pub(crate) fn column_of(nodes: [Node; 64], column: Column) -> [u16; 64]
    ensures { result ≡ map (cell_of column) nodes }
{
    let mut cells = [0u16; 64];
    for (i, node) in nodes.iter().enumerate() {
        cells[i] = cell(*node, column);
    }
    cells
}
