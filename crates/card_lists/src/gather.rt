// The children of an area, counted, and those of one packet gathered, in one walk over the nodes under it.
ghost use Rattle.std.specs.Prelude.{◌≡◌, ◌+◌, ◌<◌, min, leb, take, drop, get_or};
ghost use Rattle.card_nodes.specs.Node.{root_node};
ghost use Rattle.card_lists.specs.Gather.{nothing_gathered, area_gathered, service_gathered, child_added, node_added, gathered_from};

use card_nodes::count;
use card_nodes::node::{Entry, Node};
use node_messages::code_list::CodeList;

// The children gathered for a packet, and how many children were seen.
#[derive(Clone, Copy)]
pub struct Gathered {
    pub list: CodeList,
    pub children: usize,
}

// Whether a packet has its sixteen entries, areas and services together.
fn is_full(areas: usize, services: usize) -> bool
    ensures { result ≡ leb 16 (areas + services) }
{
    16 <= areas || 16 - areas <= services
}

// Adds an area to a packet: its code and its end.
fn add_area(mut list: CodeList, code: u16, end: u16) -> CodeList
    requires { list.areas < 16 }
    ensures { result ≡ area_gathered list code end }
{
    let at = 2 * list.areas;
    list.ranges[at] = code;
    list.ranges[at + 1] = end;
    list.areas += 1;
    list
}

// Adds a service to a packet.
fn add_service(mut list: CodeList, code: u16) -> CodeList
    requires { list.services < 16 }
    ensures { result ≡ service_gathered list code }
{
    let at = list.services;
    list.codes[at] = code;
    list.services += 1;
    list
}

// Adds a child to a packet, unless that is full.
fn add_child(list: CodeList, child: Node) -> CodeList
    ensures { result ≡ child_added list child }
{
    if is_full(list.areas, list.services) {
        return list;
    }
    let entry = child.entry;
    match entry {
        Entry::Area { end } => add_area(list, child.code, end),
        Entry::Service { .. } => add_service(list, child.code),
    }
}

// Counts a node under an area of `depth` that is a child, and adds it to the packet unless `first` children have not yet been seen.
fn add_node(held: Gathered, node: Node, depth: u8, first: usize) -> Gathered
    requires { held.children < 64 }
    ensures { result ≡ node_added depth first held node }
{
    if node.depth as u32 != depth as u32 + 1 {
        return held;
    }
    let list = held.list;
    if held.children < first {
        return Gathered {
            list,
            children: held.children + 1,
        };
    }
    Gathered {
        list: add_child(list, node),
        children: held.children + 1,
    }
}

// Gathers the packet of the children of the area at `at` that comes after the `first` of them.
pub(crate) fn gather(nodes: [Node; 64], count: usize, at: usize, first: usize) -> Gathered
    requires { at < min count 64 }
    ensures { result ≡ gathered_from (get_or nodes at root_node).depth first nothing_gathered (drop (at + 1) (take count nodes)) }
{
    let n = count::taken(count);
    let above = nodes[at];
    let mut held = Gathered {
        list: CodeList::empty(),
        children: 0,
    };
    for i in at + 1..n {
        let node = nodes[i];
        if node.depth <= above.depth {
            return held;
        }
        held = add_node(held, node, above.depth, first);
    }
    held
}
