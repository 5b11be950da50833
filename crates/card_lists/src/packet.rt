// The code list of an area: its direct children in tree order, sixteen to a packet.
ghost use Rattle.std.specs.Prelude.{◌≡◌, ◌*◌, length, take};
ghost use Rattle.card_laws.specs.Children.{area_named};
ghost use Rattle.card_lists.specs.Packet.{past_end, list_more, list_found, code_list_of, code_list_put, code_list_out};

use crate::{area, gather};
use answers::refusal::Refusal;
use card_build::card::Card;
use card_nodes::count;
use card_nodes::node::Node;
use node_messages::code_list;
use node_messages::code_list::{CodeList, Listed};

// How many children come ahead of those of a packet.
fn passed(packet: u32) -> usize
    ensures { result ≡ 16 * packet }
{
    16 * packet as usize
}

// Whether a packet lies past the end of so many children. Packet 0 never does.
#[tactic(auto, unfolding(crate::specs::Packet::past_end))]
fn is_past_end(packet: u32, children: usize) -> bool
    ensures { result ≡ past_end packet children }
{
    if packet == 0 {
        return false;
    }
    children <= passed(packet)
}

// A packet, with its flag.
fn told(mut list: CodeList, more: bool) -> Listed
    ensures { result ≡ list_more list more }
{
    list.more = more;
    Listed {
        list,
        answer: Ok(()),
    }
}

// A packet of the children of the area of `parent`, or refusal 44 or 45.
fn packet_under(nodes: [Node; 64], count: usize, parent: u16, packet: u32) -> Listed
    ensures { result ≡ list_found (take count nodes) packet (area_named (take count nodes) parent) }
{
    // 44
    let Some(at) = area::area_named(count::records(&nodes, count), parent) else {
        return Listed::refused(Refusal::ParentNoArea);
    };
    let first = passed(packet);
    let held = gather::gather(nodes, count, at, first);
    // 45
    if is_past_end(packet, held.children) {
        return Listed::refused(Refusal::PacketPastEnd);
    }
    told(held.list, first + 16 < held.children)
}

// A packet of the children of the area of `parent`: children 16 · packet to 16 · packet + 15, areas and services apart, and whether
// more follow. Refusals 8, 44, 45.
#[tactic(auto, unfolding(crate::specs::Packet::code_list_of))]
pub fn code_list(card: Card, parent: u16, packet: u32) -> Listed
    ensures { result ≡ code_list_of card parent packet }
{
    // 8
    if !card.is_sound() {
        return Listed::refused(Refusal::NotBuilt);
    }
    let nodes = card.nodes;
    packet_under(nodes, card.count, parent, packet)
}

// The same packet as bytes. Refusals 8, 44, 45, 5; the output beyond the message stays as it was.
pub fn put_code_list(card: Card, parent: u16, packet: u32, out: &mut [u8]) -> Result<usize, Refusal>
    ensures value { result ≡ code_list_put card parent packet (length out.old) }
    ensures out_after { out.new ≡ code_list_out card parent packet out.old }
{
    let asked = code_list(card, parent, packet);
    // no `?`, which has no arm that a wrong program could change
    match asked.answer {
        Err(refusal) => Err(refusal),
        Ok(()) => code_list::put_code_list(asked.list, out),
    }
}
