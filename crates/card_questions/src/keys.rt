// Key versions, and the two lists that a mutual authentication names.
ghost use Rattle.std.specs.Prelude.{◌≡◌, cond, take};
ghost use Rattle.card_questions.specs.Tags.{OfTags};
ghost use Rattle.card_questions.specs.declared.keys.ListNode.TheVariants.{Keyed, KeyFree};
ghost use Rattle.card_questions.specs.Keys.{version_of, area_or_system, area_list_of, list_node_of, service_list_of, version_answer, area_list_answer, service_list_answer};

use crate::tags;
use answers::refusal::Refusal;
use card_build::card::Card;
use card_nodes::node::Node;
use card_nodes::{count, find};
use service_code::code::ServiceCode;

// What an entry of a service list names.
#[derive(Clone, Copy)]
pub enum ListNode {
    Keyed,
    KeyFree,
    Unknown,
}

// The key version of `code`: the system's for FFFF, else a service's, else an area's, else FFFF.
fn key_version(nodes: &[Node], system: u16, code: u16) -> u16
    ensures { result ≡ version_of nodes.now system code }
{
    if code == 0xffff {
        return system;
    }
    if let Some(i) = find::find_service(nodes, code) {
        return nodes[i].version;
    }
    if let Some(i) = find::find_area(nodes, code) {
        return nodes[i].version;
    }
    0xffff
}

// Whether `code` is an area's among nodes of these tags, or FFFF for the system.
fn area_or_system(tags: &[u32], code: u16) -> bool
    ensures { OfTags tags.now (λ ns. result ≡ area_or_system ns code) }
{
    code == 0xffff || tags::area_at(tags, code).is_some()
}

// Whether an area list is well formed among nodes of these tags: first an existing area, each later one an area or FFFF.
fn areas_tagged(tags: &[u32], areas: &[u16]) -> bool
    ensures { OfTags tags.now (λ ns. result ≡ area_list_of ns areas.now) }
{
    if areas.len() == 0 {
        return false;
    }
    if tags::area_at(tags, areas[0]).is_none() {
        return false;
    }
    for i in 1..areas.len() {
        if !area_or_system(tags, areas[i]) {
            return false;
        }
    }
    true
}

// Whether an area list is well formed among `count` nodes.
fn area_list(nodes: [Node; 64], count: usize, areas: &[u16]) -> bool
    ensures { result ≡ area_list_of (take count nodes) areas.now }
{
    let n = count::taken(count);
    let tags = tags::tags_of(nodes);
    areas_tagged(&tags[0..n], areas)
}

// A node that a service list names: keyed or key-free.
fn listed(keyed: bool) -> ListNode
    ensures { result ≡ cond keyed Keyed KeyFree }
{
    if keyed {
        ListNode::Keyed
    } else {
        ListNode::KeyFree
    }
}

// What `code` in a service list names among nodes of these tags. The system and areas are keyed whatever their low bit is, a service by its
// code's.
fn list_node(tags: &[u32], code: u16) -> ListNode
    ensures { OfTags tags.now (λ ns. result ≡ list_node_of ns code) }
{
    if code == 0xffff {
        return ListNode::Keyed;
    }
    let keyed = ServiceCode(code).requires_key();
    if tags::service_at(tags, code).is_some() {
        return listed(keyed);
    }
    if tags::area_at(tags, code).is_some() {
        return listed(true);
    }
    ListNode::Unknown
}

// Whether a service list is well formed among nodes of these tags: each resolves, no keyed entry follows a key-free one, at least one is
// keyed.
fn services_tagged(tags: &[u32], services: &[u16]) -> bool
    ensures { OfTags tags.now (λ ns. result ≡ service_list_of ns services.now) }
{
    let mut has_keyed = false;
    let mut seen_free = false;
    for code in services {
        match list_node(tags, *code) {
            ListNode::Keyed => {
                if seen_free {
                    return false;
                }
                has_keyed = true;
            }
            ListNode::KeyFree => {
                seen_free = true;
            }
            ListNode::Unknown => {
                return false;
            }
        }
    }
    has_keyed
}

// Whether a service list is well formed among `count` nodes.
fn service_list(nodes: [Node; 64], count: usize, services: &[u16]) -> bool
    ensures { result ≡ service_list_of (take count nodes) services.now }
{
    let n = count::taken(count);
    let tags = tags::tags_of(nodes);
    services_tagged(&tags[0..n], services)
}

// The key version of the node of `code`, or refusal 8.
#[tactic(auto, unfolding(crate::specs::Keys::version_answer))]
pub fn node_key_version(card: Card, code: u16) -> Result<u16, Refusal>
    ensures { result ≡ version_answer card code }
{
    if card.is_sound() {
        let nodes = card.nodes;
        let taken = count::records(&nodes, card.count);
        Ok(key_version(taken, card.system.version, code))
    } else {
        Err(Refusal::NotBuilt)
    }
}

// Whether the area list is well formed, or refusal 8.
#[tactic(auto, using(crate::proofs::Lists::checked), unfolding(crate::specs::Keys::area_list_answer))]
pub fn area_list_well_formed(card: Card, areas: &[u16]) -> Result<bool, Refusal>
    ensures { result ≡ area_list_answer card areas.now }
{
    if !card.is_sound() {
        return Err(Refusal::NotBuilt);
    }
    let nodes = card.nodes;
    Ok(area_list(nodes, card.count, areas))
}

// Whether the service list is well formed, or refusal 8.
#[tactic(auto, using(crate::proofs::Lists::checked), unfolding(crate::specs::Keys::service_list_answer))]
pub fn service_list_well_formed(card: Card, services: &[u16]) -> Result<bool, Refusal>
    ensures { result ≡ service_list_answer card services.now }
{
    if !card.is_sound() {
        return Err(Refusal::NotBuilt);
    }
    let nodes = card.nodes;
    Ok(service_list(nodes, card.count, services))
}
