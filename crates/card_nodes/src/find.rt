// Which node a search finds: repeated codes are accepted, and the first in tree order answers.
ghost use Rattle.std.specs.Prelude.{◌≡◌};
ghost use Rattle.card_nodes.specs.Find.{is_service_of, is_area_of, is_sharer_of, service_of, area_of, shared_of};

use crate::node;
use crate::node::Node;
use service_code::code::ServiceCode;

// Whether `node` is a service of `code`.
pub fn is_service_of(node: Node, code: u16) -> bool
    ensures { result ≡ is_service_of code node }
{
    node.code == code && node::is_service(node.entry)
}

// Whether `node` is an area of `code`.
fn is_area_of(node: Node, code: u16) -> bool
    ensures { result ≡ is_area_of code node }
{
    node.code == code && node::is_area(node.entry)
}

// Whether `node` is a service of the number of `code`.
fn is_sharer_of(node: Node, code: u16) -> bool
    ensures { result ≡ is_sharer_of code node }
{
    ServiceCode(node.code).number() == ServiceCode(code).number() && node::is_service(node.entry)
}

// The first service of `code` among nodes.
pub fn find_service(nodes: &[Node], code: u16) -> Option<usize>
    ensures { result ≡ service_of nodes.now code }
{
    nodes.iter().position(|node| is_service_of(*node, code))
}

// The first area of `code` among nodes.
pub fn find_area(nodes: &[Node], code: u16) -> Option<usize>
    ensures { result ≡ area_of nodes.now code }
{
    nodes.iter().position(|node| is_area_of(*node, code))
}

// The first service of the number of `code`, whose store a later service of that number joins.
pub fn find_shared(nodes: &[Node], code: u16) -> Option<usize>
    ensures { result ≡ shared_of nodes.now code }
{
    nodes.iter().position(|node| is_sharer_of(*node, code))
}
