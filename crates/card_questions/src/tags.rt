// Tags of nodes: a number for each that says its code and whether it is a service, so that a search by code goes over lent numbers.
ghost use Rattle.std.specs.Prelude.{◌≡◌, true, false, map};
ghost use Rattle.card_questions.specs.Tags.{tag_as, tag_of, first_tag};

use card_nodes::node;
use card_nodes::node::Node;

// The tag of a service or an area of `code`.
fn tag(code: u16, service: bool) -> u32
    ensures { result ≡ tag_as code service }
{
    let twice = 2 * (code as u32);
    if service { twice + 1 } else { twice }
}

// The tag of `node`.
fn tag_of(node: Node) -> u32
    ensures { result ≡ tag_of node }
{
    tag(node.code, node::is_service(node.entry))
}

// The tags of the 64 records.
pub fn tags_of(nodes: [Node; 64]) -> [u32; 64]
    ensures { result ≡ map tag_of nodes }
{
    let mut tags = [0u32; 64];
    for (i, node) in nodes.iter().enumerate() {
        tags[i] = tag_of(*node);
    }
    tags
}

// The first place of `sought` among `tags`.
fn first_tag(tags: &[u32], sought: u32) -> Option<usize>
    ensures { result ≡ first_tag sought 0 tags.now }
{
    tags.iter().position(|tag| *tag == sought)
}

// The first service of `code` among nodes, by their tags.
pub(crate) fn service_at(tags: &[u32], code: u16) -> Option<usize>
    ensures { result ≡ first_tag (tag_as code true) 0 tags.now }
{
    first_tag(tags, tag(code, true))
}

// The first area of `code` among nodes, by their tags.
pub fn area_at(tags: &[u32], code: u16) -> Option<usize>
    ensures { result ≡ first_tag (tag_as code false) 0 tags.now }
{
    first_tag(tags, tag(code, false))
}
