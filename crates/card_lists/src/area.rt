// The area that a code names.
ghost use Rattle.std.specs.Prelude.{◌≡◌};
ghost use Rattle.card_laws.specs.Children.{area_named};

use card_nodes::find;
use card_nodes::node::Node;

// The first area of `code` among nodes. FFFF names the system, which is no area.
#[tactic(auto, unfolding(card_laws::specs::Children::area_named))]
pub(crate) fn area_named(nodes: &[Node], code: u16) -> Option<usize>
    ensures { result ≡ area_named nodes.now code }
{
    if code == 0xffff {
        return None;
    }
    find::find_area(nodes, code)
}
