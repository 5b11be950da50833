// What is settled of a request before a stored byte is looked at.
ghost use Rattle.std.specs.Prelude.{◌≡◌};
ghost use Rattle.request_plan.specs.Plan.{judged_with};
ghost use Rattle.request_serve.specs.Steps.{Looked};

use answers::status::Failure;
use card_build::card::Card;
use card_nodes::count;
use request_check::table::Table;
use request_check::{table, walk};
use request_plan::{Judged, Sizes};

// How a request and what is lent to it are judged, how its elements are checked, and what its codes come to.
#[derive(Clone, Copy)]
pub(crate) struct Settled {
    pub judged: Judged,
    pub checked: Result<(), Failure>,
    pub table: Table,
}

// Settles a request to a card that is `sound` or not: its codes are looked up, and its list is walked, once.
pub(crate) fn settle(
    sound: bool,
    card: Card,
    write: bool,
    open: bool,
    codes: &[u16],
    list: &[u8],
    sizes: Sizes,
) -> Settled
    ensures { (result.judged ≡ judged_with sound write list.now sizes) × Looked card write «open» codes.now list.now sizes.count result }
{
    let nodes = count::records(&card.nodes, card.count);
    let table = table::table_of(nodes, codes);
    let walked = walk::check_all(table, write, open, list, sizes.count);
    let judged = request_plan::judge(sound, write, walked.ends, sizes);
    Settled {
        judged,
        checked: walked.checked,
        table,
    }
}
