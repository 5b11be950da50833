// What a line of an inspection is taken for.
#![tactic(auto)]

ghost use Rattle.std.specs.Prelude.{◌≡◌};
ghost use Rattle.inspect_sort.specs.Sort.{later_sort, sort_of};

use inspect_ask::Question;
use replay_kind::Kind;
use replay_state::Phase;

// What a line is taken for: a line of a replay, or a question, which may ask nothing that is known.
#[derive(Clone, Copy)]
pub enum Sort {
    Replayed(Kind),
    Asked(Option<Question>),
}

// What a line after line 1 is taken for, by its first field.
#[tactic(auto, unfolding(crate::specs::Sort::later_sort))]
fn later_sort(line: &[u8]) -> Sort
    ensures { result ≡ later_sort line.now }
{
    if line_image::line::is_image(line) {
        return Sort::Replayed(Kind::Image(false));
    }
    if line_request::is_request(line) {
        return Sort::Replayed(Kind::Request);
    }
    if board_line::is_board(line) {
        return Sort::Replayed(Kind::Board);
    }
    Sort::Asked(inspect_ask::question_of(line))
}

// What a line is taken for where an inspection is; nothing, after the end of the run.
#[tactic(auto, unfolding(crate::specs::Sort::sort_of))]
pub fn sort_of(phase: Phase, line: &[u8]) -> Option<Sort>
    ensures { result ≡ sort_of phase line.now }
{
    match phase {
        Phase::First => Some(Sort::Replayed(Kind::Image(true))),
        // one arm, so that what is called once is compiled into it
        Phase::Image | Phase::Requests => Some(later_sort(line)),
        Phase::Ended => None,
    }
}
