// What a line of a replay is taken for.
#![tactic(auto)]

ghost use Rattle.std.specs.Prelude.{◌≡◌};
ghost use Rattle.replay_kind.specs.Kind.{image_kind, request_kind, taken_for};

use replay_state::Phase;

// What a line is taken for: an image line, the first or a later one; a request; or a refresh of the lane board.
#[derive(Clone, Copy)]
pub enum Kind {
    Image(bool),
    Request,
    Board,
}

// What a later line of the image is taken for: the first refresh or request ends it.
#[tactic(auto, unfolding(crate::specs::Kind::image_kind))]
fn image_kind(line: &[u8]) -> Kind
    ensures { result ≡ image_kind line.now }
{
    if board_line::is_board(line) {
        return Kind::Board;
    }
    if line_request::is_request(line) {
        return Kind::Request;
    }
    Kind::Image(false)
}

// What a line after the image is taken for: what is no refresh is a request.
#[tactic(auto, unfolding(crate::specs::Kind::request_kind))]
fn request_kind(line: &[u8]) -> Kind
    ensures { result ≡ request_kind line.now }
{
    if board_line::is_board(line) {
        Kind::Board
    } else {
        Kind::Request
    }
}

// What a line is taken for where a replay is, by its first field; nothing, after the end of the run.
#[tactic(auto, unfolding(crate::specs::Kind::taken_for))]
pub fn kind_of(phase: Phase, line: &[u8]) -> Option<Kind>
    ensures { result ≡ taken_for phase line.now }
{
    match phase {
        Phase::First => Some(Kind::Image(true)),
        Phase::Image => Some(image_kind(line)),
        Phase::Requests => Some(request_kind(line)),
        Phase::Ended => None,
    }
}
