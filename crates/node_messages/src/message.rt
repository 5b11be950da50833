// What a writer says of a message.
ghost use Rattle.std.specs.Prelude.{◌≡◌, ltb};

use answers::refusal::Refusal;

// Whether an output of `room` bytes is too short for a message of `size`.
pub(crate) fn is_short(room: usize, size: usize) -> bool
    ensures { result ≡ ltb room size }
{
    room < size
}
