// What a call of the library returns, as one number (specs/Outcome.antt).
ghost use Rattle.std.specs.Prelude.{◌≡◌};
ghost use Rattle.handset_words.specs.Outcome.{refusal_as, refused_as, answer_as};

use answers::refusal::Refusal;

// The number that a call returns for the refusal with this number.
pub(crate) fn numbered(number: u8) -> u32
    ensures { result ≡ refusal_as number }
{
    65536 * (number as u32)
}

// The number that a call returns for a refusal.
pub fn refused(refusal: Refusal) -> u32
    ensures { result ≡ refused_as refusal }
{
    numbered(refusal.number())
}

// The number that a call returns which is done or refused.
pub(crate) fn answered(answer: Result<(), Refusal>) -> u32
    ensures { result ≡ answer_as answer }
{
    match answer {
        Ok(()) => 0,
        Err(refusal) => refused(refusal),
    }
}
