// Whether lists of a mutual authentication are well formed for a card in the caller's bytes.
ghost use Rattle.std.specs.Prelude.{◌≡◌};
ghost use Rattle.card_questions.specs.Keys.{area_list_answer, service_list_answer};
ghost use Rattle.handset_bytes.specs.Card.{card_decoded};
ghost use Rattle.handset_words.specs.Checked.{checked_as, checked_after};

use crate::outcome;
use answers::refusal::Refusal;
use card_questions::keys;
use handset_bytes::decoding;

// Writes to `out` whether a list is well formed, unless the check was refused, and gives what the call returns.
fn checked(answer: Result<bool, Refusal>, out: &mut bool) -> u32
    ensures value { result ≡ checked_as answer }
    ensures out_after { out.new ≡ checked_after out.old answer }
{
    match answer {
        Err(refusal) => outcome::refused(refusal),
        Ok(true) => {
            *out = true;
            0
        }
        Ok(false) => {
            *out = false;
            0
        }
    }
}

// Tells in `well_formed` whether `areas` is a well formed area list.
#[unsafe(no_mangle)]
pub extern "C" fn uluvoli_area_list(card: &[u8], areas: &[u16], well_formed: &mut bool) -> u32
    ensures value { result ≡ checked_as (area_list_answer (card_decoded card.now) areas.now) }
    ensures well_formed_after { well_formed.new ≡ checked_after well_formed.old (area_list_answer (card_decoded card.now) areas.now) }
{
    let own = decoding::decode(card);
    checked(keys::area_list_well_formed(own, areas), well_formed)
}

// Tells in `well_formed` whether `services` is a well formed service list.
#[unsafe(no_mangle)]
pub extern "C" fn uluvoli_service_list(card: &[u8], services: &[u16], well_formed: &mut bool) -> u32
    ensures value { result ≡ checked_as (service_list_answer (card_decoded card.now) services.now) }
    ensures well_formed_after { well_formed.new ≡ checked_after well_formed.old (service_list_answer (card_decoded card.now) services.now) }
{
    let own = decoding::decode(card);
    checked(keys::service_list_well_formed(own, services), well_formed)
}
