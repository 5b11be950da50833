// Whether lists of a mutual authentication are well formed for a card in the caller's bytes.
ghost use Rattle.std.specs.Prelude.{◌≡◌};
ghost use Rattle.card_questions.specs.Keys.{area_list_answer, service_list_answer};
ghost use Rattle.handset_bytes.specs.Card.{card_decoded};
ghost use Rattle.handset_words.specs.Checked.{checked_as, checked_after};

// Tells in `well_formed` whether `areas` is a well formed area list.
#[unsafe(no_mangle)]
pub extern "C" fn uluvoli_area_list(card: &[u8], areas: &[u16], well_formed: &mut bool) -> u32
    ensures value { result ≡ checked_as (area_list_answer (card_decoded card.now) areas.now) }
    ensures well_formed_after { well_formed.new ≡ checked_after well_formed.old (area_list_answer (card_decoded card.now) areas.now) }
{
    handset::lists::uluvoli_area_list(card, areas, well_formed)
}

// Tells in `well_formed` whether `services` is a well formed service list.
#[unsafe(no_mangle)]
pub extern "C" fn uluvoli_service_list(card: &[u8], services: &[u16], well_formed: &mut bool) -> u32
    ensures value { result ≡ checked_as (service_list_answer (card_decoded card.now) services.now) }
    ensures well_formed_after { well_formed.new ≡ checked_after well_formed.old (service_list_answer (card_decoded card.now) services.now) }
{
    handset::lists::uluvoli_service_list(card, services, well_formed)
}
