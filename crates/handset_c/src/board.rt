// The lane board of a card in the caller's bytes.
ghost use Rattle.std.specs.Prelude.{◌≡◌};
ghost use Rattle.handset_bytes.specs.Card.{card_decoded};
ghost use Rattle.handset_words.specs.Board.{refreshed_as, board_made, records_after};

// Reads the eight lanes of the service `code`, in a session, and writes their records to the front of `lanes`, 16 bytes each.
#[unsafe(no_mangle)]
pub extern "C" fn uluvoli_board(card: &[u8], arena: &[u8], code: u16, lanes: &mut [u8]) -> u32
    ensures value { result ≡ refreshed_as (board_made (card_decoded card.now) arena.now code lanes.old) }
    ensures lanes_after { lanes.new ≡ records_after (card_decoded card.now) arena.now code lanes.old }
{
    handset::board::uluvoli_board(card, arena, code, lanes)
}
