// A card written to its bytes.
ghost use Rattle.std.specs.Prelude.{◌≡◌, length};
ghost use Rattle.byte_parts.specs.Values.{flag_of};
ghost use Rattle.handset_bytes.specs.Layout.{card_size};
ghost use Rattle.handset_bytes.specs.Field.{fields_put};
ghost use Rattle.handset_bytes.specs.Card.{head_fields, zero_bytes, card_put};

use crate::{layout, node};
use byte_parts::{half, spans};
use card_build::card::Card;
use card_nodes::count;

// Yes or no as a number.
fn flag(yes: bool) -> usize
    ensures { result ≡ flag_of yes }
{
    usize::from(yes)
}

// Makes all bytes 0.
fn clear(bytes: &mut [u8])
    ensures { bytes.new ≡ zero_bytes (length bytes.old) }
{
    spans::zero(bytes, 0, bytes.len());
}

// Writes the header of `card`: count, blocks in use, system code, key version, whether it joins, and the layout's number.
fn write_head(card: Card, bytes: &mut [u8])
    requires { length bytes.old ≡ card_size }
    ensures { bytes.new ≡ fields_put (head_fields card) bytes.old }
{
    half::put_half(bytes, layout::COUNT, card.count);
    half::put_half(bytes, layout::USED, card.used);
    half::put_half(bytes, layout::SYSTEM, card.system.code as usize);
    half::put_half(bytes, layout::KEY, card.system.version as usize);
    half::put_half(bytes, layout::FLAGS, flag(card.system.join));
    half::put_half(bytes, layout::LAYOUT, layout::NUMBER as usize);
}

// Writes `card` to its bytes; those that are no part of it become 0. Bytes of another length than a card's stay as they were.
pub fn encode(card: Card, bytes: &mut [u8])
    ensures { bytes.new ≡ card_put card bytes.old }
{
    if bytes.len() != layout::SIZE {
        return;
    }
    clear(bytes);
    write_head(card, bytes);
    let taken = count::taken(card.count);
    for i in 0..taken {
        node::write(card.nodes[i], bytes, i);
    }
}
