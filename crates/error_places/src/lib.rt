// Status flag 1 as bits: the places of a list that a set bit can denote (`types.rs` of the Rust). Bit k stands for place k + 1, and, but
// for bit 7, for place k + 9 as well, so that a byte denotes fifteen places at most.
#![tactic(auto)]

ghost use Rattle.std.specs.Prelude.{◌≡◌, ◌+◌, ◌%◌, ◌≤◌, ◌<◌, length};
ghost use Rattle.std.specs.Int.Count.{ones};
ghost use Rattle.std.proofs.lemmas.List.Edits.{sets};
ghost use Rattle.error_places.specs.Bitmap.{places_from, places_of, bitmap_of};

// The places that an error byte denotes, ascending, and how many they are; unused entries are 0.
#[derive(Clone, Copy)]
pub struct Positions {
    pub places: [u8; 15],
    pub count: usize,
}

// Lists the places that the set bits of `value` denote.
pub fn bitmap_positions(value: u8) -> Positions
    ensures { result ≡ bitmap_of value }
{
    let mut places = [0u8; 15];
    put_places(&mut places, value);
    Positions {
        places,
        count: count_places(value),
    }
}

// Counts them: the ones of all eight bits, and those of the low seven again.
fn count_places(value: u8) -> usize
    ensures { result ≡ length (places_of value) }
{
    let low = u8::count_ones(value) as usize;
    let high = u8::count_ones(value % 128) as usize;
    low + high
}

// Puts the second places of a byte, from 9 on, which its lower seven bits have, from index `at` on.
fn put_second(places: &mut [u8], at: usize, value: u8)
    requires { at + ones (value % 128) ≤ length places.old }
    ensures { places.new ≡ sets places.old at (places_from 8 9 (value % 128)) }
{
    places_from(places, at, value % 128, 9);
}

// Writes them: those of all eight bits, then those of the low seven again, nine on.
fn put_places(places: &mut [u8], value: u8)
    requires { 15 ≤ length places.old }
    ensures { places.new ≡ sets places.old 0 (places_of value) }
{
    let past = u8::count_ones(value) as usize;
    places_from(places, 0, value, 1);
    put_second(places, past, value);
}

// Writes the places of the set bits of `bits` from index `at` on, `place` being the lowest bit's. Trailing zeros lead from a set bit to
// the next, so a turn is one place: a range of turns would have to count the set bits first.
fn places_from(places: &mut [u8], at: usize, bits: u8, place: u8)
    requires { (at + ones bits ≤ length places.old) × (place < 248) }
    ensures { places.new ≡ sets places.old at (places_from 8 place bits) }
{
    let mut rest = bits;
    let mut next = place;
    let mut i = at;
    while rest != 0 {
        let zeros = u8::trailing_zeros(rest) as u8;
        places[i] = next + zeros;
        i += 1;
        next = next + zeros + 1;
        rest = (rest >> zeros) / 2;
    }
}
