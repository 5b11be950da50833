// What the fields of a line say: words, codes, numbers, bounds, bytes. They are parted by tabs, and sought once a line: all that is
// asked of them here goes by where they end.
#![tactic(auto)]

ghost use Rattle.std.specs.Prelude.{◌≡◌, true, ◌+◌, ◌≤◌, min, length};
ghost use Rattle.byte_parts.specs.Part.{put, same_bytes};
ghost use Rattle.text_fields.specs.Field.{split, ends_of};
ghost use Rattle.text_numbers.specs.Hex.{hex_field, unhex};
ghost use Rattle.text_numbers.specs.Codes.{codes_field, codes_of};
ghost use Rattle.line_fields.specs.Fields.{field_in, code_at, number_at, bound_at, form};

use byte_parts::spans;
use text_fields::Ends;
use text_numbers::{codes, decimals, hex};

// A line, and where its fields end.
#[derive(Clone, Copy)]
pub struct Fields<'a> {
    pub line: &'a [u8],
    pub ends: Ends,
    ghost found: { ends ≡ ends_of 9 line.now },
}

impl<'a> Fields<'a> {
    // Seeks the fields of a line.
    pub fn new(line: &'a [u8]) -> Fields<'a>
        ensures { result.line.now ≡ line.now }
    {
        Fields {
            line,
            ends: text_fields::find_ends(line, b'\t'),
        }
    }

    // Gives field k of a line.
    pub fn field(self, k: usize) -> &'a [u8]
        ensures { result.now ≡ field_in self.entry.line.now k }
    {
        text_fields::field_at(self.line, self.ends, k, b'\t')
    }

    // Counts the fields of a line.
    pub fn count(self) -> usize
        ensures { result ≡ length (split 9 self.entry.line.now) }
    {
        text_fields::count_at(self.line, self.ends, b'\t')
    }

    // Whether field k of a line is this word.
    pub fn is_word(self, k: usize, word: &[u8]) -> bool
        ensures { result ≡ same_bytes (field_in self.entry.line.now k) word.now }
    {
        spans::same(self.field(k), word)
    }

    // Whether a line's first field is this word, and it has so many fields in all.
    #[tactic(auto, unfolding(crate::specs::Fields::form, crate::specs::Fields::named))]
    pub fn is_form(self, word: &[u8], count: usize) -> bool
        ensures { result ≡ form word.now count (split 9 self.entry.line.now) }
    {
        self.is_word(0, word) && self.count() == count
    }

    // Reads field k of a line as a code or a version.
    pub fn code_at(self, k: usize) -> Option<u16>
        ensures { result ≡ code_at (split 9 self.entry.line.now) k }
    {
        codes::read_hex16(self.field(k))
    }

    // Reads field k of a line as a decimal that is at most `most`.
    pub fn number_at(self, k: usize, most: u32) -> Option<u32>
        ensures { result ≡ number_at (split 9 self.entry.line.now) k most }
    {
        decimals::read_dec(self.field(k), most)
    }

    // Reads field k of a line as a bound.
    pub fn bound_at(self, k: usize) -> Option<i32>
        ensures { result ≡ bound_at (split 9 self.entry.line.now) k }
    {
        decimals::read_signed(self.field(k))
    }

    // Whether field k of a line is bytes in hex.
    pub fn has_hex(self, k: usize) -> bool
        ensures { result ≡ hex_field (field_in self.entry.line.now k) }
    {
        hex::is_hex_field(self.field(k))
    }

    // Whether field k of a line is codes, several of them joined.
    pub fn has_codes(self, k: usize) -> bool
        ensures { result ≡ codes_field (field_in self.entry.line.now k) }
    {
        codes::is_codes(self.field(k))
    }

    // Puts the codes of field k of a line to the front of `codes`, as many as it holds, and answers how many.
    pub fn read_codes(self, k: usize, codes: &mut [u16]) -> usize
        requires { codes_field (field_in self.line.now k) ≡ true }
        ensures value { (result ≡ min (length codes.old) (length (codes_of (field_in self.entry.line.now k)))) × (result ≤ length codes.old) }
        ensures codes_after { codes.new ≡ put codes.old 0 result (codes_of (field_in self.entry.line.now k)) }
    {
        codes::read_codes(self.field(k), codes)
    }

    // Puts the bytes that field k of a line spells into `bytes` from `at` on, and answers the place after them.
    pub fn put_field(self, k: usize, bytes: &mut [u8], at: usize) -> usize
        requires { (hex_field (field_in self.line.now k) ≡ true) × (at + length (unhex (field_in self.line.now k)) ≤ length bytes.old) }
        ensures value { result ≡ at + length (unhex (field_in self.entry.line.now k)) }
        ensures bytes_after { bytes.new ≡ put bytes.old at (length (unhex (field_in self.entry.line.now k))) (unhex (field_in self.entry.line.now k)) }
    {
        hex::put_bytes(self.field(k), bytes, at)
    }
}
