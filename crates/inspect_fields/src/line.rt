// Codes and bytes that a question has in its field 1.
ghost use Rattle.std.specs.Prelude.{◌≡◌, true, ◌≤◌, length};
ghost use Rattle.byte_parts.specs.Part.{put};
ghost use Rattle.text_numbers.specs.Hex.{hex_field, unhex};
ghost use Rattle.text_numbers.specs.Codes.{codes_field, codes_of};
ghost use Rattle.inspect_fields.specs.Fields.{field_one};

use line_fields::Fields;

// Puts the codes of a question to the front of `codes`, and answers how many.
pub fn read_codes(line: &[u8], codes: &mut [u16]) -> usize
    requires { (codes_field (field_one line.now) ≡ true) × (length line.now ≤ 32768) × (length codes.old ≡ 8192) }
    ensures value { (result ≡ length (codes_of (field_one line.now))) × (result ≤ 8192) }
    ensures codes_after { codes.new ≡ put codes.old 0 (length (codes_of (field_one line.now))) (codes_of (field_one line.now)) }
{
    Fields::new(line).read_codes(1, codes)
}

// Puts the bytes of a question to the front of `bytes`, and answers how many.
pub fn read_bytes(line: &[u8], bytes: &mut [u8]) -> usize
    requires { (hex_field (field_one line.now) ≡ true) × (length line.now ≤ 32768) × (length bytes.old ≡ 16384) }
    ensures value { (result ≡ length (unhex (field_one line.now))) × (result ≤ 16384) }
    ensures bytes_after { bytes.new ≡ put bytes.old 0 (length (unhex (field_one line.now))) (unhex (field_one line.now)) }
{
    Fields::new(line).put_field(1, bytes, 0)
}
