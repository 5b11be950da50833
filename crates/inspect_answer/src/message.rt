// The fields that answer `list` and `info`: a message's bytes, written to an output of `room` bytes.
ghost use Rattle.std.specs.Prelude.{◌≡◌, true, ◌+◌, ◌≤◌, length, take};
ghost use Rattle.text_numbers.specs.Codes.{codes_field, codes_of};
ghost use Rattle.text_stream.specs.Stream.{Written};
ghost use Rattle.inspect_answer.specs.Fields.{put_fields, size_of, list_fields, info_fields};
ghost use Rattle.inspect_fields.specs.Fields.{most_fields, field_one};

use answers::refusal::Refusal;
use card_build::card::Card;
use card_lists::{information, packet};
use inspect_fields::line::read_codes;
use inspect_fields::put::put_refusal;
use text_print::put_hex;

// Puts the message that a writer has written to the front of `work`, or its refusal, into `out` from `at` on, and answers the place after it.
fn put_message(put: Result<usize, Refusal>, work: &[u8], out: &mut [u8], at: usize) -> usize
    requires { (size_of put ≤ length work.now) × (length work.now ≤ 4096) × (at + most_fields ≤ length out.old) }
    ensures written { Written out.old at (put_fields (take (size_of put) work.now) put) result out.new }
    ensures upper_bound { result ≤ at + most_fields }
{
    match put {
        Ok(n) => put_hex(&work[0..n], b'\n', out, at),
        Err(refusal) => put_refusal(refusal, out, at),
    }
}

// Writes a packet of a code list to `work`, puts it into `out` from `at` on, and answers the place after it.
fn put_packet(
    card: Card,
    parent: u16,
    packet: u32,
    work: &mut [u8],
    out: &mut [u8],
    at: usize,
) -> usize
    requires { (length work.old ≤ 4096) × (at + most_fields ≤ length out.old) }
    ensures written { Written out.old at (list_fields card parent packet (length work.old)) result out.new }
    ensures upper_bound { result ≤ at + most_fields }
{
    let put = packet::put_code_list(card, parent, packet, work);
    put_message(put, work, out, at)
}

// Puts the answer to `list` into `out` from `at` on, and answers the place after it.
pub(crate) fn put_list(
    card: Card,
    parent: u16,
    packet: u32,
    room: usize,
    out: &mut [u8],
    at: usize,
) -> usize
    requires { (room ≤ 4096) × (at + most_fields ≤ length out.old) }
    ensures written { Written out.old at (list_fields card parent packet room) result out.new }
    ensures upper_bound { result ≤ at + most_fields }
{
    let mut work = [0u8; 4096];
    put_packet(card, parent, packet, &mut work[0..room], out, at)
}

// Writes block information of the nodes `asked` to `work`, puts it into `out` from `at` on, and answers the place after it.
fn put_blocks(
    card: Card,
    arena: &[u8],
    asked: &[u16],
    work: &mut [u8],
    out: &mut [u8],
    at: usize,
) -> usize
    requires { (length work.old ≤ 4096) × (at + most_fields ≤ length out.old) }
    ensures written { Written out.old at (info_fields card (length arena.now) asked.now (length work.old)) result out.new }
    ensures upper_bound { result ≤ at + most_fields }
{
    let told = information::put_block_information(card, arena, asked, work);
    put_message(told, work, out, at)
}

// Puts the answer to `info` into `out` from `at` on, and answers the place after it.
pub(crate) fn put_info(
    card: Card,
    arena: &[u8],
    room: usize,
    line: &[u8],
    out: &mut [u8],
    at: usize,
) -> usize
    requires line_value { (codes_field (field_one line.now) ≡ true) × (length line.now ≤ 32768) }
    requires room_bound { (room ≤ 4096) × (at + most_fields ≤ length out.old) }
    ensures written { Written out.old at (info_fields card (length arena.now) (codes_of (field_one line.now)) room) result out.new }
    ensures upper_bound { result ≤ at + most_fields }
{
    let mut codes = [0u16; 8192];
    let n = read_codes(line, &mut codes);
    let mut work = [0u8; 4096];
    put_blocks(card, arena, &codes[0..n], &mut work[0..room], out, at)
}
