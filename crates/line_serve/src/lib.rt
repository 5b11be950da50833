// Request lines, carried out on a card and answered.
#![tactic(auto)]

ghost use Rattle.std.specs.Prelude.{◌≡◌, Some, ◌+◌, ◌≤◌, length};
ghost use Rattle.byte_parts.specs.Sizes.{most_printed};
ghost use Rattle.request_plan.specs.Serve.{length_read};
ghost use Rattle.line_request.specs.declared.Ask.TheVariants.{Read, Write};
ghost use Rattle.line_request.specs.Ask.{ask_of};
ghost use Rattle.text_stream.specs.Stream.{Written};
ghost use Rattle.line_serve.specs.Line.{outcome_of, line_served, work_after, spelled_after};
ghost use Rattle.line_serve.specs.Text.{most_spelled, request_text};

use answers::refusal::Refusal;
use byte_parts::sizes::BLOCK_SIZE;
use card_build::card::Card;
use line_fields::Fields;
use line_request::Ask;
use request_plan::Reply;
use request_serve::{reading, writing};

// Carries out a read that a line asks. Seventeen codes are as good as all: more than sixteen are refused.
fn read_asked(
    card: Card,
    arena: &[u8],
    work: &mut [u8],
    bytes: &mut [u8],
    fields: Fields,
    open: bool,
    count: u32,
) -> Reply
    requires { (ask_of fields.line.now ≡ Some (Read «open» count)) × (most_spelled ≤ length bytes.old) }
    ensures value { result ≡ (line_served card arena.now (length work.old) fields.entry.line.now).reply }
    ensures work_after { work.new ≡ work_after card arena.now work.old fields.entry.line.now }
    ensures bytes_after { bytes.new ≡ spelled_after bytes.old fields.entry.line.now }
{
    let mut codes = [0u16; 17];
    let n = fields.read_codes(2, &mut codes);
    let end = fields.put_field(4, bytes, 0);
    reading::read(card, arena, work, open, &codes[0..n], count, &bytes[0..end])
}

// Carries out a write that a line asks.
fn write_asked(
    card: Card,
    arena: &mut [u8],
    work: &mut [u8],
    bytes: &mut [u8],
    fields: Fields,
    open: bool,
    count: u32,
) -> Reply
    requires { (ask_of fields.line.now ≡ Some (Write «open» count)) × (most_spelled ≤ length bytes.old) }
    ensures value { result ≡ (line_served card arena.old (length work.old) fields.entry.line.now).reply }
    ensures arena_after { arena.new ≡ (line_served card arena.old (length work.old) fields.entry.line.now).arena }
    ensures work_after { work.new ≡ work_after card arena.old work.old fields.entry.line.now }
    ensures bytes_after { bytes.new ≡ spelled_after bytes.old fields.entry.line.now }
{
    let mut codes = [0u16; 17];
    let n = fields.read_codes(2, &mut codes);
    let middle = fields.put_field(4, bytes, 0);
    let last = fields.put_field(5, bytes, middle);
    writing::write(
        card,
        arena,
        work,
        open,
        &codes[0..n],
        count,
        &bytes[0..middle],
        &bytes[middle..last],
    )
}

// How many bytes a read has put out.
fn length_read(reply: Reply, count: u32) -> usize
    ensures { result ≡ length_read reply count }
{
    match reply {
        Reply::Refused(_) => 0,
        Reply::Done => BLOCK_SIZE * (count as usize),
        Reply::ShortData => 0,
        Reply::Failed { index: _, fault: _ } => 0,
    }
}

// What a request line came to: the reply, and how many bytes were read, which stand at the front of the buffer lent as `work`.
#[derive(Clone, Copy)]
pub struct Outcome {
    pub reply: Reply,
    pub read: usize,
}

// Carries out a request line: `work` is the output of a read or the staging of a write, `bytes` takes the bytes of list and data.
pub fn serve_line(
    card: Card,
    arena: &mut [u8],
    work: &mut [u8],
    bytes: &mut [u8],
    line: &[u8],
) -> Outcome
    requires { most_spelled ≤ length bytes.old }
    ensures value { result ≡ outcome_of (line_served card arena.old (length work.old) line.now) }
    ensures arena_after { arena.new ≡ (line_served card arena.old (length work.old) line.now).arena }
    ensures work_after { work.new ≡ work_after card arena.old work.old line.now }
    ensures bytes_after { bytes.new ≡ spelled_after bytes.old line.now }
{
    let fields = Fields::new(line);
    match line_request::ask_of(fields) {
        None => Outcome {
            reply: Reply::Refused(Refusal::MalformedRequest),
            read: 0,
        },
        Some(Ask::Read { open, count }) => {
            let reply = read_asked(card, arena, work, bytes, fields, open, count);
            Outcome {
                reply,
                read: length_read(reply, count),
            }
        }
        Some(Ask::Write { open, count }) => {
            let reply = write_asked(card, arena, work, bytes, fields, open, count);
            Outcome { reply, read: 0 }
        }
    }
}

// Carries out a request line, puts the line that answers it into `out` from `at` on, and answers the place after it.
pub fn request_line(
    card: Card,
    arena: &mut [u8],
    work: &mut [u8],
    bytes: &mut [u8],
    line: &[u8],
    ordinal: u64,
    out: &mut [u8],
    at: usize,
) -> usize
    requires { (most_spelled ≤ length bytes.old) × (at + most_printed ≤ length out.old) }
    ensures written { Written out.old at (request_text card arena.old (length work.old) line.now ordinal) result out.new × (result ≤ at + most_printed) }
    ensures arena_after { arena.new ≡ (line_served card arena.old (length work.old) line.now).arena }
    ensures work_after { work.new ≡ work_after card arena.old work.old line.now }
    ensures bytes_after { bytes.new ≡ spelled_after bytes.old line.now }
{
    let outcome = serve_line(card, arena, work, bytes, line);
    let reply = outcome.reply;
    let n = outcome.read;
    line_answer::put_answer(ordinal, reply, &work[0..n], out, at)
}
