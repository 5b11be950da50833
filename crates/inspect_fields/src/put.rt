// What a refused question is told.
ghost use Rattle.std.specs.Prelude.{◌+◌, ◌≤◌, length};
ghost use Rattle.text_stream.specs.Stream.{Written};
ghost use Rattle.inspect_fields.specs.Fields.{refusal_told};

use answers::refusal::Refusal;
use text_print::{put_mark, put_number};

// Puts the fields of a refused question, `!` and the refusal's number, into `out` from `at` on, and answers the place after them.
pub fn put_refusal(refusal: Refusal, out: &mut [u8], at: usize) -> usize
    requires { at + 23 ≤ length out.old }
    ensures written { Written out.old at (refusal_told refusal) result out.new }
    ensures upper_bound { result ≤ at + 23 }
{
    let next = put_mark(b'!', b'\t', out, at);
    put_number(refusal.number() as u64, b'\n', out, next)
}
