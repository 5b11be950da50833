// The line that answers a request.
#![tactic(auto)]

ghost use Rattle.std.specs.Prelude.{[], ◌∷◌, ◌+◌, ◌≤◌, ◌<◌, length};
ghost use Rattle.text_numbers.specs.Hex.{hex_text};
ghost use Rattle.text_stream.specs.Stream.{Written};
ghost use Rattle.text_print.specs.Print.{closed};
ghost use Rattle.request_plan.specs.Request.{cause_in};
ghost use Rattle.line_answer.specs.Answer.{where_text, status_fields, refusal_fields, answer_fields, cause_text, answer_text, refused_text};

use request_plan::{Reply, Response};
use text_numbers::hex;
use text_print::{put_hex, put_mark, put_number};

// Puts where an error is and a tab, and answers the place after them: `-` for a status flag 1 of 00; `*` for FF, which stands for every place from
// 255 on and for no place; else the place in decimal.
fn put_where(flag: u8, out: &mut [u8], at: usize) -> usize
    requires { at + 21 ≤ length out.old }
    ensures written { Written out.old at (closed 9 (where_text flag)) result out.new }
    ensures upper_bound { result ≤ at + 21 }
{
    if flag == 0 {
        return put_mark(b'-', b'\t', out, at);
    }
    if flag == 0xff {
        return put_mark(b'*', b'\t', out, at);
    }
    put_number(flag as u64, b'\t', out, at)
}

// Puts a status flag in hex and a tab, and answers the place after them.
fn put_flag(flag: u8, out: &mut [u8], at: usize) -> usize
    requires { at + 4 ≤ length out.old }
    ensures written { Written out.old at (closed 9 (hex_text (flag ∷ []))) result out.new }
    ensures upper_bound { result ≤ at + 4 }
{
    let one = [flag];
    put_hex(&one, b'\t', out, at)
}

// Puts the fields of a refused request, and answers the place after them.
fn put_refusal(ordinal: u64, number: u8, out: &mut [u8], at: usize) -> usize
    requires { at + 47 ≤ length out.old }
    ensures written { Written out.old at (refusal_fields ordinal number) result out.new }
    ensures upper_bound { result ≤ at + 47 }
{
    let a = put_number(ordinal, b'\t', out, at);
    let b = put_mark(b'!', b'\t', out, a);
    let c = put_number(number as u64, b'\t', out, b);
    let d = put_mark(b'-', b'\t', out, c);
    out[d] = b'-';
    d + 1
}

// Puts the fields of a request that got a status pair, and answers the place after them.
fn put_status(ordinal: u64, flag1: u8, flag2: u8, read: &[u8], out: &mut [u8], at: usize) -> usize
    requires { at + length read.now + length read.now + 51 ≤ length out.old }
    ensures written { Written out.old at (status_fields ordinal flag1 flag2 read.now) result out.new }
    ensures upper_bound { result ≤ at + length read.now + length read.now + 51 }
{
    let a = put_number(ordinal, b'\t', out, at);
    let b = put_flag(flag1, out, a);
    let c = put_flag(flag2, out, b);
    let d = put_where(flag1, out, c);
    hex::put_hex_field(read, out, d)
}

// Puts the five fields that answer a request into `out` from `at` on, and answers the place after them; the caller ends the line.
pub fn put_fields(ordinal: u64, reply: Reply, read: &[u8], out: &mut [u8], at: usize) -> usize
    requires { at + length read.now + length read.now + 61 ≤ length out.old }
    ensures written { Written out.old at (answer_fields ordinal reply read.now) result out.new }
    ensures upper_bound { result ≤ at + length read.now + length read.now + 61 }
{
    match reply.response() {
        Response::Refusal(number) => put_refusal(ordinal, number, out, at),
        Response::Pair { flag1, flag2 } => put_status(ordinal, flag1, flag2, read, out, at),
    }
}

// Puts a cause and the LF that ends its line, and answers the place after them: `-` for 0, else its digit.
fn put_cause(cause: u8, out: &mut [u8], at: usize) -> usize
    requires { (cause < 10) × (at + 2 ≤ length out.old) }
    ensures written { Written out.old at (closed 10 (cause_text cause)) result out.new }
    ensures upper_bound { result ≤ at + 2 }
{
    if cause == 0 {
        return put_mark(b'-', b'\n', out, at);
    }
    put_mark(b'0' + cause, b'\n', out, at)
}

// Puts the cause of a reply and the LF that ends its line, and answers the place after them.
fn put_caused(reply: Reply, out: &mut [u8], at: usize) -> usize
    requires { at + 2 ≤ length out.old }
    ensures written { Written out.old at (closed 10 (cause_text (cause_in reply))) result out.new }
    ensures upper_bound { result ≤ at + 2 }
{
    put_cause(reply.cause(), out, at)
}

// Puts what ends a refused line, no cause and LF, and answers the place after it.
fn put_end(out: &mut [u8], at: usize) -> usize
    requires { at + 2 ≤ length out.old }
    ensures written { Written out.old at (closed 10 (45 ∷ [])) result out.new }
    ensures upper_bound { result ≤ at + 2 }
{
    put_mark(b'-', b'\n', out, at)
}

// Puts the line that answers a request into `out` from `at` on, and answers the place after it.
pub fn put_answer(ordinal: u64, reply: Reply, read: &[u8], out: &mut [u8], at: usize) -> usize
    requires { at + length read.now + length read.now + 64 ≤ length out.old }
    ensures written { Written out.old at (answer_text ordinal reply read.now) result out.new }
    ensures upper_bound { result ≤ at + length read.now + length read.now + 64 }
{
    let five = put_fields(ordinal, reply, read, out, at);
    out[five] = b'\t';
    put_caused(reply, out, five + 1)
}

// Puts the line of a request that is refused with this number into `out` from `at` on, and answers the place after it.
pub fn put_refused(ordinal: u64, number: u8, out: &mut [u8], at: usize) -> usize
    requires { at + 50 ≤ length out.old }
    ensures written { Written out.old at (refused_text ordinal number) result out.new }
    ensures upper_bound { result ≤ at + 50 }
{
    let tab = put_refusal(ordinal, number, out, at);
    out[tab] = b'\t';
    put_end(out, tab + 1)
}
