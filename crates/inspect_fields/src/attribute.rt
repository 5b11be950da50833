// The fields that answer `attr`: a code's number, kind and right, and whether it needs a key.
ghost use Rattle.std.specs.Prelude.{◌+◌, ◌≤◌, length};
ghost use Rattle.text_stream.specs.Stream.{Written};
ghost use Rattle.text_print.specs.Print.{closed};
ghost use Rattle.inspect_fields.specs.Attribute.{kind_text, right_text, key_text, defined_fields, attribute_fields};
ghost use Rattle.inspect_fields.specs.Fields.{most_fields};

use service_code::code::{ServiceAttribute, ServiceCode, ServiceKind};
use text_print::{put_number, put_word};

// Puts the name of a kind and a tab into `out` from `at` on, and answers the place after them.
fn put_kind(kind: ServiceKind, out: &mut [u8], at: usize) -> usize
    requires { at + 7 ≤ length out.old }
    ensures written { Written out.old at (closed 9 (kind_text kind)) result out.new }
    ensures upper_bound { result ≤ at + 7 }
{
    match kind {
        ServiceKind::Random => put_word(b"random", b'\t', out, at),
        ServiceKind::Cyclic => put_word(b"cyclic", b'\t', out, at),
        ServiceKind::Purse => put_word(b"purse", b'\t', out, at),
    }
}

// Puts the name of a right and a tab into `out` from `at` on, and answers the place after them.
fn put_right(attribute: ServiceAttribute, out: &mut [u8], at: usize) -> usize
    requires { at + 11 ≤ length out.old }
    ensures written { Written out.old at (closed 9 (right_text attribute)) result out.new }
    ensures upper_bound { result ≤ at + 11 }
{
    match attribute {
        ServiceAttribute::RandomReadWrite | ServiceAttribute::CyclicReadWrite => {
            put_word(b"read-write", b'\t', out, at)
        }
        ServiceAttribute::PurseDirect => put_word(b"direct", b'\t', out, at),
        ServiceAttribute::PurseCashback => put_word(b"cashback", b'\t', out, at),
        ServiceAttribute::PurseDecrement => put_word(b"decrement", b'\t', out, at),
        ServiceAttribute::RandomReadOnly
        | ServiceAttribute::CyclicReadOnly
        | ServiceAttribute::PurseReadOnly => put_word(b"read-only", b'\t', out, at),
    }
}

// Puts whether a key is needed and a LF into `out` from `at` on, and answers the place after them.
fn put_key(keyed: bool, out: &mut [u8], at: usize) -> usize
    requires { at + 5 ≤ length out.old }
    ensures written { Written out.old at (closed 10 (key_text keyed)) result out.new }
    ensures upper_bound { result ≤ at + 5 }
{
    if keyed {
        return put_word(b"key", b'\n', out, at);
    }
    put_word(b"free", b'\n', out, at)
}

// Puts kind, right and key of a defined attribute into `out` from `at` on, and answers the place after them.
fn put_defined(attribute: ServiceAttribute, keyed: bool, out: &mut [u8], at: usize) -> usize
    requires { at + 23 ≤ length out.old }
    ensures written { Written out.old at (defined_fields attribute keyed) result out.new }
    ensures upper_bound { result ≤ at + 23 }
{
    let next = put_kind(attribute.kind(), out, at);
    let after = put_right(attribute, out, next);
    put_key(keyed, out, after)
}

// Puts the answer to `attr` into `out` from `at` on, and answers the place after it.
pub fn put_attribute(code: u16, out: &mut [u8], at: usize) -> usize
    requires { at + most_fields ≤ length out.old }
    ensures written { Written out.old at (attribute_fields code) result out.new }
    ensures upper_bound { result ≤ at + most_fields }
{
    let number = ServiceCode(code).number();
    let keyed = ServiceCode(code).requires_key();
    let next = put_number(number as u64, b'\t', out, at);
    match ServiceCode(code).attribute() {
        Some(attribute) => put_defined(attribute, keyed, out, next),
        None => put_word(b"-\t-\t-", b'\n', out, next),
    }
}
