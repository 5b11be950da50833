// The fields that answer `readlist` and `readinfo`: what a message's bytes read as.
ghost use Rattle.std.specs.Prelude.{◌≡◌, true, ◌+◌, ◌≤◌, length};
ghost use Rattle.text_numbers.specs.Hex.{hex_field, unhex};
ghost use Rattle.text_stream.specs.Stream.{Written};
ghost use Rattle.text_print.specs.Print.{closed};
ghost use Rattle.inspect_fields.specs.Fields.{most_fields, field_one, flag_text, code_list_fields, information_fields, read_list_fields, read_info_fields, read_fields};

use crate::line::read_bytes;
use crate::put::put_refusal;
use byte_parts::spans::least;
use node_messages::code_list::CodeList;
use node_messages::information::BlockInformation;
use node_messages::{code_list, information};
use text_print::{put_mark, put_numbers};

// Puts a flag and a tab into `out` from `at` on, and answers the place after them.
fn put_flag(more: bool, out: &mut [u8], at: usize) -> usize
    requires { at + 2 ≤ length out.old }
    ensures written { Written out.old at (closed 9 (flag_text more)) result out.new }
    ensures upper_bound { result ≤ at + 2 }
{
    if more {
        return put_mark(b'1', b'\t', out, at);
    }
    put_mark(b'0', b'\t', out, at)
}

// Puts a code list, flag, areas and services, into `out` from `at` on, and answers the place after it.
fn put_code_list(list: CodeList, out: &mut [u8], at: usize) -> usize
    requires { at + most_fields ≤ length out.old }
    ensures written { Written out.old at (code_list_fields list) result out.new }
    ensures upper_bound { result ≤ at + most_fields }
{
    let areas = least(list.areas, 16);
    let services = least(list.services, 16 - areas);
    let next = put_flag(list.more, out, at);
    let ranges = list.ranges;
    let after = put_numbers(&ranges[0..2 * areas], b'\t', out, next);
    let codes = list.codes;
    put_numbers(&codes[0..services], b'\n', out, after)
}

// Puts what bytes read as a code list, or the refusal, into `out` from `at` on, and answers the place after it.
fn put_listed(bytes: &[u8], out: &mut [u8], at: usize) -> usize
    requires { at + most_fields ≤ length out.old }
    ensures written { Written out.old at (read_list_fields bytes.now) result out.new }
    ensures upper_bound { result ≤ at + most_fields }
{
    let listed = code_list::read_code_list(bytes);
    let answer = listed.answer;
    match answer {
        Ok(()) => put_code_list(listed.list, out, at),
        Err(refusal) => put_refusal(refusal, out, at),
    }
}

// Puts block information, assigned and free counts, into `out` from `at` on, and answers the place after it.
fn put_information(told: BlockInformation, out: &mut [u8], at: usize) -> usize
    requires { at + most_fields ≤ length out.old }
    ensures written { Written out.old at (information_fields told) result out.new }
    ensures upper_bound { result ≤ at + most_fields }
{
    let n = least(told.count, 32);
    let assigned = told.assigned;
    let next = put_numbers(&assigned[0..n], b'\t', out, at);
    let free = told.free;
    put_numbers(&free[0..n], b'\n', out, next)
}

// Puts what bytes read as block information, or the refusal, into `out` from `at` on, and answers the place after it.
fn put_informed(bytes: &[u8], out: &mut [u8], at: usize) -> usize
    requires { at + most_fields ≤ length out.old }
    ensures written { Written out.old at (read_info_fields bytes.now) result out.new }
    ensures upper_bound { result ≤ at + most_fields }
{
    let informed = information::read_information(bytes);
    let answer = informed.answer;
    match answer {
        Ok(()) => put_information(informed.told, out, at),
        Err(refusal) => put_refusal(refusal, out, at),
    }
}

// Puts the answer to `readlist`, or to `readinfo`, into `out` from `at` on, and answers the place after it.
pub fn put_read(list: bool, line: &[u8], out: &mut [u8], at: usize) -> usize
    requires { (hex_field (field_one line.now) ≡ true) × (length line.now ≤ 32768) × (at + most_fields ≤ length out.old) }
    ensures written { Written out.old at (read_fields list (unhex (field_one line.now))) result out.new }
    ensures upper_bound { result ≤ at + most_fields }
{
    let mut bytes = [0u8; 16384];
    let n = read_bytes(line, &mut bytes);
    if list {
        return put_listed(&bytes[0..n], out, at);
    }
    put_informed(&bytes[0..n], out, at)
}
