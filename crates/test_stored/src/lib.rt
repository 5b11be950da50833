// Stored answers: the lines of the files 0001.in, 0002.in, .. of the folder that a program runs in, and the hex in them.
#![tactic(auto)]

ghost use Rattle.std.specs.Prelude.{◌≡◌, ◌+◌, ◌*◌, ◌%◌, ◌^◌, ◌<◌, ◌≤◌, length, nat_lt};
ghost use Rattle.std.specs.Char.{IsAsciiDigit};
ghost use Rattle.std.specs.Str.{IsAscii};

use byte_scan as scan;
use std::io::{Error, Read, Result};
use std::rt::Files;
use text_numbers::codes::read_hex16;

// More lines than the stored files have.
pub const MOST_LINES: u32 = 1_000_000_000;

// The digit of a number's last decimal place.
fn last_digit(n: u32) -> u8
    ensures { IsAsciiDigit result }
{
    b'0' + (n % 10) as u8
}

// The name of file number n: its last four digits, then `.in`.
pub fn name(n: u32) -> [u8; 7]
    ensures len { 7 ≡ length result }
    ensures ascii { IsAscii result }
{
    [
        last_digit(n / 1000),
        last_digit(n / 100),
        last_digit(n / 10),
        last_digit(n),
        b'.',
        b'i',
        b'n',
    ]
}

// Opens file number n.
pub fn open<R: Files>(rt: &R, n: u32) -> Result<R::File> {
    let name = name(n);
    std::fs::open(rt, str::from_utf8(&name).unwrap())
}

// Reads until the buffer is full, the file has ended or a read fails, and tells how many bytes it has read.
fn read_full<F: Read>(file: &mut F, buffer: &mut [u8]) -> usize
    ensures { result ≤ length buffer.new }
{
    let mut done = 0;
    // no `for`: a read brings as many bytes as it will
    while done < buffer.len() {
        let n = file.read(&mut buffer[done..]).unwrap_or(0);
        if n == 0 {
            return done;
        }
        done += n;
    }
    done
}

// Reads file number n, as much as the buffer holds; nothing where it is missing.
fn read_file<R: Files>(rt: &R, n: u32, buffer: &mut [u8]) -> usize
    ensures { result ≤ length buffer.new }
{
    match open(rt, n) {
        Ok(file) => {
            let mut from = file;
            read_full(&mut from, buffer)
        }
        Err(_) => 0,
    }
}

// The byte that two hex digits at an index spell.
fn byte_at(line: &[u8], i: usize) -> Option<u8>
    requires { i + 1 < length line.now }
{
    let four = [b'0', b'0', line[i], line[i + 1]];
    read_hex16(&four).map(|value| (value % 256) as u8)
}

// Tells whether a buffer of `len` bytes has an index `n`.
fn has_room(n: usize, len: usize) -> bool
    ensures { result ≡ nat_lt n len }
{
    n < len
}

// Puts a byte at an index, if there is room; gives the next index.
fn put(out: &mut [u8], n: usize, b: u8) -> usize
    requires { n ≤ length out.old }
    ensures { result ≤ length out.old }
{
    if has_room(n, out.len()) {
        out[n] = b;
        return n + 1;
    }
    n
}

// Puts the bytes that the hex digits of a line spell to the front of a buffer, as many as it holds. Other bytes are passed over.
pub fn bytes_of(line: &[u8], out: &mut [u8]) -> usize
    ensures { result ≤ length out.old }
{
    // no `for`: it goes on by two digits or by one byte, as it reads them
    let mut n = 0;
    let mut i = 1;
    while i < line.len() {
        match byte_at(line, i - 1) {
            Some(b) => {
                n = put(out, n, b);
                i += 2;
            }
            None => {
                i += 1;
            }
        }
    }
    n
}

// A line of the stored files: the number of its file, how long that file's text is, and where in it the line starts and ends.
// Before the first line all are 0; after the last the text has no length.
#[derive(Clone, Copy)]
pub struct Line {
    pub file: u32,
    pub size: usize,
    pub start: usize,
    pub end: usize,
}

// The place before the first line of the first file.
pub fn before_all() -> Line
    ensures { result ≡ record { file = 0; size = 0; start = 0; end = 0 } }
{
    Line {
        file: 0,
        size: 0,
        start: 0,
        end: 0,
    }
}

// Where the line that starts at an index ends.
fn end_of(text: &[u8], from: usize) -> usize
    requires { from ≤ length text.now }
    ensures { (from ≤ result) × (result ≤ length text.now) }
{
    scan::find(text, from, text.len(), b'\n')
}

// The line of a text that starts at an index.
fn line_from(file: u32, text: &[u8], size: usize, start: usize) -> Line
    requires { (start ≤ size) × (size ≤ length text.now) }
    ensures { (result.start ≤ result.end) × (result.end ≤ length text.now) }
{
    Line {
        file,
        size,
        start,
        end: end_of(&text[0..size], start),
    }
}

// The line after a line, in its text or in that of the next file, which is then read to the buffer.
pub fn next_line<R: Files>(rt: &R, line: Line, text: &mut [u8]) -> Line
    ensures { (result.start ≤ result.end) × (result.end ≤ length text.new) }
{
    if line.end < line.size && line.size <= text.len() && line.end + 1 < line.size {
        return line_from(line.file, text, line.size, line.end + 1);
    }
    let file = line.file.wrapping_add(1);
    let size = read_file(rt, file, text);
    line_from(file, text, size, 0)
}

// One more, for counting lines.
pub fn one_more(n: u64) -> u64
    ensures { result ≡ (n + 1) % 2 ^ 64 }
{
    n.wrapping_add(1)
}

// A number of 16 bits, high byte first.
pub fn number16(high: u8, low: u8) -> u16
    ensures { result ≡ high * 256 + low }
{
    u16::from_be_bytes([high, low])
}

// A number of 32 bits, high byte first.
pub fn number32(a: u8, b: u8, c: u8, d: u8) -> u32
    ensures { result ≡ (a * 256 + b) * 65536 + (c * 256 + d) }
{
    u32::from_be_bytes([a, b, c, d])
}

// Prints a line of a label and a number.
pub fn report(label: &[u8], n: u64) {
    io::write_all(1, label);
    io::write_all(1, b" ");
    io::print_decimal(1, n);
    io::write_all(1, b"\n");
}

// Says on standard error that no line was read, and why: the first file is missing from the folder that the program runs in.
pub fn report_none<R: Files + Eprint + Alloc>(rt: &R) {
    match open(rt, 1) {
        Ok(_) => say_none(rt, "Success"),
        Err(error) => say_failed(rt, error),
    }
}

// Says that there are no stored answers, and the error of the call that failed.
fn say_failed(rt: &(impl Eprint + Alloc), error: Error) {
    match error.to_string(rt.alloc()) {
        Ok(reason) => say_none(rt, reason.as_str()),
        Err(_) => say_none(rt, ""),
    }
}

// Says that there are no stored answers, and a reason, without its number.
fn say_none(rt: &impl Eprint, reason: &str) {
    let why = match reason.split_once(" (os error ") {
        Some((why, _)) => why,
        None => reason,
    };
    let _ = eprintln!(rt; "no stored answers in this folder: 0001.in: {why}");
}
