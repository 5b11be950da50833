// What a line of a salvage puts into the image and into the report, where there is room; or only how much that is.
#![tactic(auto)]

ghost use Rattle.std.specs.Prelude.{◌+◌, ◌≤◌, ◌≡◌, length};
ghost use Rattle.text_stream.specs.Stream.{Written};
ghost use Rattle.salvage_print.specs.Print.{said_of, gain_of, gain_by, spot_by, put_if, spotted};

use byte_parts::spans;
use salvage_rule::Fate;

// Copies src to dst from `at` on, if it is to be written.
fn copy_if(write: bool, dst: &mut [u8], at: usize, src: &[u8])
    requires { at + length src.now ≤ length dst.old }
    ensures { dst.new ≡ put_if write dst.old at src.now }
{
    if write {
        spans::copy(dst, at, src, 0, src.len());
    }
}

// Puts src into dst from `at` on, if it is to be written, and answers the place behind it; where there is no room it writes nothing.
#[tactic(auto, unfolding(crate::specs::Print::spot_by))]
pub fn put(write: bool, dst: &mut [u8], at: usize, src: &[u8]) -> Option<usize>
    ensures value { result ≡ spot_by (length dst.old) at (length src.now) }
    ensures dst_after { dst.new ≡ spotted result write dst.old at src.now }
{
    let room = dst.len().checked_sub(at)?;
    if room < src.len() {
        return None;
    }
    copy_if(write, dst, at, src);
    Some(at + src.len())
}

// How many of a line's bytes stand in the image.
fn gain(fate: Fate, n: usize) -> usize
    ensures { result ≡ gain_by fate n }
{
    match fate {
        Fate::Kept => n,
        Fate::Parent | Fate::Number(_) => 0,
    }
}

// Puts a line, with what ended it, into the image if it is kept.
pub fn keep(write: bool, fate: Fate, piece: &[u8], out: &mut [u8], at: usize) -> Option<usize>
    ensures value { result ≡ spot_by (length out.old) at (length (gain_of fate piece.now)) }
    ensures out_after { out.new ≡ spotted result write out.old at (gain_of fate piece.now) }
{
    let size = gain(fate, piece.len());
    put(write, out, at, &piece[0..size])
}

// Puts what a report says of a line into a buffer, and answers its length.
fn put_entry(line: u64, fate: Fate, out: &mut [u8]) -> usize
    requires { 48 ≤ length out.old }
    ensures written { Written out.old 0 (said_of line fate) result out.new }
    ensures upper_bound { result ≤ 48 }
{
    match fate {
        Fate::Kept => 0,
        Fate::Parent => {
            let last = text_print::put_number(line, b'\t', out, 0);
            text_print::put_word(b"parent", b'\n', out, last)
        }
        Fate::Number(number) => {
            let last = text_print::put_number(line, b'\t', out, 0);
            text_print::put_number(number as u64, b'\n', out, last)
        }
    }
}

// Puts what is said of a line into the report, by a buffer for one entry.
fn tell_by(
    write: bool,
    line: u64,
    fate: Fate,
    report: &mut [u8],
    at: usize,
    entry: &mut [u8],
) -> Option<usize>
    requires { 48 ≤ length entry.old }
    ensures value { result ≡ spot_by (length report.old) at (length (said_of line fate)) }
    ensures report_after { report.new ≡ spotted result write report.old at (said_of line fate) }
{
    let n = put_entry(line, fate, entry);
    put(write, report, at, &entry[0..n])
}

// Puts what is said of a line that is gone into the report: its number, and why.
pub fn tell(write: bool, line: u64, fate: Fate, report: &mut [u8], at: usize) -> Option<usize>
    ensures value { result ≡ spot_by (length report.old) at (length (said_of line fate)) }
    ensures report_after { report.new ≡ spotted result write report.old at (said_of line fate) }
{
    let mut entry = [0u8; 48];
    tell_by(write, line, fate, report, at, &mut entry)
}
