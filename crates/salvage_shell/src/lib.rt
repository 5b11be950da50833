// Salvage over a text: it is read whole, its image goes to where is written and the report to standard error.
#![tactic(auto)]

ghost use Rattle.std.specs.Prelude.{◌+◌, ◌≤◌, ◌≡◌, true, false, length, take, Err};
ghost use Rattle.answers.specs.declared.refusal.Refusal.TheVariants.{OutputTooShort};
ghost use Rattle.text_pull.specs.Pull.{is_line, is_end, closed_of, Wrote};
ghost use Rattle.salvage_shell.specs.Ran.{most_salvaged, salvage_end, salvage_prints, salvage_tells, Salvages, SalvageRan};

use salvage_walk::Extent;
use std::io::{Read, Write};
use text_pull::{Ends, Flow};

// The number of standard error.
const STDERR: i32 = 2;

// Writes what is told of a text to standard error, and answers whether all was taken. The text is lent for the contract to speak of.
fn tell(text: &[u8], words: &[u8]) -> bool
    requires { words.now ≡ salvage_tells text.now }
{
    io::write_all(STDERR, words)
}

// Says that the report could not be written.
fn fail() {
    io::write_all(STDERR, b"failed: the report could not be written\n");
}

// Says words that were cut off once more.
fn again(text: &[u8], words: &[u8])
    requires { words.now ≡ salvage_tells text.now }
{
    if tell(text, words) {
        return;
    }
    fail();
}

// Says what is told of a text, once more where it was cut off, as by a signal.
fn say(text: &[u8], words: &[u8])
    requires { words.now ≡ salvage_tells text.now }
{
    if tell(text, words) {
        return;
    }
    again(text, words);
}

// Says that there is no room for the text, the image or the report.
fn refuse(text: &[u8])
    requires { salvage_end text.now ≡ Err OutputTooShort }
{
    say(text, b"!\t48\n");
}

// Writes the image of a text that has ended.
fn print<R, W: Write>(ends: &mut Ends<R, W>, flow: Flow, text: &[u8], image: &[u8]) -> Flow
    requires flow_value { (is_line flow ≡ false) × (is_end flow ≡ true) × (flow.written ≡ 0) × (length image.now ≤ most_salvaged) }
    requires image_value { image.now ≡ salvage_prints text.now }
    ensures { Wrote (closed_of flow (length (salvage_prints text.now))) result }
{
    text_pull::writing::flush(ends, text_pull::closed(flow, image.len()), image, 0)
}

// Writes the image, then the report.
fn show<R, W: Write>(
    ends: &mut Ends<R, W>,
    flow: Flow,
    text: &[u8],
    out: &[u8],
    image: usize,
    words: &[u8],
    report: usize,
) -> Flow
    requires flow_value { (is_line flow ≡ false) × (is_end flow ≡ true) × (flow.written ≡ 0) }
    requires image_in_bounds { (image ≤ length out.now) × (length out.now ≡ most_salvaged) × (report ≤ length words.now) }
    requires out_value { (take image out.now ≡ salvage_prints text.now) × (take report words.now ≡ salvage_tells text.now) }
    ensures { Wrote (closed_of flow (length (salvage_prints text.now))) result }
{
    let shown = print(ends, flow, text, &out[0..image]);
    say(text, &words[0..report]);
    shown
}

// Salvages a text that has ended, over lent buffers.
fn take<R, W: Write>(
    ends: &mut Ends<R, W>,
    flow: Flow,
    text: &[u8],
    out: &mut [u8],
    words: &mut [u8],
) -> Flow
    requires flow_value { (is_line flow ≡ false) × (is_end flow ≡ true) × (flow.written ≡ 0) }
    requires text_len_bound { (length text.now ≤ most_salvaged) × (length out.old ≡ most_salvaged) × (length words.old ≡ most_salvaged) }
    ensures { Wrote (closed_of flow (length (salvage_prints text.now))) result }
{
    match salvage_text::salvage(text, out, words) {
        Err(_) => {
            refuse(text);
            text_pull::closed(flow, 0)
        }
        Ok(Extent { image, report }) => show(ends, flow, text, out, image, words, report),
    }
}

// Salvages what is read, over lent buffers.
fn run<R: Read, W: Write>(
    ends: &mut Ends<R, W>,
    text: &mut [u8],
    out: &mut [u8],
    words: &mut [u8],
) -> Flow
    requires { (length text.old ≡ most_salvaged + 1) × (length out.old ≡ most_salvaged) × (length words.old ≡ most_salvaged) }
    ensures { Salvages (take result.read text.new) result }
{
    let flow = text_pull::whole::slurp(ends, text);
    let n = text_pull::whole::held(flow);
    if text_pull::whole::is_short(flow) {
        refuse(&text[0..n]);
        return flow;
    }
    if text_pull::is_end(flow) {
        return take(ends, flow, &text[0..n], out, words);
    }
    flow
}

// Room for a text of 1,048,576 bytes: one that ends is shorter than its buffer.
fn text_room() -> [u8; 1048577]
    ensures { 1048577 ≡ length result }
{
    [0; 1048577]
}

// Room for what is printed.
fn print_room() -> [u8; 1048576]
    ensures { 1048576 ≡ length result }
{
    [0; 1048576]
}

// Salvages what is read: the image to where is written, the report to standard error, or `!` and 48 there where the text, the
// image or the report is longer than 1,048,576 bytes.
pub fn salvage<R: Read, W: Write>(ends: &mut Ends<R, W>) -> Flow
    ensures { SalvageRan result }
{
    let mut text = text_room();
    let mut image = print_room();
    let mut report = print_room();
    run(ends, &mut text, &mut image, &mut report)
}
