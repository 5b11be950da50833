// A whole text salvaged into lent buffers.
#![tactic(auto)]

ghost use Rattle.std.specs.Prelude.{◌≤◌, ◌≡◌, length};
ghost use Rattle.salvage_text.specs.Text.{salvaged_text, reported_text, due_whole, due_behind, Passed, extent_of, salvaged_by, salvage_answer, landed_by, image_after, report_after};

use answers::refusal::Refusal;
use byte_parts::spans;
use byte_scan as scan;
use card_build::card::{Card, System};
use salvage_walk::Extent;

// A pass over the lines from a place on, behind what stands first in image and report.
fn pass_behind(
    card: Card,
    arena: &mut [u8],
    text: &[u8],
    from: usize,
    lines: usize,
    head: &[u8],
    words: &[u8],
    out: &mut [u8],
    report: &mut [u8],
    write: bool,
) -> Option<Extent>
    requires { (from ≤ length text.now) × (lines ≤ from) }
    ensures { Passed write result (due_behind head.now words.now card arena.old text.now lines from) out.old report.old out.new report.new }
{
    let image = salvage_print::put(write, out, 0, head)?;
    let said = salvage_print::put(write, report, 0, words)?;
    salvage_walk::walk(
        card, arena, text, from, lines, out, image, report, said, write,
    )
}

// One pass over a whole text: counts image and report, and writes them if asked to.
fn pass(
    arena: &mut [u8],
    text: &[u8],
    out: &mut [u8],
    report: &mut [u8],
    write: bool,
) -> Option<Extent>
    requires { length arena.old ≡ 65536 }
    ensures { Passed write result (due_whole text.now) out.old report.old out.new report.new }
{
    spans::zero(arena, 0, 65536);
    let blank = Card::new(System {
        code: 0,
        version: 0,
        join: false,
    });
    let end = scan::find(text, 0, text.len(), 10);
    let n = text_pieces::behind(end, text.len());
    let first = line_build::image_line(blank, true, arena, &text[0..end]);
    let card = first.card;
    let answer = first.answer;
    match answer {
        Ok(()) => pass_behind(
            card,
            arena,
            text,
            n,
            1,
            &text[0..n],
            &text[0..0],
            out,
            report,
            write,
        ),
        Err(_) => pass_behind(
            blank,
            arena,
            text,
            0,
            0,
            b"card\t0000\t0000\n",
            b"0\tadded\n",
            out,
            report,
            write,
        ),
    }
}

// An arena for a card of any size.
fn arena_of() -> [u8; 65536]
    ensures { length result ≡ 65536 }
{
    [0; 65536]
}

// What a caller is told of the room that there was.
#[tactic(auto, unfolding(crate::specs::Text::salvage_answer))]
fn answer_of(extent: Option<Extent>) -> Result<Extent, Refusal>
    ensures { result ≡ salvage_answer extent }
{
    extent.ok_or(Refusal::OutputTooShort)
}

// Two passes, in an arena that is lent: one that counts, and one that writes where there is room for all.
fn passes(arena: &mut [u8], text: &[u8], out: &mut [u8], report: &mut [u8]) -> Option<Extent>
    requires { length arena.old ≡ 65536 }
    ensures value { result ≡ extent_of (length out.old) (length report.old) text.now }
    ensures out_after { out.new ≡ landed_by result out.old (salvaged_text text.now) }
    ensures report_after { report.new ≡ landed_by result report.old (reported_text text.now) }
{
    pass(arena, text, out, report, false)?;
    pass(arena, text, out, report, true)
}

// Salvages a text: its image into `out` and the report into `report`, or nothing where either is too short (48).
pub fn salvage(text: &[u8], out: &mut [u8], report: &mut [u8]) -> Result<Extent, Refusal>
    ensures value { result ≡ salvaged_by (length out.old) (length report.old) text.now }
    ensures out_after { out.new ≡ image_after out.old (length report.old) text.now }
    ensures report_after { report.new ≡ report_after (length out.old) report.old text.now }
{
    let mut arena = arena_of();
    answer_of(passes(&mut arena, text, out, report))
}
