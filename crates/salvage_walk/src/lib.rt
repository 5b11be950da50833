// The lines of a text salvaged one after the other: a walk that counts, and the same walk that writes.
#![tactic(auto)]

ghost use Rattle.std.specs.Prelude.{◌+◌, ◌≤◌, ◌≡◌, length};
ghost use Rattle.salvage_rule.specs.Salvage.{fresh};
ghost use Rattle.salvage_line.specs.Image.{imaged};
ghost use Rattle.salvage_walk.specs.Walk.{image_at, report_at, extent_by, WroteIf};

use byte_scan as scan;
use card_build::card::Card;
use salvage_rule::Rules;

// The lengths of an image and of its report, or that there is no room for one of them.
#[derive(Clone, Copy)]
pub struct Extent {
    pub image: usize,
    pub report: usize,
}

// Walks over the lines of a text from a place on, where so many lines are passed and so many bytes of image and report are made. Counts
// what the lines give, and writes it if asked to; stops where there is no room.
pub fn walk(
    card: Card,
    arena: &mut [u8],
    text: &[u8],
    from: usize,
    lines: usize,
    out: &mut [u8],
    image: usize,
    report: &mut [u8],
    said: usize,
    write: bool,
) -> Option<Extent>
    requires { (from ≤ length text.now) × (lines ≤ from) × (image ≤ length out.old) × (said ≤ length report.old) }
    ensures value { result ≡ extent_by (length out.old) (length report.old) (image + length (image_at text.now (fresh (imaged card arena.old)) from)) (said + length (report_at text.now lines (fresh (imaged card arena.old)) from)) }
    ensures wrote_if { WroteIf write result out.old image (image_at text.now (fresh (imaged card arena.old)) from) out.new }
    ensures wrote_if_2 { WroteIf write result report.old said (report_at text.now lines (fresh (imaged card arena.old)) from) report.new }
{
    let mut at = from;
    let mut passed = lines;
    let mut made = image;
    let mut told = said;
    let mut built = card;
    let mut rules = Rules {
        stretch: None,
        orphaned: false,
    };
    // no `for`: a turn takes a whole line, however long it is
    while at < text.len() {
        let end = scan::find(text, at, text.len(), 10);
        let next = text_pieces::behind(end, text.len());
        let verdict = salvage_line::salvage_line(built, rules, arena, &text[at..end]);
        let fate = verdict.fate;
        let kept = salvage_print::keep(write, fate, &text[at..next], out, made)?;
        let noted = salvage_print::tell(write, (passed + 1) as u64, fate, report, told)?;
        made = kept;
        told = noted;
        built = verdict.card;
        rules = verdict.rules;
        at = next;
        passed += 1;
    }
    Some(Extent {
        image: made,
        report: told,
    })
}
