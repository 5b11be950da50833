// One line of a salvage: whether it is kept, and what is known after it.
#![tactic(auto)]

ghost use Rattle.std.specs.Prelude.{◌≡◌};
ghost use Rattle.salvage_rule.specs.Salvage.{fate_of, stepped};
ghost use Rattle.salvage_line.specs.Image.{depth_by, depth_of, is_word, fate_on, image_builder, held_of};

use answers::refusal::Refusal;
use byte_parts::spans;
use card_build::card::Card;
use line_image::line::Line;
use salvage_rule::{Depth, Fate, Rules};

// The depth that a line says.
#[tactic(auto, unfolding(crate::specs::Image::depth_by))]
fn depth_by(says: Option<Line>) -> Depth
    ensures { result ≡ depth_by says }
{
    match says {
        None => Depth::Flat,
        Some(Line::Area { depth, .. }) => Depth::Area(depth),
        Some(Line::Service { depth, .. }) => Depth::Service(depth),
        Some(_) => Depth::Flat,
    }
}

// The depth of a line: well-formed `area` and `svc` lines alone have one.
#[tactic(auto, unfolding(crate::specs::Image::depth_of))]
fn depth_of(text: &[u8]) -> Depth
    ensures { result ≡ depth_of text.now }
{
    depth_by(line_image::line::read_line(text, false))
}

// Whether a line's first field is this word, whatever follows it.
#[tactic(auto, unfolding(crate::specs::Image::is_word, line_fields::specs::Fields::named))]
fn is_named(text: &[u8], word: &[u8]) -> bool
    ensures { result ≡ is_word word.now text.now }
{
    spans::same(text_fields::field(text, 0, b'\t'), word)
}

// What comes of a line that the builder answered so.
#[tactic(auto, unfolding(crate::specs::Image::fate_on))]
fn fate_on(answer: Result<(), Refusal>) -> Fate
    ensures { result ≡ fate_on answer }
{
    match answer {
        Ok(()) => Fate::Kept,
        Err(refusal) => Fate::Number(refusal.number()),
    }
}

// A salvage after a line, and what came of the line.
#[derive(Clone, Copy)]
pub struct Verdict {
    pub card: Card,
    pub rules: Rules,
    pub fate: Fate,
}

// Judges a line that is not the first: the two rules, then the builder. A dropped line leaves card and arena as they were.
pub fn salvage_line(card: Card, rules: Rules, arena: &mut [u8], text: &[u8]) -> Verdict
    ensures fate_value { result.fate ≡ fate_of image_builder (held_of card arena.old rules) text.now }
    ensures rules_after { held_of result.card arena.new result.rules ≡ stepped image_builder (held_of card arena.old rules) text.now }
{
    let depth = depth_of(text);
    let svc = is_named(text, b"svc");
    let lim = is_named(text, b"lim");
    if salvage_rule::is_taken(rules, depth, lim) {
        let parent = Fate::Parent;
        return Verdict {
            card,
            rules: salvage_rule::rules_after(rules, depth, svc, parent),
            fate: parent,
        };
    }
    let added = line_build::image_line(card, false, arena, text);
    let kept = added.card;
    let answer = added.answer;
    let fate = fate_on(answer);
    Verdict {
        card: kept,
        rules: salvage_rule::rules_after(rules, depth, svc, fate),
        fate,
    }
}
