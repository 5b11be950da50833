// The two rules of a salvage that take lines along, whatever builds the card: a stretch below a dropped area, and limits behind a dropped service.
#![tactic(auto)]

ghost use Rattle.std.specs.Prelude.{◌≡◌, ◌||◌};
ghost use Rattle.salvage_rule.specs.Rule.{deeper, takes, ended_by, begun_by, rules_after};

// The depth of a line: well-formed `area` and `svc` lines alone have one.
// No Option<u32>: of an area and a service of one depth the area alone begins a stretch.
#[derive(Clone, Copy)]
pub enum Depth {
    Flat,
    Area(u32),
    Service(u32),
}

// What comes of a line: it is kept; a dropped line before it takes it along; or the builder refuses it with this number.
// No Result: a line taken along and a refused one differ in what follows them, and in the report.
#[derive(Clone, Copy)]
pub enum Fate {
    Kept,
    Parent,
    Number(u8),
}

// What the two rules know between two lines.
#[derive(Clone, Copy)]
pub struct Rules {
    pub stretch: Option<u32>,
    pub orphaned: bool,
}

// Whether a line lies deeper than the area that a stretch is below.
pub fn is_deeper(stretch: Option<u32>, depth: Depth) -> bool
    ensures { result ≡ deeper stretch depth }
{
    let Some(over) = stretch else {
        return false;
    };
    match depth {
        Depth::Flat => false,
        Depth::Area(own) | Depth::Service(own) => over < own,
    }
}

// Whether one of the two rules takes a line; `lim` says whether its first field is that word.
pub fn is_taken(rules: Rules, depth: Depth, lim: bool) -> bool
    ensures { result ≡ takes rules depth lim }
{
    is_deeper(rules.stretch, depth) || rules.orphaned && lim
}

// A stretch behind a line: one of a depth that is not deeper ends it.
fn ended(stretch: Option<u32>, depth: Depth) -> Option<u32>
    ensures { result ≡ ended_by stretch depth }
{
    match depth {
        Depth::Flat => stretch,
        Depth::Area(own) | Depth::Service(own) => stretch.filter(|over| *over < own),
    }
}

// A stretch behind a line that the builder refused: an area begins one.
fn begun(stretch: Option<u32>, depth: Depth) -> Option<u32>
    ensures { result ≡ begun_by stretch depth }
{
    match depth {
        Depth::Area(own) => Some(own),
        Depth::Flat | Depth::Service(_) => ended(stretch, depth),
    }
}

// Whether limits are orphaned behind a dropped line; `svc` says whether its first field is that word.
fn orphans(orphaned: bool, svc: bool) -> bool
    ensures { result ≡ orphaned || svc }
{
    orphaned || svc
}

// What the rules know behind a line.
pub fn rules_after(rules: Rules, depth: Depth, svc: bool, fate: Fate) -> Rules
    ensures { result ≡ rules_after rules depth svc fate }
{
    let stretch = rules.stretch;
    match fate {
        Fate::Kept => Rules {
            stretch: ended(stretch, depth),
            orphaned: false,
        },
        Fate::Parent => Rules {
            stretch: ended(stretch, depth), // and it begins none
            orphaned: orphans(rules.orphaned, svc),
        },
        Fate::Number(_) => Rules {
            stretch: begun(stretch, depth),
            orphaned: orphans(rules.orphaned, svc),
        },
    }
}
