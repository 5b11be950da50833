// Building a card: each addition takes the card and hands it back, grown or as it was.
ghost use Rattle.std.specs.Prelude.{◌≡◌, ◌-◌, ◌*◌, ◌/◌, ◌≤◌, ◌<◌, leb, length, replicate};
ghost use Rattle.byte_parts.specs.Sizes.{block_size};
ghost use Rattle.byte_parts.specs.Part.{put};
ghost use Rattle.card_nodes.specs.declared.node.Entry.TheVariants.{Service};
ghost use Rattle.card_build.specs.Card.{is_short, refused};
ghost use Rattle.card_build.specs.Grow.{node_as, growth_of, grown_by, ahead_of_service};
ghost use Rattle.card_build.specs.Build.{area_added, service_added, limit_added, arena_added};
ghost use Rattle.service_code.specs.Limit.{limited_to};

use crate::card::{Added, Card};
use crate::{card, fits};
use answers::refusal::Refusal;
use byte_parts::sizes::BLOCK_SIZE;
use byte_parts::spans;
use card_admit::Placed;
use card_nodes::node::{Entry, Node};
use service_code::limit::Limit;

// What an addition makes of a card: its next record, and how many records and blocks are then in use.
#[derive(Clone, Copy)]
struct Growth {
    node: Node,
    count: usize,
    used: usize,
}

// Refuses: the card is handed back as it was.
fn refuse(card: Card, refusal: Refusal) -> Added
    ensures { result ≡ refused card refusal }
{
    Added {
        card,
        answer: Err(refusal),
    }
}

// Whether no record is free.
fn is_full(count: usize) -> bool
    ensures { result ≡ leb 64 count }
{
    64 <= count
}

// What is refused ahead of a service's own refusals, in an arena of `arena_len` bytes, or nothing.
#[tactic(auto, unfolding(crate::specs::Grow::ahead_of_service))]
fn ahead(sound: bool, arena_len: usize, used: usize, full: bool) -> Result<(), Refusal>
    ensures { result ≡ ahead_of_service sound (is_short arena_len used) full }
{
    // 8
    if !sound {
        return Err(Refusal::NotBuilt);
    }
    // 7
    if card::is_short(arena_len, used) {
        return Err(Refusal::ShortArena);
    }
    // 20
    if full {
        return Err(Refusal::TableFull);
    }
    Ok(())
}

// The record of a node that comes after `count` others; `in_use` blocks are then in use.
fn next_record(
    depth: u8,
    code: u16,
    version: u16,
    entry: Entry,
    count: usize,
    in_use: usize,
) -> Growth
    requires { count < 64 }
    ensures { result ≡ growth_of (node_as depth code version entry) count in_use }
{
    Growth {
        node: Node {
            depth,
            code,
            version,
            entry,
        },
        count: count + 1,
        used: in_use,
    }
}

// Makes the blocks that an addition takes, from `used` to `after`, 0.
fn zero_blocks(arena: &mut [u8], used: usize, after: usize)
    requires { (used ≤ after) × (after ≤ length arena.old / block_size) }
    ensures { arena.new ≡ put arena.old (block_size * used) (block_size * (after - used)) (replicate (block_size * (after - used)) 0) }
{
    spans::zero(arena, BLOCK_SIZE * used, BLOCK_SIZE * (after - used));
}

// The record of a service's node, of a store, with a purse limit.
fn limited(node: Node, start: u16, blocks: u16, upper: i32, lower: i32, generation: u8) -> Node
    ensures { result ≡ node_as node.depth node.code node.version (Service start blocks (limited_to upper lower generation)) }
{
    Node {
        depth: node.depth,
        code: node.code,
        version: node.version,
        entry: Entry::Service {
            start,
            blocks,
            limit: Some(Limit {
                upper,
                lower,
                generation,
            }),
        },
    }
}

impl Card {
    // Grows by a record.
    fn grow(mut self, next: Growth) -> Added
        requires { self.count < 64 }
        ensures { result ≡ grown_by self next }
    {
        let n = self.count;
        let node = next.node;
        self.nodes[n] = node;
        self.count = next.count;
        self.used = next.used;
        Added {
            card: self,
            answer: Ok(()),
        }
    }

    // Adds an area from `code` to `end` at `depth`, or refuses with 8, 20, 21 or those of an area.
    pub fn add_area(mut self, depth: u32, code: u16, end: u16, version: u16) -> Added
        ensures { result ≡ area_added self depth code end version }
    {
        // 8
        if !self.is_sound() {
            return refuse(self, Refusal::NotBuilt);
        }
        let nodes = self.nodes;
        let count = self.count;
        let used = self.used;
        // 20
        if is_full(count) {
            return refuse(self, Refusal::TableFull);
        }
        match fits::judge_area(nodes, count, depth, code, end) {
            Err(refusal) => refuse(self, refusal),
            Ok(()) => self.grow(next_record(
                depth as u8,
                code,
                version,
                Entry::Area { end },
                count,
                used,
            )),
        }
    }

    // Adds a service of `code` at `depth`, or refuses with 8, 7, 20, 21 or those of a service. The first of its number makes a zeroed store of `blocks` blocks in the arena; a later one joins that store, which must have as many blocks unless the system joins others.
    pub fn add_service(
        mut self,
        arena: &mut [u8],
        depth: u32,
        code: u16,
        blocks: u32,
        version: u16,
    ) -> Added
        ensures value { result ≡ service_added self (length arena.old) depth code blocks version }
        ensures arena_after { arena.new ≡ arena_added self (service_added self (length arena.old) depth code blocks version) arena.old }
    {
        let count = self.count;
        let used = self.used;
        // 8, 7, 20; no `?`, since a refusal hands the card back
        if let Err(refusal) = ahead(self.is_sound(), arena.len(), used, is_full(count)) {
            return refuse(self, refusal);
        }
        let nodes = self.nodes;
        let join = self.system.join;
        match fits::place_service(nodes, count, join, used, arena.len(), depth, code, blocks) {
            Err(refusal) => refuse(self, refusal),
            Ok(
                Placed {
                    start,
                    blocks: own,
                    used: after,
                },
            ) => {
                zero_blocks(arena, used, after);
                let entry = Entry::Service {
                    start,
                    blocks: own,
                    limit: None,
                };
                self.grow(next_record(depth as u8, code, version, entry, count, after))
            }
        }
    }

    // Sets the purse limit of the node added last, in place of an earlier one, or refuses with 8 or 28.
    pub fn set_limit(mut self, upper: i32, lower: i32, generation: u8) -> Added
        ensures { result ≡ limit_added self upper lower generation }
    {
        // 8
        if !self.is_sound() {
            return refuse(self, Refusal::NotBuilt);
        }
        let last = self.count - 1;
        let node = self.nodes[last];
        let entry = node.entry;
        match entry {
            // 28
            Entry::Area { end: _ } => refuse(self, Refusal::NotAService),
            Entry::Service {
                start,
                blocks,
                limit: _,
            } => {
                self.nodes[last] = limited(node, start, blocks, upper, lower, generation);
                Added {
                    card: self,
                    answer: Ok(()),
                }
            }
        }
    }
}
