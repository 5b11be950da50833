// Block information of nodes: the blocks assigned to each, by its block total, and those free for it.
ghost use Rattle.std.specs.Prelude.{◌≡◌, ◌≤◌, ◌-◌, map, length, take};
ghost use Rattle.byte_parts.specs.Part.{put};
ghost use Rattle.card_questions.specs.Tags.{OfTags};
ghost use Rattle.card_admit.specs.Admit.{usable};
ghost use Rattle.card_lists.specs.Information.{free_for, information_of, ahead_of, blocks_told, blocks_put, blocks_out};

use answers::refusal::Refusal;
use card_build::card;
use card_build::card::Card;
use card_nodes::count;
use card_nodes::node::Node;
use card_questions::{tags, totals};
use node_messages::information;
use node_messages::information::{BlockInformation, Informed};

// The blocks free for the node of `code` among nodes of these tags: all that are unused for an area, none for any other.
fn free_for(tags: &[u32], unused: u16, code: u16) -> u16
    ensures { OfTags tags.now (λ ns. result ≡ free_for ns unused code) }
{
    if code == 0xffff {
        return 0;
    }
    match tags::area_at(tags, code) {
        Some(_) => unused,
        None => 0,
    }
}

// Writes the blocks free for each of the nodes `asked` to the first of `to`.
fn put_free(tags: &[u32], unused: u16, asked: &[u16], to: &mut [u16])
    requires { length asked.now ≤ length to.old }
    ensures { OfTags tags.now (λ ns. to.new ≡ put to.old 0 (length asked.now) (map (free_for ns unused) asked.now)) }
{
    for (i, code) in asked.iter().enumerate() {
        to[i] = free_for(tags, unused, *code);
    }
}

// How many usable blocks of an arena of `arena_len` bytes are not in use.
#[tactic(auto, unfolding(card_admit::specs::Admit::usable))]
fn unused_blocks(arena_len: usize, used: usize) -> u16
    ensures { result ≡ usable arena_len - used }
{
    let usable = card_admit::usable_blocks(arena_len);
    if usable < used {
        return 0;
    }
    (usable - used) as u16
}

// The information of the nodes `asked`, in their order: assigned to each is its block total.
fn information_of(nodes: [Node; 64], count: usize, unused: u16, asked: &[u16]) -> Informed
    requires { length asked.now ≤ 32 }
    ensures { result ≡ information_of (take count nodes) unused asked.now }
{
    let mut assigned = [0u16; 32];
    totals::put_totals(nodes, count, asked, &mut assigned[0..32]);
    let n = count::taken(count);
    let tags = tags::tags_of(nodes);
    let mut free = [0u16; 32];
    put_free(&tags[0..n], unused, asked, &mut free[0..32]);
    Informed {
        told: BlockInformation {
            count: asked.len(),
            assigned,
            free,
        },
        answer: Ok(()),
    }
}

// What is refused ahead of any node, of an arena of `arena_len` bytes and of so many nodes asked, or nothing.
#[tactic(auto, unfolding(crate::specs::Information::ahead_of))]
fn ahead(arena_len: usize, used: usize, many: usize) -> Result<(), Refusal>
    ensures { result ≡ ahead_of arena_len used many }
{
    // 7
    if card::is_short(arena_len, used) {
        return Err(Refusal::ShortArena);
    }
    // 46
    if 32 < many {
        return Err(Refusal::TooManyNodes);
    }
    Ok(())
}

// The blocks of the nodes `asked`: assigned counts by the block total, and free counts. Refusals 8, 7, 46.
pub fn block_information(card: Card, arena: &[u8], asked: &[u16]) -> Informed
    ensures { result ≡ blocks_told card (length arena.now) asked.now }
{
    // 8
    if !card.is_sound() {
        return Informed::refused(Refusal::NotBuilt);
    }
    // 7, 46
    if let Err(refusal) = ahead(arena.len(), card.used, asked.len()) {
        return Informed::refused(refusal);
    }
    let nodes = card.nodes;
    information_of(
        nodes,
        card.count,
        unused_blocks(arena.len(), card.used),
        asked,
    )
}

// The same information as bytes. Refusals 8, 7, 46, 5; the output beyond the message stays as it was.
pub fn put_block_information(
    card: Card,
    arena: &[u8],
    asked: &[u16],
    out: &mut [u8],
) -> Result<usize, Refusal>
    ensures value { result ≡ blocks_put card (length arena.now) asked.now (length out.old) }
    ensures out_after { out.new ≡ blocks_out card (length arena.now) asked.now out.old }
{
    let told = block_information(card, arena, asked);
    // no `?`, which has no arm that a wrong program could change
    match told.answer {
        Err(refusal) => Err(refusal),
        Ok(()) => information::put_information(told.told, out),
    }
}
