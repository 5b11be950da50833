// Block totals: of an area, its own services and, by the same rule, each child area's total.
ghost use Rattle.std.specs.Prelude.{◌≡◌, ◌+◌, ◌-◌, ◌*◌, ◌≤◌, ◌<◌, min, map, length, take};
ghost use Rattle.byte_parts.specs.Part.{put};
ghost use Rattle.card_questions.specs.Table.{past_of, sum_from, OfColumns};
ghost use Rattle.card_questions.specs.Total.{total_of, total_answer};

use crate::table::Column;
use crate::{table, tags};
use answers::refusal::Refusal;
use card_build::card::Card;
use card_nodes::count;
use card_nodes::node::Node;

// A sum of blocks, and the index past the nodes that it covers.
#[derive(Clone, Copy)]
pub struct Sum {
    pub blocks: u32,
    pub next: usize,
}

// The blocks of the services under the area at an index, those of its child areas by the same call.
fn total_at(depths: &[u16], seconds: &[u16], blocks: &[u16], at: usize) -> Sum
    requires { (length depths.now ≤ 64) × (length seconds.now ≡ length depths.now) × (length blocks.now ≡ length depths.now) × (at < length depths.now) }
    ensures next_value { result.next ≡ past_of depths.now at }
    ensures blocks_value { result.blocks ≡ sum_from seconds.now blocks.now (at + 1) (result.next - (at + 1)) }
    ensures blocks_bound { result.blocks ≤ 65535 * (result.next - at) }
{
    let mut sum = 0u32;
    let mut i = at + 1;
    // no for: past a child area the walk goes on at the index that its call gives
    while i < depths.len() {
        if depths[i] <= depths[at] {
            break;
        }
        if seconds[i] == 0xffff {
            sum += blocks[i] as u32;
            i += 1;
        } else {
            let child = total_at(depths, seconds, blocks, i);
            sum += child.blocks;
            i = child.next;
        }
    }
    Sum {
        blocks: sum,
        next: i,
    }
}

// A sum as the answer gives it: it stops at 65,535.
fn capped(sum: u32) -> u16
    ensures { result ≡ min sum 65535 }
{
    if sum < 65535 { sum as u16 } else { 65535 }
}

// The total of `code` among the nodes of these columns: that of a service's store, else an area's, else 0.
fn total_in(tags: &[u32], depths: &[u16], seconds: &[u16], blocks: &[u16], code: u16) -> u16
    requires { (length depths.now ≤ 64) × (length tags.now ≡ length depths.now) × (length seconds.now ≡ length depths.now) × (length blocks.now ≡ length depths.now) }
    ensures { OfColumns tags.now depths.now seconds.now blocks.now (λ ns. result ≡ total_of ns code) }
{
    if let Some(i) = tags::service_at(tags, code) {
        return capped(blocks[i] as u32);
    }
    let Some(j) = tags::area_at(tags, code) else {
        return 0;
    };
    let sum = total_at(depths, seconds, blocks, j);
    capped(sum.blocks)
}

// Writes the totals of `asked` among the nodes of these columns to the first of `to`.
fn put_totals_in(
    tags: &[u32],
    depths: &[u16],
    seconds: &[u16],
    blocks: &[u16],
    asked: &[u16],
    to: &mut [u16],
)
    requires { (length depths.now ≤ 64) × (length tags.now ≡ length depths.now) × (length seconds.now ≡ length depths.now) × (length blocks.now ≡ length depths.now) × (length asked.now ≤ length to.old) }
    ensures { OfColumns tags.now depths.now seconds.now blocks.now (λ ns. to.new ≡ put to.old 0 (length asked.now) (map (total_of ns) asked.now)) }
{
    for (i, code) in asked.iter().enumerate() {
        to[i] = total_in(tags, depths, seconds, blocks, *code);
    }
}

// Writes the totals of `asked` among `count` nodes to the first of `to`.
pub fn put_totals(nodes: [Node; 64], count: usize, asked: &[u16], to: &mut [u16])
    requires { length asked.now ≤ length to.old }
    ensures { to.new ≡ put to.old 0 (length asked.now) (map (total_of (take count nodes)) asked.now) }
{
    let n = count::taken(count);
    let tags = tags::tags_of(nodes);
    let depths = table::column_of(nodes, Column::Depth);
    let seconds = table::column_of(nodes, Column::Second);
    let blocks = table::column_of(nodes, Column::Blocks);
    put_totals_in(
        &tags[0..n],
        &depths[0..n],
        &seconds[0..n],
        &blocks[0..n],
        asked,
        to,
    );
}

// The total of `code` among `count` nodes.
fn block_total(nodes: [Node; 64], count: usize, code: u16) -> u16
    ensures { result ≡ total_of (take count nodes) code }
{
    let asked = [code; 1];
    let mut totals = [0u16; 1];
    put_totals(nodes, count, &asked[0..1], &mut totals[0..1]);
    totals[0]
}

// The block total of the node of `code`, or refusal 8.
#[tactic(auto, unfolding(crate::specs::Total::total_answer))]
pub fn block_count_for_node(card: Card, code: u16) -> Result<u16, Refusal>
    ensures { result ≡ total_answer card code }
{
    if !card.is_sound() {
        return Err(Refusal::NotBuilt);
    }
    let nodes = card.nodes;
    Ok(block_total(nodes, card.count, code))
}
