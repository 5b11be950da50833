// The directory of a card: each area, then its children in order, an area within starting the same again.
ghost use Rattle.std.specs.Prelude.{◌≡◌, ◌+◌, ◌-◌, ◌*◌, ◌≤◌, ◌<◌, [], ◌∷◌, length, take};
ghost use Rattle.std.proofs.lemmas.List.Edits.{sets};
ghost use Rattle.card_questions.specs.Table.{past_of, pairs_from};
ghost use Rattle.card_questions.specs.Directory.{listing_of, out_after, directory_answer, directory_out};

use crate::table;
use crate::table::Column;
use answers::refusal::Refusal;
use card_build::card::Card;
use card_nodes::count;
use card_nodes::node::Node;

// Writes the pair of the node at an index to its place.
fn put_pair(code: u16, second: u16, at: usize, out: &mut [u16])
    requires { 2 * at + 1 < length out.old }
    ensures { out.new ≡ sets out.old (2 * at) (code ∷ second ∷ []) }
{
    let p = 2 * at;
    out[p] = code;
    out[p + 1] = second;
}

// Lists the area at an index, then its children; gives the index past them.
#[cycle(list_area_list_children)]
fn list_area(depths: &[u16], codes: &[u16], seconds: &[u16], at: usize, out: &mut [u16]) -> usize
    requires { (length depths.now ≤ 64) × (length codes.now ≡ length depths.now) × (length seconds.now ≡ length depths.now) × (at < length depths.now) × (2 * length depths.now ≤ length out.old) }
    ensures value { result ≡ past_of depths.now at }
    ensures out_after { out.new ≡ sets out.old (2 * at) (pairs_from codes.now seconds.now at (result - at)) }
{
    put_pair(codes[at], seconds[at], at, out);
    list_children(depths, codes, seconds, at, out)
}

// Lists the children of the area at an index, a child area by the call for areas; gives the index past them.
#[cycle(list_area_list_children)]
fn list_children(
    depths: &[u16],
    codes: &[u16],
    seconds: &[u16],
    at: usize,
    out: &mut [u16],
) -> usize
    requires { (length depths.now ≤ 64) × (length codes.now ≡ length depths.now) × (length seconds.now ≡ length depths.now) × (at < length depths.now) × (2 * length depths.now ≤ length out.old) }
    ensures value { result ≡ past_of depths.now at }
    ensures out_after { out.new ≡ sets out.old (2 * (at + 1)) (pairs_from codes.now seconds.now (at + 1) (result - (at + 1))) }
{
    let mut i = at + 1;
    // no for: past a child area the walk goes on at the index that its call gives
    while i < depths.len() {
        if depths[i] <= depths[at] {
            break;
        }
        if seconds[i] == 0xffff {
            put_pair(codes[i], seconds[i], i, out);
            i += 1;
        } else {
            i = list_area(depths, codes, seconds, i, out);
        }
    }
    i
}

// Writes the directory of `count` nodes as pairs. The output needs a pair per node, and beyond the answer stays as it was.
fn list_all(nodes: [Node; 64], count: usize, out: &mut [u16]) -> Result<usize, Refusal>
    ensures value { result ≡ listing_of (take count nodes) (length out.old) }
    ensures out_after { out.new ≡ out_after (take count nodes) out.old }
{
    let n = count::taken(count);
    // refusal 5
    if out.len() < 2 * n {
        return Err(Refusal::ShortOutput);
    }
    if n == 0 {
        return Ok(0);
    }
    let depths = table::column_of(nodes, Column::Depth);
    let codes = table::column_of(nodes, Column::Code);
    let seconds = table::column_of(nodes, Column::Second);
    Ok(list_area(&depths[0..n], &codes[0..n], &seconds[0..n], 0, out))
}

// Writes the directory as pairs of 16-bit numbers: area (code, end), service (code, FFFF).
#[tactic(auto, unfolding(crate::specs::Directory::directory_answer, crate::specs::Directory::directory_out))]
pub fn directory(card: Card, out: &mut [u16]) -> Result<usize, Refusal>
    ensures value { result ≡ directory_answer card (length out.old) }
    ensures out_after { out.new ≡ directory_out card out.old }
{
    if !card.is_sound() {
        return Err(Refusal::NotBuilt);
    }
    let nodes = card.nodes;
    list_all(nodes, card.count, out)
}
