// What can be asked of the tree of a card in the caller's bytes.
ghost use Rattle.std.specs.Prelude.{◌≡◌, length};
ghost use Rattle.card_questions.specs.Directory.{directory_answer, directory_out};
ghost use Rattle.card_questions.specs.Total.{total_answer};
ghost use Rattle.card_questions.specs.Keys.{version_answer};
ghost use Rattle.handset_bytes.specs.Card.{card_decoded};
ghost use Rattle.handset_words.specs.Told.{told_as, told_after, listed_as, listed_after};

use crate::outcome;
use answers::refusal::Refusal;
use card_questions::{keys, listing, totals};
use handset_bytes::decoding;

// Writes to `out` how many nodes a directory lists, unless it was refused, and gives what the call returns.
fn listed(answer: Result<usize, Refusal>, out: &mut usize) -> u32
    ensures value { result ≡ listed_as answer }
    ensures out_after { out.new ≡ listed_after out.old answer }
{
    match answer {
        Err(refusal) => outcome::refused(refusal),
        Ok(many) => {
            *out = many;
            0
        }
    }
}

// Writes the directory to the front of `out`, a pair of numbers a node, and to `nodes` how many nodes it lists.
#[unsafe(no_mangle)]
pub extern "C" fn uluvoli_directory(card: &[u8], out: &mut [u16], nodes: &mut usize) -> u32
    ensures value { result ≡ listed_as (directory_answer (card_decoded card.now) (length out.old)) }
    ensures out_after { out.new ≡ directory_out (card_decoded card.now) out.old }
    ensures nodes_after { nodes.new ≡ listed_after nodes.old (directory_answer (card_decoded card.now) (length out.old)) }
{
    let own = decoding::decode(card);
    listed(listing::directory(own, out), nodes)
}

// Writes to `out` the number that a question is answered with, unless it was refused, and gives what the call returns.
fn told(answer: Result<u16, Refusal>, out: &mut u16) -> u32
    ensures value { result ≡ told_as answer }
    ensures out_after { out.new ≡ told_after out.old answer }
{
    match answer {
        Err(refusal) => outcome::refused(refusal),
        Ok(n) => {
            *out = n;
            0
        }
    }
}

// Tells in `blocks` the block total of the node `code`.
#[unsafe(no_mangle)]
pub extern "C" fn uluvoli_total(card: &[u8], code: u16, blocks: &mut u16) -> u32
    ensures value { result ≡ told_as (total_answer (card_decoded card.now) code) }
    ensures blocks_after { blocks.new ≡ told_after blocks.old (total_answer (card_decoded card.now) code) }
{
    let own = decoding::decode(card);
    told(totals::block_count_for_node(own, code), blocks)
}

// Tells in `version` the key version of the node `code`.
#[unsafe(no_mangle)]
pub extern "C" fn uluvoli_key_version(card: &[u8], code: u16, version: &mut u16) -> u32
    ensures value { result ≡ told_as (version_answer (card_decoded card.now) code) }
    ensures version_after { version.new ≡ told_after version.old (version_answer (card_decoded card.now) code) }
{
    let own = decoding::decode(card);
    told(keys::node_key_version(own, code), version)
}
