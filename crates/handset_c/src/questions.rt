// What can be asked of the tree of a card in the caller's bytes.
ghost use Rattle.std.specs.Prelude.{◌≡◌, length};
ghost use Rattle.card_questions.specs.Directory.{directory_answer, directory_out};
ghost use Rattle.card_questions.specs.Total.{total_answer};
ghost use Rattle.card_questions.specs.Keys.{version_answer};
ghost use Rattle.handset_bytes.specs.Card.{card_decoded};
ghost use Rattle.handset_words.specs.Told.{told_as, told_after, listed_as, listed_after};

// Writes the directory to the front of `out`, a pair of numbers a node, and to `nodes` how many nodes it lists.
#[unsafe(no_mangle)]
pub extern "C" fn uluvoli_directory(card: &[u8], out: &mut [u16], nodes: &mut usize) -> u32
    ensures value { result ≡ listed_as (directory_answer (card_decoded card.now) (length out.old)) }
    ensures out_after { out.new ≡ directory_out (card_decoded card.now) out.old }
    ensures nodes_after { nodes.new ≡ listed_after nodes.old (directory_answer (card_decoded card.now) (length out.old)) }
{
    handset::questions::uluvoli_directory(card, out, nodes)
}

// Tells in `blocks` the block total of the node `code`.
#[unsafe(no_mangle)]
pub extern "C" fn uluvoli_total(card: &[u8], code: u16, blocks: &mut u16) -> u32
    ensures value { result ≡ told_as (total_answer (card_decoded card.now) code) }
    ensures blocks_after { blocks.new ≡ told_after blocks.old (total_answer (card_decoded card.now) code) }
{
    handset::questions::uluvoli_total(card, code, blocks)
}

// Tells in `version` the key version of the node `code`.
#[unsafe(no_mangle)]
pub extern "C" fn uluvoli_key_version(card: &[u8], code: u16, version: &mut u16) -> u32
    ensures value { result ≡ told_as (version_answer (card_decoded card.now) code) }
    ensures version_after { version.new ≡ told_after version.old (version_answer (card_decoded card.now) code) }
{
    handset::questions::uluvoli_key_version(card, code, version)
}
