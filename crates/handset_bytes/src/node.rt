// A node and the bytes of its record in those of a card: what they read as, and how they are written.
ghost use Rattle.std.specs.Prelude.{◌≡◌, ◌<◌, length};
ghost use Rattle.byte_parts.specs.Word.{word_of};
ghost use Rattle.handset_bytes.specs.Layout.{card_size};
ghost use Rattle.handset_bytes.specs.Field.{fields_put};
ghost use Rattle.handset_bytes.specs.Node.{is_record, limit_in, entry_in, node_in, kind_byte, limit_fields, entry_fields, node_fields};

use crate::layout;
use byte_parts::{half, word};
use card_nodes::node::{Entry, Node};
use service_code::limit::Limit;

// Whether record i of `bytes` is of a kind that there is.
#[tactic(auto, unfolding(crate::specs::Node::is_record))]
pub(crate) fn is_record(bytes: &[u8], i: usize) -> bool
    requires { (length bytes.now ≡ card_size) × (i < 64) }
    ensures { result ≡ is_record bytes.now i }
{
    bytes[layout::KIND + layout::HALF * i] <= 2
}

// Reads the limit of a service, record i.
fn read_limit(bytes: &[u8], i: usize) -> Option<Limit>
    requires { (length bytes.now ≡ card_size) × (i < 64) }
    ensures { result ≡ limit_in bytes.now i }
{
    if bytes[layout::KIND + layout::HALF * i] != 2 {
        return None;
    }
    Some(Limit {
        upper: word::signed32(word::word(bytes, layout::UPPER + layout::WORD * i)),
        lower: word::signed32(word::word(bytes, layout::LOWER + layout::WORD * i)),
        generation: bytes[layout::GENERATION + i],
    })
}

// Reads the entry of record i: what only an area has, or only a service.
fn read_entry(bytes: &[u8], i: usize) -> Entry
    requires { (length bytes.now ≡ card_size) × (i < 64) }
    ensures { result ≡ entry_in bytes.now i }
{
    if bytes[layout::KIND + layout::HALF * i] == 0 {
        return Entry::Area {
            end: half::half(bytes, layout::START + layout::HALF * i),
        };
    }
    Entry::Service {
        start: half::half(bytes, layout::START + layout::HALF * i),
        blocks: half::half(bytes, layout::BLOCKS + layout::HALF * i),
        limit: read_limit(bytes, i),
    }
}

// Reads record i.
pub(crate) fn read(bytes: &[u8], i: usize) -> Node
    requires { (length bytes.now ≡ card_size) × (i < 64) }
    ensures { result ≡ node_in bytes.now i }
{
    Node {
        depth: bytes[layout::DEPTH + layout::HALF * i],
        code: half::half(bytes, layout::CODE + layout::HALF * i),
        version: half::half(bytes, layout::VERSION + layout::HALF * i),
        entry: read_entry(bytes, i),
    }
}

// The byte that says what kind of record `entry` makes: 0 an area, 1 a service, 2 a service with a limit.
fn kind(entry: Entry) -> u8
    ensures { result ≡ kind_byte entry }
{
    match entry {
        Entry::Area { .. } => 0,
        Entry::Service { limit: None, .. } => 1,
        Entry::Service { limit: Some(_), .. } => 2,
    }
}

// The 32 bits of a bound, in two's complement.
fn bits(bound: i32) -> u32
    ensures { result ≡ word_of bound }
{
    word::unsigned(bound as i64)
}

// Writes the fields of `limit` to record i.
fn write_limit(limit: Option<Limit>, bytes: &mut [u8], i: usize)
    requires { (length bytes.old ≡ card_size) × (i < 64) }
    ensures { bytes.new ≡ fields_put (limit_fields i limit) bytes.old }
{
    if let Some(limit) = limit {
        bytes[layout::GENERATION + i] = limit.generation;
        word::put_word(bytes, layout::UPPER + layout::WORD * i, bits(limit.upper));
        word::put_word(bytes, layout::LOWER + layout::WORD * i, bits(limit.lower));
    }
}

// Writes the fields of `entry` to record i.
fn write_entry(entry: Entry, bytes: &mut [u8], i: usize)
    requires { (length bytes.old ≡ card_size) × (i < 64) }
    ensures { bytes.new ≡ fields_put (entry_fields i entry) bytes.old }
{
    match entry {
        Entry::Area { end } => {
            half::put_half(bytes, layout::START + layout::HALF * i, end as usize);
        }
        Entry::Service {
            start,
            blocks,
            limit,
        } => {
            half::put_half(bytes, layout::START + layout::HALF * i, start as usize);
            half::put_half(bytes, layout::BLOCKS + layout::HALF * i, blocks as usize);
            write_limit(limit, bytes, i);
        }
    }
}

// Writes the fields of `node` to record i.
pub(crate) fn write(node: Node, bytes: &mut [u8], i: usize)
    requires { (length bytes.old ≡ card_size) × (i < 64) }
    ensures { bytes.new ≡ fields_put (node_fields i node) bytes.old }
{
    let entry = node.entry;
    bytes[layout::KIND + layout::HALF * i] = kind(entry);
    bytes[layout::DEPTH + layout::HALF * i] = node.depth;
    half::put_half(bytes, layout::CODE + layout::HALF * i, node.code as usize);
    half::put_half(
        bytes,
        layout::VERSION + layout::HALF * i,
        node.version as usize,
    );
    write_entry(entry, bytes, i);
}
