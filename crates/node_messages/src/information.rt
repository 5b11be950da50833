// The block information message (`RequestBlockInformationExResult` of the Rust): assigned and free blocks of each node asked.
ghost use Rattle.std.specs.Prelude.{◌≡◌, length};
ghost use Rattle.node_messages.specs.Message.{message_put, message_after};
ghost use Rattle.node_messages.specs.Information.{information_refused, information_bytes, is_information, read_information};

use crate::{message, numbers};
use answers::refusal::Refusal;
use byte_parts::spans;

// The blocks assigned to each node and those free for it, in the order asked. Entries past their count are 0.
#[derive(Clone, Copy)]
pub struct BlockInformation {
    pub count: usize,
    pub assigned: [u16; 32],
    pub free: [u16; 32],
}

// Block information, or why there is none; it is then that of no node.
#[derive(Clone, Copy)]
pub struct Informed {
    pub told: BlockInformation,
    pub answer: Result<(), Refusal>,
}

impl Informed {
    // No information, and why.
    pub fn refused(refusal: Refusal) -> Self
        ensures { result ≡ information_refused refusal }
    {
        Informed {
            told: BlockInformation {
                count: 0,
                assigned: [0u16; 32],
                free: [0u16; 32],
            },
            answer: Err(refusal),
        }
    }
}

// Writes block information: node count, assigned counts, free counts. More than 32 nodes are cut to them. The output beyond the
// message stays as it was.
pub fn put_information(told: BlockInformation, out: &mut [u8]) -> Result<usize, Refusal>
    ensures value { result ≡ message_put (information_bytes told) (length out.old) }
    ensures out_after { out.new ≡ message_after (information_bytes told) out.old }
{
    let n = spans::least(told.count, 32);
    let size = 1 + 4 * n;
    // refusal 5
    if message::is_short(out.len(), size) {
        return Err(Refusal::ShortOutput);
    }
    out[0] = n as u8;
    let assigned = told.assigned;
    numbers::put_numbers(out, 1, &assigned[0..n]);
    let free = told.free;
    numbers::put_numbers(out, 1 + 2 * n, &free[0..n]);
    Ok(size)
}

// Whether bytes are block information: at most 32 nodes, and no byte too few or left over.
#[tactic(auto, unfolding(crate::specs::Information::is_information))]
fn is_information(bytes: &[u8]) -> bool
    ensures { result ≡ is_information bytes.now }
{
    let n = numbers::byte_at(bytes, 0);
    n <= 32 && bytes.len() == 1 + 4 * n
}

// Reads block information, or refuses with 47.
pub fn read_information(bytes: &[u8]) -> Informed
    ensures { result ≡ read_information bytes.now }
{
    // refusal 47
    if !is_information(bytes) {
        return Informed::refused(Refusal::NotAMessage);
    }
    let count = numbers::byte_at(bytes, 0);
    let mut assigned = [0u16; 32];
    numbers::read_numbers(bytes, 1, count, &mut assigned[0..32]);
    let mut free = [0u16; 32];
    numbers::read_numbers(bytes, 1 + 2 * count, count, &mut free[0..32]);
    Informed {
        told: BlockInformation {
            count,
            assigned,
            free,
        },
        answer: Ok(()),
    }
}
