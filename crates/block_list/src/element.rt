// Elements of a block list (`types.rs` of the Rust): two or three bytes each, packed one after the other. The first byte has the mode
// and the index, and its top bit says how many bytes there are.
ghost use Rattle.std.specs.Prelude.{◌≡◌, ◌<◌};
ghost use Rattle.block_list.specs.Element.{head_of, element_of, packed_of, unpack_at};

// What an element names: a block's number, the index of its service's code in the request's list, and an access mode.
// RULES 7.1
#[derive(Clone, Copy)]
pub struct BlockListElement {
    pub number: u16,
    pub index: u8,
    pub mode: u8,
}

// The bytes of an element: the first `len` of three. One that is not used is 0.
#[derive(Clone, Copy)]
pub struct Packed {
    pub bytes: [u8; 3],
    pub len: usize,
}

// What stands at a place of a list: an element and the place past it, or too few bytes for one.
#[derive(Clone, Copy)]
pub struct Unpacked {
    pub element: BlockListElement,
    pub next: usize,
}

// Gives the first byte of three for a mode and an index: three bits of the one, four of the other.
fn head_of(e: BlockListElement) -> u8
    ensures { (result ≡ head_of e) × (result < 0x80) }
{
    16 * (e.mode % 8) + e.index % 16
}

// Gives the element that a first byte and a number make; the first byte's top bit is no part of it.
fn element_of(head: u8, number: u16) -> BlockListElement
    ensures { result ≡ element_of head number }
{
    BlockListElement {
        number,
        index: head % 16,
        mode: head / 16 % 8,
    }
}

impl BlockListElement {
    // Packs an element: a number below 256 takes two bytes, any other three, low byte first.
    pub fn pack(self) -> Packed
        ensures { result ≡ packed_of self }
    {
        let head = head_of(self);
        let low = (self.number % 256) as u8;
        let high = (self.number / 256) as u8;
        if high == 0 {
            Packed {
                bytes: [0x80 + head, low, 0],
                len: 2,
            }
        } else {
            Packed {
                bytes: [head, low, high],
                len: 3,
            }
        }
    }
}

// Reads the element that stands at place `at` of a list. Three bytes may hold a number below 256, which `pack` would put in two.
pub fn unpack(list: &[u8], at: usize) -> Option<Unpacked>
    ensures { result ≡ unpack_at list.now at }
{
    if list.len() <= at {
        return None;
    }
    let left = list.len() - at;
    let head = list[at];
    if head < 0x80 {
        if left < 3 {
            return None;
        }
        let low = list[at + 1] as u16;
        let high = list[at + 2] as u16;
        Some(Unpacked {
            element: element_of(head, low + 256 * high),
            next: at + 3,
        })
    } else {
        if left < 2 {
            return None;
        }
        Some(Unpacked {
            element: element_of(head, list[at + 1] as u16),
            next: at + 2,
        })
    }
}
