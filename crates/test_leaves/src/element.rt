// Questions on list elements and places.
use answers::status;
use block_list::element::BlockListElement;
use byte_parts::spans;
use test_stored::number16;

// A line `P`: number, index, mode, and the packed bytes.
pub(crate) fn pack(b: &[u8]) -> bool {
    if b.len() < 4 {
        return false;
    }
    let e = BlockListElement {
        number: number16(b[0], b[1]),
        index: b[2],
        mode: b[3],
    };
    let p = e.pack();
    let bytes = p.bytes;
    if p.len != b.len() - 4 {
        return false;
    }
    if b.len() < 6 {
        return false;
    }
    if bytes[0] != b[4] {
        return false;
    }
    if bytes[1] != b[5] {
        return false;
    }
    if b.len() == 6 {
        return true;
    }
    bytes[2] == b[6]
}

// A line `B`: an error byte, how many places it denotes, and the places, unused ones 0.
pub(crate) fn bitmap(b: &[u8]) -> bool {
    if b.len() != 17 {
        return false;
    }
    let p = error_places::bitmap_positions(b[0]);
    if p.count != number16(0, b[1]) as usize {
        return false;
    }
    let places = p.places;
    spans::same(&places, &b[2..17])
}

// A line `I`: a list index and its status flag 1.
pub(crate) fn index(b: &[u8]) -> bool {
    if b.len() != 3 {
        return false;
    }
    status::list_error_index(number16(b[0], b[1]) as usize) == b[2]
}
