// A reader of a block list: the caller's bytes, and a place in them. A struct that holds lent bytes is proved by a walk of each
// function's own code, so the functions on it are few and thin, and leave the work to `element`.
ghost use Rattle.std.specs.Prelude.{◌≡◌};
ghost use Rattle.block_list.specs.Element.{ends_after};
ghost use Rattle.block_list.specs.Read.{reader_at_start, next_of, element_past, moved_on, finished};

use crate::element;
use crate::element::Unpacked;

// The caller's list bytes, and a place in them: all before it is taken.
#[derive(Clone, Copy)]
pub struct Reader<'a> {
    pub list: &'a [u8],
    pub at: usize,
}

// Gives the place past what was taken at `at`; where that was no element, `at` itself.
fn place_past(taken: Option<Unpacked>, at: usize) -> usize
    ensures { result ≡ element_past taken at }
{
    match taken {
        Some(taken) => taken.next,
        None => at,
    }
}

impl<'a> Reader<'a> {
    // Starts at the front of a list.
    pub fn new(list: &'a [u8]) -> Reader<'a>
        ensures { result ≡ reader_at_start list.entry }
    {
        Reader { list, at: 0 }
    }

    // Takes the next element and moves on past it; where too few bytes are left for one, says so and stays.
    pub fn next(&mut self) -> Option<Unpacked>
        ensures { (result ≡ next_of self.old) × (self.new ≡ moved_on self.old) }
    {
        let taken = element::unpack(self.list, self.at);
        self.at = place_past(taken, self.at);
        taken
    }

    // Tells whether all bytes are taken.
    pub fn is_finished(self) -> bool
        ensures { result ≡ finished self.entry }
    {
        self.at == self.list.len()
    }
}

// Tells whether a list is `count` elements and nothing more: refusal 3 is given where not. Its parameters are plain, so that its callers
// need no walk.
pub fn list_ends(list: &[u8], count: usize) -> bool
    ensures { result ≡ ends_after list.now count }
{
    let mut reader = Reader::new(list);
    for i in 0..count {
        if reader.next().is_none() {
            return false;
        }
    }
    reader.is_finished()
}
