// A stream of chunks, cut into lines at each LF.
#![tactic(auto)]

ghost use Rattle.std.specs.Prelude.{◌≡◌, length};
ghost use Rattle.text_feed.specs.Feed.{place_after, line_after};

use byte_parts::spans;
use byte_scan as scan;

// A reader's place: `at` in the chunk, `len` bytes of a line kept, `whole` 1 where a LF has just ended that line, else 0.
// `whole` stays a number, since the field is public, and text_pull reads it as one.
#[derive(Clone, Copy)]
pub struct Place {
    pub at: usize,
    pub len: usize,
    pub whole: usize,
}

// Takes the bytes of the chunk from a place on, up to a LF, into the line behind those kept. The LF is taken and not
// kept; bytes beyond the line's room are dropped. A place outside the chunk or the line is answered as it is.
pub fn feed(p: Place, chunk: &[u8], line: &mut [u8]) -> Place
    ensures value { result ≡ place_after p chunk.now (length line.old) }
    ensures line_after { line.new ≡ line_after p chunk.now line.old }
{
    if chunk.len() < p.at {
        return p;
    }
    if line.len() < p.len {
        return p;
    }
    let end = scan::find(chunk, p.at, chunk.len(), 10);
    let n = spans::least(end - p.at, line.len() - p.len);
    spans::copy(line, p.len, chunk, p.at, n);
    if end < chunk.len() {
        return Place {
            at: end + 1,
            len: p.len + n,
            whole: 1,
        };
    }
    Place {
        at: end,
        len: p.len + n,
        whole: 0,
    }
}
