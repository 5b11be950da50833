// What is settled of a request before its elements are looked at.
#![tactic(auto)]

ghost use Rattle.std.specs.Prelude.{◌≡◌, cond, not, ltb, Ok, Err};
ghost use Rattle.byte_parts.specs.Sizes.{most_elements, most_codes};
ghost use Rattle.answers.specs.Refusal.{refusal_number};
ghost use Rattle.card_build.specs.Card.{too_short};
ghost use Rattle.request_plan.specs.Request.{flag1_in, flag2_in, response_of, cause_in};
ghost use Rattle.request_plan.specs.Plan.{bounds_judged, write_judged, read_judged, lent_judged, judged_ending};

use answers::refusal::Refusal;
use answers::status;
use answers::status::Fault;
use byte_parts::sizes::{MOST_CODES, MOST_ELEMENTS};
use card_build::card;

// The reply to a request. Only `Done` is a request carried out. No Result: a refusal is told by its number, the other three by a status pair.
#[derive(Clone, Copy)]
pub enum Reply {
    Refused(Refusal),
    Done,
    // The data of a write are shorter than its elements need.
    ShortData,
    // An element failed its check, or its rule; the index counts from 0.
    Failed { index: usize, fault: Fault },
}

// What a request is told: a status pair, or the number of a refusal.
#[derive(Clone, Copy)]
pub enum Response {
    Pair { flag1: u8, flag2: u8 },
    Refusal(u8),
}

// A refusal as it is told: by its number.
fn number_told(refusal: Refusal) -> Response
    ensures { result ≡ Response.Refusal (refusal_number refusal) }
{
    Response::Refusal(refusal.number())
}

impl Reply {
    // Gives status flag 1: 00, FF for short data, or the place of the element that failed. A refusal has none, and 0 stands for it.
    fn flag1(self) -> u8
        ensures { result ≡ flag1_in self }
    {
        match self {
            Reply::Refused(_) | Reply::Done => 0x00,
            Reply::ShortData => 0xff,
            Reply::Failed { index, fault: _ } => status::list_error_index(index),
        }
    }

    // Gives status flag 2: 00, AC for short data, or the fault of the element that failed. A refusal has none, and 0 stands for it.
    fn flag2(self) -> u8
        ensures { result ≡ flag2_in self }
    {
        match self {
            Reply::Refused(_) | Reply::Done => 0x00,
            Reply::ShortData => 0xac,
            Reply::Failed { index: _, fault } => fault.status_flag2(),
        }
    }

    // Gives what a request with this reply is told, so that a refusal is never taken for a status pair.
    pub fn response(self) -> Response
        ensures { result ≡ response_of self }
    {
        let flag1 = self.flag1();
        let flag2 = self.flag2();
        match self {
            Reply::Refused(refusal) => number_told(refusal),
            Reply::Done => Response::Pair { flag1, flag2 },
            Reply::ShortData => Response::Pair { flag1, flag2 },
            Reply::Failed { index: _, fault: _ } => Response::Pair { flag1, flag2 },
        }
    }

    // Gives which A5 it was, 1 to 7; 0 where the reply is no A5.
    pub fn cause(self) -> u8
        ensures { result ≡ cause_in self }
    {
        match self {
            Reply::Refused(_) | Reply::Done | Reply::ShortData => 0,
            Reply::Failed { index: _, fault } => fault.cause(),
        }
    }
}

// What a request and the buffers lent to it are judged to be. No Result: a refusal leaves the staging, short data clear it, so that its
// callers tell three outcomes apart.
#[derive(Clone, Copy)]
pub enum Judged {
    Refused(Refusal),
    ShortData,
    Fit,
}

// What a request is judged by, beside its list: the card's blocks in use, the counts of elements and codes, and the lengths in bytes of
// the arena, of a write's data, and of the output (read) or staging (write) that is lent.
#[derive(Clone, Copy)]
pub struct Sizes {
    pub used: usize,
    pub count: usize,
    pub codes: usize,
    pub arena: usize,
    pub data: usize,
    pub room: usize,
}

// Tells whether a request has too many elements.
fn many_elements(count: usize) -> bool
    ensures { result ≡ ltb most_elements count }
{
    MOST_ELEMENTS < count
}

// Tells whether a request has too many codes.
fn many_codes(codes: usize) -> bool
    ensures { result ≡ ltb most_codes codes }
{
    MOST_CODES < codes
}

// The refusal of a list that does not end where its elements do, or none.
fn list_judged(ends: bool) -> Result<(), Refusal>
    ensures { result ≡ cond (not ends) (Err Refusal.ListLength) (Ok tt) }
{
    if !ends {
        return Err(Refusal::ListLength); // 3: the list ends early, or runs on
    }
    Ok(())
}

// Judges the counts of a request, and whether its list ends: 1, 2, 3.
fn bounds_judged(ends: bool, sizes: Sizes) -> Result<(), Refusal>
    ensures { result ≡ bounds_judged ends sizes }
{
    if many_elements(sizes.count) {
        return Err(Refusal::TooManyElements); // 1
    }
    if many_codes(sizes.codes) {
        return Err(Refusal::TooManyCodes); // 2
    }
    list_judged(ends) // 3
}

// Whether a write has data for each of its elements.
fn data_judged(sizes: Sizes) -> Judged
    ensures { result ≡ cond (too_short sizes.«data» sizes.count) Judged.ShortData Judged.Fit }
{
    if card::too_short(sizes.data, sizes.count) {
        return Judged::ShortData; // FF AC, ahead of all elements
    }
    Judged::Fit
}

// Judges the buffer and the data of a write: 4, then FF AC. Surplus data are ignored.
fn write_judged(sizes: Sizes) -> Judged
    ensures { result ≡ write_judged sizes }
{
    if card::too_short(sizes.room, sizes.used) {
        return Judged::Refused(Refusal::ShortStaging); // 4
    }
    data_judged(sizes)
}

// Judges the buffer of a read: 5.
fn read_judged(sizes: Sizes) -> Judged
    ensures { result ≡ read_judged sizes }
{
    if card::too_short(sizes.room, sizes.count) {
        return Judged::Refused(Refusal::ShortOutput); // 5
    }
    Judged::Fit
}

// Judges what is lent to a request: 7, then what is lent to a write or a read.
fn lent_judged(write: bool, sizes: Sizes) -> Judged
    ensures { result ≡ lent_judged write sizes }
{
    if card::is_short(sizes.arena, sizes.used) {
        return Judged::Refused(Refusal::ShortArena); // 7
    }
    if write {
        write_judged(sizes)
    } else {
        read_judged(sizes)
    }
}

// Judges a request of a card that is `sound` or not, whose list `ends` where its elements do or not: 8, then its counts and its list, then
// what is lent. No stored byte is looked at.
pub fn judge(sound: bool, write: bool, ends: bool, sizes: Sizes) -> Judged
    ensures { result ≡ judged_ending sound write ends sizes }
{
    if !sound {
        return Judged::Refused(Refusal::NotBuilt); // 8
    }
    if let Err(refusal) = bounds_judged(ends, sizes) {
        return Judged::Refused(refusal);
    }
    lent_judged(write, sizes)
}
