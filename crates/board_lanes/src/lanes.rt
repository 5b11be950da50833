// What is wrong with the eight blocks of a board, if anything: lane after lane, then the races.
ghost use Rattle.std.specs.Prelude.{◌≡◌, ◌-◌, ◌<◌};
ghost use Rattle.board_lanes.specs.Board.{filled_judged, lane_judged, and_then, lanes_judged, of_race, same_race, one_race, races_judged, board_judged};

use crate::block::{are_crew, block, byte, crew, is_empty, race};
use crate::refusal::BoardRefusal;

// Judges the filled block of lane k + 1: its lane byte, then its crew, then its last byte.
fn judge_block(b: &[u8], k: usize) -> Result<(), BoardRefusal>
    requires { k < 8 }
    ensures { result ≡ filled_judged k b.now }
{
    let lane = byte(b, 0) == k as u64 + 1;
    let printed = are_crew(crew(b));
    let ended = byte(b, 15) == 0;
    if !lane {
        return Err(BoardRefusal::WrongLane);
    }
    if !printed {
        return Err(BoardRefusal::BadCrew);
    }
    if !ended {
        return Err(BoardRefusal::TailNotZero);
    }
    Ok(())
}

// Judges the block of lane k + 1: of an empty one nothing is asked.
#[tactic(auto, unfolding(crate::specs::Board::lane_judged))]
fn judge_lane(b: &[u8], k: usize) -> Result<(), BoardRefusal>
    requires { k < 8 }
    ensures { result ≡ lane_judged k b.now }
{
    if is_empty(b) {
        return Ok(());
    }
    judge_block(b, k)
}

// Of two things judged the first that is wrong counts.
fn and_then(
    first: Result<(), BoardRefusal>,
    next: Result<(), BoardRefusal>,
) -> Result<(), BoardRefusal>
    ensures { result ≡ and_then first next }
{
    first.and(next)
}

// Judges the eight lanes, one after the other.
fn judge_lanes(bytes: &[u8]) -> Result<(), BoardRefusal>
    ensures { result ≡ lanes_judged bytes.now 8 0 }
{
    let mut judged = Ok(());
    for k in 0..8 {
        judged = and_then(judged, judge_lane(block(bytes, k), k));
    }
    judged
}

// Tells whether a block is of this race: an empty lane has none.
#[tactic(auto, unfolding(crate::specs::Board::of_race))]
fn is_of(b: &[u8], number: u64) -> bool
    ensures { result ≡ of_race number b.now }
{
    is_empty(b) || race(b) == number
}

// Tells whether the filled lanes from lane `from` + 1 on are all of this race.
fn same_race(bytes: &[u8], number: u64, from: usize) -> bool
    ensures { result ≡ same_race bytes.now number (8 - from) from }
{
    for i in from..8 {
        if !is_of(block(bytes, i), number) {
            return false;
        }
    }
    true
}

// Tells whether all filled lanes are of one race, that of the first of them.
fn one_race(bytes: &[u8]) -> bool
    ensures { result ≡ one_race bytes.now 8 0 }
{
    for first in 0..8 {
        if !is_empty(block(bytes, first)) {
            return same_race(bytes, race(block(bytes, first)), first + 1);
        }
    }
    true
}

// Judges the races of the filled lanes.
#[tactic(auto, unfolding(crate::specs::Board::races_judged))]
fn judge_races(bytes: &[u8]) -> Result<(), BoardRefusal>
    ensures { result ≡ races_judged bytes.now }
{
    if one_race(bytes) {
        return Ok(());
    }
    Err(BoardRefusal::RacesDiffer)
}

// Judges the eight blocks of a board: each lane, and last the races.
pub fn judge(bytes: &[u8]) -> Result<(), BoardRefusal>
    ensures { result ≡ board_judged bytes.now }
{
    let lanes = judge_lanes(bytes);
    let races = judge_races(bytes);
    and_then(lanes, races)
}
