// What a card has, told as messages: the direct children of an area in packets, and the blocks of nodes. Each question tests refusal 8
// first.
#![tactic(auto)]

mod area;
mod gather;
pub mod information;
pub mod packet;
