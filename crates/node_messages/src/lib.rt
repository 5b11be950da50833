// The messages that tell what a card has, as values and as bytes: a code list and block information, each with its writer and its
// reader. Numbers of 16 bits stand low byte first, flags and counts are one byte.
#![tactic(auto)]

pub mod code_list;
pub mod information;
pub mod message;
mod numbers;
