// What the calls of include/uluvoli.h do and promise; `handset_c` has each under its name in C. The card is bytes that the caller
// keeps: every call decodes them, asks the card, and answers one number (`outcome`). No call requires anything of what it is lent.
#![tactic(auto)]

pub mod blocks;
pub mod board;
pub mod build;
pub mod lists;
pub mod messages;
pub mod outcome;
pub mod questions;
pub mod readers;
pub mod requests;
