// Block lists: their elements, packed one after the other, and a reader that takes them one by one.
#![tactic(auto)]

pub mod element;
pub mod reader;
