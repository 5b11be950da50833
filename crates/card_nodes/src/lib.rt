// The records of a card: what each is, how many of them are taken, and which of them a search finds.
#![tactic(auto)]

pub mod count;
pub mod find;
pub mod node;
