// What a card answers without a stored byte: its directory, block totals, key versions, and the two list checks. Each question tests refusal 8 first.
#![tactic(auto)]

pub mod keys;
pub mod listing;
mod table;
pub mod tags;
pub mod totals;
