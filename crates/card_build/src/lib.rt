// The card: its value, what may follow its nodes, and how it is built. Every call tests refusal 8 first.
#![tactic(auto)]

pub mod build;
pub mod card;
pub mod fits;
