// What a line of the Rust's stored answers spells: numbers, codes, and the bytes of its fields.
#![tactic(auto)]

pub mod codes;
pub mod numbers;
pub mod spelt;
