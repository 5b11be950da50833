// Bytes: parts of a slice, two or four of them as a number, and the sizes that every floor above goes by.
#![tactic(auto)]

pub mod half;
pub mod sizes;
pub mod spans;
pub mod word;
