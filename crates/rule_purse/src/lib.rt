// What a write makes of a purse block: the rule on the block's fields, and on its bytes.
#![tactic(auto)]

pub mod bytes;
pub mod fields;
