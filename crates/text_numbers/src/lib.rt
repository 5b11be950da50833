// Numbers in text: digits, bytes in hex, codes, decimals. Each is read to a number or found malformed, and printed in one way.
#![tactic(auto)]

pub mod codes;
pub mod decimals;
pub mod digits;
pub mod hex;
