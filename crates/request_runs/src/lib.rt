// A write whose elements have passed their checks: its runs, on the staged stores (`apply_block_writes` of the Rust).
#![tactic(auto)]

pub mod run;
