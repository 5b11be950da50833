// Reading: all elements are checked, then their blocks copied (`validate_read_block` of the Rust).
// Writing: all elements are checked, then the runs work on the stores that the codes name, staged, which are committed
// only if every run passes. What both settle first is in `settle`.
#![tactic(auto)]

pub mod reading;
pub mod settle;
pub mod writing;
