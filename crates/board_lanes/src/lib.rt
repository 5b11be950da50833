// The lane board: eight blocks of sixteen bytes, judged, and as records for a program.
#![tactic(auto)]

pub mod block;
pub mod lanes;
pub mod records;
pub mod refusal;
