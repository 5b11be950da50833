// What a service is: what its code says, and the limit that it may carry.
#![tactic(auto)]

pub mod code;
pub mod limit;
