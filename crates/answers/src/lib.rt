// What a call is answered: a refusal with its number, or a status pair.
#![tactic(auto)]

pub mod refusal;
pub mod status;
