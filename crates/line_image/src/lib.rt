// What an image line says.
#![tactic(auto)]

pub mod line;
