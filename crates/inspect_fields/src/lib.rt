// Fields that answer a question and need no card: a refusal; what a message's bytes read as; what a code says.
#![tactic(auto)]

pub mod attribute;
pub mod line;
pub mod put;
pub mod read;
