// A card as bytes, in which it crosses to programs in C and Rust: records in `node`, and
// the whole card, read by `decoding` and written by `encoding`, each with its definition in specs/.
#![tactic(auto)]

pub mod decoding;
pub mod encoding;
pub mod layout;
mod node;
