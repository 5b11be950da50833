// The calls of the library under their names in C (include/uluvoli.h): each is the one of crate handset, which says what it
// does, and promises the same. They stand apart, since an archive has the exports of its own crate alone, and one crate is not
// both an archive and a library that the laws cite.
#![tactic(auto)]

pub mod blocks;
pub mod board;
pub mod build;
pub mod lists;
pub mod messages;
pub mod questions;
pub mod readers;
pub mod requests;
