// What the codes of a request come to on a card: each is looked up once. Whether each element of a request may pass, and
// whether its list ends where it should, by one walk.
#![tactic(auto)]

pub mod check;
pub mod table;
pub mod walk;
