// The limit of a purse. It stands beside the codes since a card keeps one with any service, whatever the purse rule makes of it.

// The bounds that a service sets its purse, both included, with the number of the setting. A service with none is unlimited.
// RULES 5.2
#[derive(Clone, Copy)]
pub struct Limit {
    pub upper: i32,
    pub lower: i32,
    pub generation: u8,
}
