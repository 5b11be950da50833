// Where things stand in the bytes of a card (specs/Layout.antt): a header, then a column of 64 for each field of a record.

// In the header, two bytes each: how many records are taken, the blocks in use, the system's code, its key version, whether it joins.
pub(crate) const COUNT: usize = 0;

pub(crate) const USED: usize = 2;

pub(crate) const SYSTEM: usize = 6;

pub(crate) const KEY: usize = 8;

pub(crate) const FLAGS: usize = 12;

// And by which layout the card was written: this one is number 2.
pub(crate) const LAYOUT: usize = 22;

pub(crate) const NUMBER: u16 = 2;

// Columns of a byte for each record, the first two by turns: its kind, its depth, its limit's generation.
pub(crate) const KIND: usize = 32;

pub(crate) const DEPTH: usize = 33;

pub(crate) const GENERATION: usize = 800;

// Columns of two bytes: its code, an area's end or a service's start, a service's blocks, its key version.
pub(crate) const CODE: usize = 160;

pub(crate) const START: usize = 288;

pub(crate) const BLOCKS: usize = 416;

pub(crate) const VERSION: usize = 544;

// Columns of four bytes: the bounds of its limit.
pub(crate) const UPPER: usize = 864;

pub(crate) const LOWER: usize = 1120;

// How far apart two records stand in a column of two bytes, and in one of four.
pub(crate) const HALF: usize = 2;

pub(crate) const WORD: usize = 4;

// How many bytes a whole card takes.
pub const SIZE: usize = 1376;
