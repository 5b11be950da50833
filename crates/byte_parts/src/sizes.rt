// The sizes that every floor above goes by, each said once. In definitions they are `block_size` and so on, of specs/Sizes.antt.

// The bytes of a block.
pub const BLOCK_SIZE: usize = 16;

// The most blocks of a lent arena that are usable.
pub const MOST_BLOCKS: usize = 4096;

// The most elements of a request.
pub const MOST_ELEMENTS: usize = 512;

// The most service codes of a request.
pub const MOST_CODES: usize = 16;

// The most bytes of a line before its LF.
pub const LONGEST_LINE: usize = 32768;

// The most bytes that are printed for a line: 512 blocks in hex, and 64 for what stands before them.
pub const MOST_PRINTED: usize = 16448;
