// Where each part of the memory stands: the head in its first bytes, then columns whose places go by the capacity.

// What a memory that holds a store begins with: V, O, Z and the layout's version.
pub const SIGNATURE: u32 = 56250198;

// Where the head's numbers stand, four bytes each.
pub const CAPACITY: usize = 4;

pub const BLOCKS: usize = 8;

pub const LEVEL: usize = 12;

pub const NEXT: usize = 16;

pub const RUNNING: usize = 20;

pub const BEGUN: usize = 24;

pub const TAKEN: usize = 28;

pub const ROW_COUNT: usize = 32;

pub const OPEN_COUNT: usize = 36;

pub const NAMED_COUNT: usize = 40;

pub const DIRECTORY_COUNT: usize = 44;

// Where the head's lists stand, and how long the head is.
pub const TABLE_ENDS: usize = 64;

pub const PAGE_COUNT: usize = 78;

pub const DIRECTORIES: usize = 96;

pub const OPENS: usize = 128;

pub const USED: usize = 512;

pub const USED_SIZE: usize = block_forms::BLOCK_LIMIT / 8;

pub const HEAD_SIZE: usize = 1024;

// A slot has number, owner and payload of a row.
pub const SLOT_SIZE: usize = 72;

// Bytes a row before each column: keys, slots and states of the rows, first rows and blocks of the pages, directory entries.
pub const KEYS: usize = SLOT_SIZE;

pub const REFS: usize = KEYS + 4;

pub const STATES: usize = REFS + 2;

pub const STARTS: usize = STATES + 1;

pub const PAGE_BLOCKS: usize = STARTS + 4;

pub const NAMED: usize = PAGE_BLOCKS + 4;
