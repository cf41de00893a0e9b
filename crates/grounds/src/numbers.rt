// The numbers of a ground and of its keeper's memory, as the code has them. The statements have the same in specs/Numbers.antt, and contracts tie
// the two, so that what is promised stays as the code changes.

// The bytes of a page.
pub const PAGE: u64 = 4096;

// Classes are multiples of it, so that every piece begins at one.
pub const GRAIN: u64 = 16;

// The bytes of a mark.
pub const MARK_LEN: usize = 2;

// What an opening may ask for at the most.
pub const MOST_PAGES: u64 = 65536;

pub const MOST_CLASSES: usize = 32;

pub const MOST_RESTS: u64 = 1024;

// How many words of memory there are for each page, for each piece that may rest, and besides.
pub const PAGE_WORDS: u64 = 272;

pub const REST_WORDS: u64 = 2;

pub const FIXED_WORDS: u64 = 1024;
