// A page of the ground, by its number.
use crate::numbers::MOST_PAGES;
use below::Below;

// How many pages there can be.
pub const PAGES: usize = MOST_PAGES as usize;

// The pages are counted from 0, in the order in which they lie.
pub type Page = Below<PAGES>;
