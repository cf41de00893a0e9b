// A unit of a page, by its number.
use below::Below;
use bits::WORD_BITS;
use grounds::numbers::{GRAIN, PAGE};

// How many units a page has.
pub const UNITS: usize = (PAGE / GRAIN) as usize;

// How many words their bits take.
pub const UNIT_WORDS: usize = UNITS / WORD_BITS;

// The units of a page are counted from 0, in the order in which they lie.
pub type Unit = Below<UNITS>;
