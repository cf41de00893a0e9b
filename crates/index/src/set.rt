// A set that the index keeps, by its number.
use below::Below;

// How many sets there are.
pub const SETS: usize = 33;

pub type Set = Below<SETS>;
