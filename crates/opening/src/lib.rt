// An opening: all of lent memory is written, as a function of the limits alone.
#![tactic(auto)]

pub mod bits_at_first;
pub mod open;
mod words_at_first;
