// Lines of a script: what is asked of the keeper, as text. A line is read, and it is told with its answer.
#![tactic(auto)]

pub mod complaint;
pub mod event;
pub mod expected;
pub mod in_words;
pub mod keyword;
pub mod line;
pub mod number;
pub mod opening;
pub mod reading;
pub mod spaced;
pub mod told;
pub mod words;
