// What is fixed at opening: how many pages there are, which classes, how many pieces rest, and the mark.
#![tactic(auto)]

pub mod bytes;
pub mod classes;
pub mod good;
pub mod limits;
pub mod lookup;
