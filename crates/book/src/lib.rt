// The book that the keeper has in lent memory: what its header says, where the lowest place of a class is, and how it changes as pieces come and go.
// No word of it is trusted: each function is told exactly for every memory.
#![tactic(auto)]

pub mod changes;
pub mod class;
pub mod plan;
pub mod spots;
