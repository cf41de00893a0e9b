// Pieces of a ground, what is asked of its keeper and what it answers. The types are here; what they mean, and what is promised, is in specs/.
#![tactic(auto)]

pub mod answer;
pub mod block;
pub mod event;
pub mod numbers;
pub mod page;
pub mod theorems;
pub mod unknown_number;
