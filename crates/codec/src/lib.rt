// Events and answers as bytes: the number that each goes by, in one byte, and then what it carries, each number in eight bytes, the lowest first.
#![tactic(auto)]

pub mod answer;
pub mod event;
pub mod number;
pub mod theorems;
