// The names of an object's members, tested for repetition as they are read.
#![tactic(auto)]

pub mod child;
pub mod names;
pub mod part;
