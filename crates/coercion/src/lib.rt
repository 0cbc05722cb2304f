// Raw values at their types: one walk writes the records of what is accepted.
#![tactic(auto)]

pub mod fault;
pub mod frames;
pub mod rule;
pub mod walk;
