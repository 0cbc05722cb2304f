// Sheets: the records of an operation's variables.
#![tactic(auto)]

pub mod fault;
pub mod held;
mod load;
