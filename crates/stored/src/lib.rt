// A sheet's bytes, read in place as raw values.
#![tactic(auto)]

mod content;
mod header;
mod reading;
pub mod stored;
