// Raw values read from texts: JSON's and GraphQL's literals, into one table of nodes.
#![tactic(auto)]

mod begin;
pub mod document;
pub mod literal;
mod reading;
mod value;
