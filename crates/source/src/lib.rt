// Raw values: the trait through which they are asked, and one table of nodes for JSON and for GraphQL literals.
#![tactic(auto)]

pub mod limits;
pub mod nodes;
pub mod raw;
#[cfg(test)]
mod tests;
mod tokens;
pub mod tree;
pub mod value;
