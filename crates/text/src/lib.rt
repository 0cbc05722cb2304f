// From bytes to the tokens of JSON and of GraphQL.
#![tactic(auto)]

pub mod decimal;
pub mod fault;
pub mod graphql;
pub mod json;
pub mod language;
pub mod limits;
pub mod number;
mod run;
pub mod string;
pub mod token;
