// Schemas and operations, and the built-in scalars.
#![tactic(auto)]

pub mod cursor;
pub mod declaration;
pub mod definition;
pub mod document;
pub mod laws;
pub mod layer;
pub mod location;
pub mod operation;
pub mod scalars;
pub mod tokens;
pub mod types;
