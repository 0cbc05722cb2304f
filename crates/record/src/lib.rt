// Records: a header (the size of the body in four bytes and the kind in two, little-endian), and the body.
#![tactic(auto)]

pub mod body;
pub mod kind;
pub mod limits;
pub mod working;
