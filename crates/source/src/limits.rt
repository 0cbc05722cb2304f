// Limits on texts and values.

pub const LONGEST_TEXT: usize = 65535;

// A member's name in JSON is as long as a name of GraphQL at most.
pub use text::limits::LONGEST_NAME;

// A value at depth 0 is the outermost, and 32 is the deepest.
pub const DEEPEST: usize = 32;
