// Limits on tokens.

// The digits of an exponent write less than this.
pub const LONG_EXPONENT: u32 = 1_000_000;

// The most bytes of a number, its sign included.
pub const LONGEST_NUMBER: usize = 1000;

// The most bytes of a name of GraphQL.
pub const LONGEST_NAME: usize = 127;
