// What a sheet holds.
ghost use Rattle.std.specs.Prelude.{◌≡◌, ◌-◌, ◌≤◌, length, drop, replicate, vec_len};
ghost use Rattle.sheet.specs.Loads.{taken};

pub use record::limits::LONGEST_SHEET as GREATEST_CAPACITY;
use schema::definition::Schema;
pub use schema::operation::MOST_VARIABLES;
use schema::operation::Operation;

// Where the name and the record of a variable stand.
#[derive(Clone, Copy, Debug)]
pub struct Extent {
    pub start: usize,
    pub size: usize,
}

// What is known of the bytes of a sheet after an accepted load.
#[derive(Clone, Copy)]
pub struct Contents {
    // Of the variables that have a value, in the order of their definitions; an array, so that a load allocates nothing.
    pub extents: [Option<Extent>; MOST_VARIABLES],
    // How many bytes of the sheet count.
    pub length: usize,
}

// The names and records of an operation's variables. All memory that it will need is had when it is made.
#[derive(Drop)]
pub struct Sheet<'a, 's, 'o, R> {
    pub(crate) schema: &'a Schema<'s>,
    pub(crate) operation: &'a Operation<'o>,
    pub(crate) rule: R,
    // As many bytes as the capacity, zero past the length.
    pub(crate) bytes: Vec<u8>,
    // As many bytes as the capacity, zero between calls.
    pub(crate) working: Vec<u8>,
    // None before the first load that is accepted.
    pub(crate) contents: Option<Contents>,
    ghost low: { vec_len bytes ≤ 65536 },
    ghost level: { vec_len working ≡ vec_len bytes },
    ghost clear: { working.items ≡ replicate (vec_len working) 0 },
    ghost inside: { taken contents ≤ vec_len bytes },
    ghost past: { drop (taken contents) bytes.items ≡ replicate (vec_len bytes - taken contents) 0 },
}
