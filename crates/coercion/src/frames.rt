// The open records of a walk.
ghost use Rattle.std.specs.Prelude.{◌≡◌};
ghost use Rattle.coercion.specs.Frames.{field_in, default_in};

use arrayvec::ArrayVec;
use schema::types::Shape;
pub use source::limits::DEEPEST;
use source::raw::Span;

// What is still to come in an open record.
#[derive(Clone, Copy)]
pub enum Rest {
    // A value that counts as a list of one.
    Single(usize),
    Items(Span),
    // Members, each with its name.
    Members(Span),
    // Of an input object: the members that are not looked at yet, and the indices of the fields.
    Fields { members: Span, fields: Span },
}

// What a value is in. A default of the schema is always one of a field.
#[derive(Clone, Copy, Default)]
pub enum Within {
    // No input field.
    #[default]
    Outside,
    // The innermost input field, by its index.
    Field(usize),
    // The same, and the default of that field, or of one around it.
    Default(usize),
}

impl Within {
    // The index of the innermost input field.
    pub(crate) fn field(self) -> Option<usize>
        ensures { result ≡ field_in self }
    {
        match self {
            Within::Outside => None,
            Within::Field(index) | Within::Default(index) => Some(index),
        }
    }

    // Whether it is a default of the schema.
    pub(crate) fn is_default(self) -> bool
        ensures { result ≡ default_in self }
    {
        matches!(self, Within::Default(_))
    }
}

// What is in a record, and how it is taken.
#[derive(Clone, Copy, Default)]
pub struct Inside {
    // Of a list or an object, what is still to come.
    pub rest: Option<Rest>,
    // The type of that. Inside a custom scalar, where everything is kept as it is, there is none; of an input object it
    // is that of the field taken last.
    pub shape: Option<Shape>,
    // The custom scalar that the record is a value of.
    pub scalar: Option<usize>,
}

// An open record.
#[derive(Clone, Copy, Default)]
pub struct Frame {
    pub inside: Inside,
    // Where the record starts in the working bytes.
    pub start: usize,
    // The cursor of the record's raw value.
    pub at: usize,
    // What the value is in.
    pub within: Within,
}

// The open records, the innermost last.
pub type Frames = ArrayVec<Frame, DEEPEST>;
