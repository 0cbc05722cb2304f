// The laws of the cursor over a text.
ghost use Rattle.schema.specs.Laws.{OneCursor, PassesOne};

// What `Tokens::{name, expect, eat}` promise has one answer and leaves one place, and passes one token or none.
pub fn one_cursor()
    ensures once { OneCursor }
    ensures passes { PassesOne }
{}
