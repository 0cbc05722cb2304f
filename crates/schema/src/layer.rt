ghost use Rattle.std.specs.Prelude.{◌≡◌, Some};
ghost use Rattle.schema.specs.Words.{word_of};

use std::fmt;

// The layer that refuses.
#[derive(Clone, Copy, Debug, PartialEq)]
pub enum Layer {
    Text,
    Schema,
    Value,
    Request,
}

impl Layer {
    pub fn word(self) -> &'static str
        ensures { result.now ≡ word_of self }
    {
        match self {
            Layer::Text => "text",
            Layer::Schema => "schema",
            Layer::Value => "value",
            Layer::Request => "request",
        }
    }
}

impl fmt::Display for Layer {
    ghost output = { λ l. Some (word_of l) };

    fn fmt<W: fmt::Write>(&self, f: &mut fmt::Formatter<W>) -> fmt::Result {
        f.write_str(self.word())
    }
}
