// The bodies of records.
ghost use Rattle.std.specs.Prelude.{◌≡◌, ◌-◌, ◌^◌, min, length};
ghost use Rattle.record.specs.Kinds.{number_of};
ghost use Rattle.record.specs.Records.{kind_of, opened};

use crate::kind::{RecordKind, SCALE};
use text::decimal::Scale;

// What a record holds as it is opened. The contents of a list or an object come later.
#[derive(Clone, Copy, Debug)]
pub enum Body<'a> {
    Null,
    Boolean(bool),
    Whole(&'a [u8]),
    Decimal { scale: Scale, digits: &'a [u8] },
    String(&'a [u8]),
    List,
    Object,
}

impl Body<'_> {
    // The record's kind.
    pub fn kind(self) -> RecordKind
        ensures { number_of result ≡ kind_of self.entry }
    {
        match self {
            Body::Null => RecordKind::Null,
            Body::Boolean(_) => RecordKind::Boolean,
            Body::Whole(_) => RecordKind::Whole,
            Body::Decimal { .. } => RecordKind::Decimal,
            Body::String(_) => RecordKind::String,
            Body::List => RecordKind::List,
            Body::Object => RecordKind::Object,
        }
    }

    // How many bytes the body has as it is opened.
    pub fn size(self) -> usize
        ensures { result ≡ min (length (opened self.entry)) (2 ^ 64 - 1) }
    {
        match self {
            Body::Null | Body::List | Body::Object => 0,
            Body::Boolean(_) => 1,
            Body::Whole(text) | Body::String(text) => text.len(),
            Body::Decimal { digits, .. } => digits.len().saturating_add(SCALE),
        }
    }
}
