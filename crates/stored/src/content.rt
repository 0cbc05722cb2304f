// The bodies of records.
ghost use Rattle.std.specs.Prelude.{◌≡◌, IsUtf8, Decides};
ghost use Rattle.text.specs.NormalForm.{WholeForm};
ghost use Rattle.model.specs.Limits.{NameLimits};
ghost use Rattle.stored.specs.declared.content.BodyError.TheVariants.{BadForm};
ghost use Rattle.stored.specs.Contents.{BooleanForm, Positive, zero_body, DecimalForm, leaf_of, fault_at, ContentTold};

use crate::header::Record;
use record::kind::{RecordKind, SCALE, UnknownKind};
use source::limits::LONGEST_NAME;
use std::str::from_utf8;
use text::fault::Fault;
use text::limits::LONGEST_NUMBER;

// What a record holds.
#[derive(Clone, Copy, Debug, PartialEq)]
pub enum Content {
    // A value that holds no others.
    Leaf,
    List,
    Object,
}

// Why a record holds no value.
#[derive(Clone, Copy, Debug, PartialEq)]
pub enum BodyError {
    // The body is not what the kind wants, or no value has the kind.
    BadForm,
    // A number of too many digits.
    LongNumber,
}

// By hand: a derived `From` does not promise which case it gives.
impl From<UnknownKind> for BodyError {
    ghost from_gives = { λ _ e. e ≡ BadForm };

    fn from(_kind: UnknownKind) -> BodyError {
        Self::BadForm
    }
}

impl BodyError {
    // That fault of the record at `place`.
    pub fn at(self, place: usize) -> Fault
        ensures { result ≡ fault_at self place }
    {
        match self {
            BodyError::BadForm => Fault::BadText(place),
            BodyError::LongNumber => Fault::LongNumber(place),
        }
    }
}

// A boolean: 0 or 1.
fn boolean_form(body: &[u8]) -> bool
    ensures { Decides result (BooleanForm body.now) }
{
    matches!(body, [0 | 1])
}

// Digits that do not begin with a zero.
fn positive(digits: &[u8]) -> bool
    ensures { Decides result (Positive digits.now) }
{
    match digits {
        [b'1'..=b'9', rest @ ..] => rest.iter().all(u8::is_ascii_digit),
        _ => false,
    }
}

// A whole number in normal form.
fn whole_form(text: &[u8]) -> bool
    ensures { Decides result (WholeForm text.now) }
{
    match text {
        [b'0'] => true,
        [b'-', digits @ ..] => positive(digits),
        digits => positive(digits),
    }
}

// The decimal 0.
fn zero(body: &[u8]) -> bool
    ensures { Decides result (body.now ≡ zero_body) }
{
    body == b"\0\0\0\0\00".as_slice()
}

// A decimal in normal form: the sign, the exponent in four bytes, the digits.
fn decimal_form(body: &[u8]) -> bool
    ensures { Decides result (DecimalForm body.now) }
{
    match body {
        [0 | 1, _, _, _, _, .., b'0'] => zero(body),
        [0 | 1, _, _, _, _, digits @ ..] => positive(digits),
        _ => false,
    }
}

fn text_form(body: &[u8]) -> bool
    ensures { Decides result (IsUtf8 body.now) }
{
    from_utf8(body).is_ok()
}

// A member's name.
pub fn name_form(body: &[u8]) -> bool
    ensures { Decides result (NameLimits body.now) }
{
    body.len() <= LONGEST_NAME && text_form(body)
}

fn leaf(good: bool) -> Result<Content, BodyError>
    ensures { result ≡ leaf_of good }
{
    good.then_some(Content::Leaf).ok_or(BodyError::BadForm)
}

impl Record<'_> {
    // What it holds.
    pub fn content(self) -> Result<Content, BodyError>
        ensures { ContentTold self.entry.kind self.entry.body.now result }
    {
        let body = self.body;
        match RecordKind::try_from(self.kind)? {
            RecordKind::Null => leaf(body.is_empty()),
            RecordKind::Boolean => leaf(boolean_form(body)),
            RecordKind::Whole if body.len() > LONGEST_NUMBER => Err(BodyError::LongNumber),
            RecordKind::Whole => leaf(whole_form(body)),
            RecordKind::Decimal if body.len() > SCALE + LONGEST_NUMBER => Err(
                BodyError::LongNumber,
            ),
            RecordKind::Decimal => leaf(decimal_form(body)),
            RecordKind::String => leaf(text_form(body)),
            RecordKind::List => Ok(Content::List),
            RecordKind::Object => Ok(Content::Object),
            RecordKind::Name => Err(BodyError::BadForm),
        }
    }
}
