// What the bytes of a record are made of: its kind, and how long its parts are.
ghost use Rattle.std.specs.Prelude.{◌≡◌};
ghost use Rattle.record.specs.Kinds.{number_of, OfNumber};

// The bytes of a record's header.
pub const HEADER: usize = 6;

// The sign and the exponent of a decimal, before its digits.
pub const SCALE: usize = 5;

#[derive(Clone, Copy, Debug, PartialEq)]
pub enum RecordKind {
    Null = 1,
    Boolean = 2,
    Whole = 3,
    Decimal = 4,
    String = 5,
    List = 6,
    Object = 7,
    // A member's name, which is no value.
    Name = 8,
}

// A number that no kind has.
#[derive(Clone, Copy, Debug, PartialEq)]
pub struct UnknownKind(pub u8);

impl From<RecordKind> for u8 {
    ghost from_gives = { λ kind n. n ≡ number_of kind };

    fn from(kind: RecordKind) -> u8 {
        kind as u8
    }
}

impl TryFrom<u8> for RecordKind {
    type Error = UnknownKind;

    ghost try_from_gives = { OfNumber };

    fn try_from(number: u8) -> Result<Self, UnknownKind> {
        match number {
            1 => Ok(RecordKind::Null),
            2 => Ok(RecordKind::Boolean),
            3 => Ok(RecordKind::Whole),
            4 => Ok(RecordKind::Decimal),
            5 => Ok(RecordKind::String),
            6 => Ok(RecordKind::List),
            7 => Ok(RecordKind::Object),
            8 => Ok(RecordKind::Name),
            _ => Err(UnknownKind(number)),
        }
    }
}
