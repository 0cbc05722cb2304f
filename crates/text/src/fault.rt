ghost use Rattle.std.specs.Prelude.{◌≡◌};
ghost use Rattle.text.specs.declared.fault.Fault.TheVariants.{NoMemory};
ghost use Rattle.text.specs.Faults.{number_of, place_of};

use std::alloc::{AllocError, AllocFailed};

// Why a text is refused, and the place of the fault.
#[derive(Clone, Copy, Debug, PartialEq)]
pub enum Fault {
    BadText(usize),
    TooDeep(usize),
    NoSpace(usize),
    RepeatedName(usize),
    LongNumber(usize),
    NoMemory,
}

impl From<AllocError> for Fault {
    ghost from_gives = { λ _ f. f ≡ NoMemory };

    fn from(_e: AllocError) -> Fault {
        Fault::NoMemory
    }
}

impl<T: Drop> From<AllocFailed<T>> for Fault {
    ghost from_gives = { λ _ f. f ≡ NoMemory };

    fn from(_e: AllocFailed<T>) -> Fault {
        Fault::NoMemory
    }
}

impl Fault {
    // The number of the refusal; none for want of memory, which is no refusal.
    pub fn number(self) -> Option<u8>
        ensures { result ≡ number_of self }
    {
        match self {
            Fault::BadText(_) => Some(1),
            Fault::TooDeep(_) => Some(2),
            Fault::NoSpace(_) => Some(3),
            Fault::RepeatedName(_) => Some(4),
            Fault::LongNumber(_) => Some(5),
            Fault::NoMemory => None,
        }
    }

    // Where in the text the fault lies; 0 for want of memory.
    pub fn place(self) -> usize
        ensures { result ≡ place_of self }
    {
        match self {
            Fault::BadText(at)
            | Fault::TooDeep(at)
            | Fault::NoSpace(at)
            | Fault::RepeatedName(at)
            | Fault::LongNumber(at) => at,
            Fault::NoMemory => 0,
        }
    }
}
