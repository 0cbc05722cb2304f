// Why a schema or an operation is refused.
ghost use Rattle.std.specs.Prelude.{◌≡◌};
ghost use Rattle.validation.specs.declared.fault.MakeFault.TheVariants.{Text as TextFault};
ghost use Rattle.text.specs.declared.fault.Fault.TheVariants.{NoMemory};
ghost use Rattle.validation.specs.Faults.{number_of, layer_of, place_of};

use schema::layer::Layer;
use std::alloc::AllocError;
use text::fault::Fault;

// The place is an offset in the text.
#[derive(Clone, Copy, Debug, PartialEq)]
pub enum MakeFault {
    Text(Fault),
    UnknownType(usize),
    NotInput(usize),
    BadDefault(usize),
    DefaultCycle(usize),
}

// By hand: a derived `From` does not promise which case it gives.
impl From<Fault> for MakeFault {
    ghost from_gives = { λ e r. r ≡ TextFault e };

    fn from(fault: Fault) -> MakeFault {
        MakeFault::Text(fault)
    }
}

impl From<AllocError> for MakeFault {
    ghost from_gives = { λ _ f. f ≡ TextFault NoMemory };

    fn from(_error: AllocError) -> MakeFault {
        MakeFault::Text(Fault::NoMemory)
    }
}

impl MakeFault {
    // The number of the refusal; none for want of memory, which is no refusal.
    pub fn number(self) -> Option<u8>
        ensures { result ≡ number_of self }
    {
        match self {
            MakeFault::Text(fault) => fault.number(),
            MakeFault::UnknownType(_) => Some(6),
            MakeFault::NotInput(_) => Some(7),
            MakeFault::BadDefault(_) => Some(8),
            MakeFault::DefaultCycle(_) => Some(9),
        }
    }

    // The layer that refuses.
    pub fn layer(self) -> Layer
        ensures { result ≡ layer_of self }
    {
        match self {
            MakeFault::Text(_) => Layer::Text,
            _ => Layer::Schema,
        }
    }

    // Where in the text the fault lies.
    pub fn place(self) -> usize
        ensures { result ≡ place_of self }
    {
        match self {
            MakeFault::Text(fault) => fault.place(),
            MakeFault::UnknownType(at)
            | MakeFault::NotInput(at)
            | MakeFault::BadDefault(at)
            | MakeFault::DefaultCycle(at) => at,
        }
    }
}
