// Why a request is refused.
ghost use Rattle.std.specs.Prelude.{◌≡◌};
ghost use Rattle.coercion.specs.declared.fault.ValueFault.TheVariants.{Text};
ghost use Rattle.sheet.specs.declared.fault.RequestFault.TheVariants.{Value, NoMemory};
ghost use Rattle.sheet.specs.Faults.{number_of, layer_of, spot_of};

use coercion::fault::{Spot, ValueFault};
use schema::layer::Layer;
use std::alloc::AllocError;
use text::fault::Fault;

#[derive(Clone, Copy, Debug, PartialEq)]
pub enum RequestFault {
    Value(ValueFault),
    // A variable has no value, no default, and a type that is not nullable; the place is that of its definition.
    MissingVariable { place: usize, variable: usize },
    NoMemory,
}

// By hand: a derived `From` does not promise which case it gives.
impl From<ValueFault> for RequestFault {
    ghost from_gives = { λ e f. f ≡ Value e };

    fn from(e: ValueFault) -> RequestFault {
        RequestFault::Value(e)
    }
}

impl From<Fault> for RequestFault {
    ghost from_gives = { λ e f. f ≡ Value (Text e) };

    fn from(e: Fault) -> RequestFault {
        RequestFault::Value(ValueFault::Text(e))
    }
}

impl From<AllocError> for RequestFault {
    ghost from_gives = { λ _ f. f ≡ NoMemory };

    fn from(_e: AllocError) -> RequestFault {
        RequestFault::NoMemory
    }
}

impl RequestFault {
    // The number of the refusal; none for want of memory, which is no refusal.
    pub fn number(self) -> Option<u8>
        ensures { result ≡ number_of self }
    {
        match self {
            RequestFault::Value(fault) => fault.number(),
            RequestFault::MissingVariable { .. } => Some(10),
            RequestFault::NoMemory => None,
        }
    }

    // The layer that refuses.
    pub fn layer(self) -> Layer
        ensures { result ≡ layer_of self }
    {
        match self {
            RequestFault::Value(fault) => fault.layer(),
            _ => Layer::Request,
        }
    }

    // Where the fault lies.
    pub fn spot(self) -> Spot
        ensures { result ≡ spot_of self }
    {
        match self {
            RequestFault::Value(fault) => fault.spot(),
            RequestFault::MissingVariable { place, variable } => Spot {
                place,
                variable: Some(variable),
                ..Spot::default()
            },
            RequestFault::NoMemory => Spot::default(),
        }
    }
}
