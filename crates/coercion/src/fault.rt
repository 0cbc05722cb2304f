// Why a value is refused.
ghost use Rattle.std.specs.Prelude.{◌≡◌};
ghost use Rattle.coercion.specs.declared.fault.ValueFault.TheVariants.{Text};
ghost use Rattle.coercion.specs.Faults.{number_of, layer_of, spot_of};

use schema::layer::Layer;
use text::fault::Fault;

// Where a fault lies: the offset in the text of the raw value, and the declarations that it was walked at.
#[derive(Clone, Copy, Debug, Default, PartialEq)]
pub struct Spot {
    pub place: usize,
    // The index of the variable.
    pub variable: Option<usize>,
    // The index of the innermost input field.
    pub field: Option<usize>,
}

#[derive(Clone, Copy, Debug, PartialEq)]
pub enum ValueFault {
    // The text of the value cannot be read.
    Text(Fault),
    TooDeep(Spot),
    NoSpace(Spot),
    NullValue(Spot),
    WrongValue(Spot),
    UnknownKey(Spot),
    MissingField(Spot),
    ScalarRefused(Spot),
    VariableInValue(Spot),
}

// By hand: a derived `From` does not promise which case it gives.
impl From<Fault> for ValueFault {
    ghost from_gives = { λ e f. f ≡ Text e };

    fn from(e: Fault) -> ValueFault {
        ValueFault::Text(e)
    }
}

impl ValueFault {
    // The number of the refusal; none for want of memory, which is no refusal.
    pub fn number(self) -> Option<u8>
        ensures { result ≡ number_of self }
    {
        match self {
            ValueFault::Text(fault) => fault.number(),
            ValueFault::TooDeep(_) => Some(2),
            ValueFault::NoSpace(_) => Some(3),
            ValueFault::NullValue(_) => Some(11),
            ValueFault::WrongValue(_) => Some(12),
            ValueFault::UnknownKey(_) => Some(13),
            ValueFault::MissingField(_) => Some(14),
            ValueFault::ScalarRefused(_) => Some(15),
            ValueFault::VariableInValue(_) => Some(17),
        }
    }

    // The layer that refuses.
    pub fn layer(self) -> Layer
        ensures { result ≡ layer_of self }
    {
        match self {
            ValueFault::Text(_) => Layer::Text,
            _ => Layer::Value,
        }
    }

    // Where the fault lies.
    pub fn spot(self) -> Spot
        ensures { result ≡ spot_of self }
    {
        match self {
            ValueFault::Text(fault) => Spot {
                place: fault.place(),
                ..Spot::default()
            },
            ValueFault::TooDeep(spot)
            | ValueFault::NoSpace(spot)
            | ValueFault::NullValue(spot)
            | ValueFault::WrongValue(spot)
            | ValueFault::UnknownKey(spot)
            | ValueFault::MissingField(spot)
            | ValueFault::ScalarRefused(spot)
            | ValueFault::VariableInValue(spot) => spot,
        }
    }
}
