// Where directives may stand (section 3.13).
ghost use Rattle.std.specs.Prelude.{◌≡◌, ◌∷◌, ◌++◌, [], List, map, option_map, find};
ghost use Rattle.std.specs.Str.{bytes_eq};
ghost use Rattle.model.specs.Values.{Location as Place};
ghost use Rattle.schema.specs.Locations.{in_table, location_called, location_in as listed, location_number};
ghost use Rattle.schema.specs.LocationTold.{location_of, row_of, NamedTold};
ghost use Rattle.schema.specs.Holds.{LocationsHeld};

// DirectiveLocation of the standard.
#[derive(Clone, Copy, Debug, PartialEq)]
pub enum Location {
    Query,
    Mutation,
    Subscription,
    Field,
    FragmentDefinition,
    FragmentSpread,
    InlineFragment,
    VariableDefinition,
    Schema,
    Scalar,
    Object,
    FieldDefinition,
    ArgumentDefinition,
    Interface,
    Union,
    Enum,
    EnumValue,
    InputObject,
    InputFieldDefinition,
}

pub const LOCATION_COUNT: usize = 19;

// The locations by their names.
pub const LOCATIONS: [(&[u8], Location); LOCATION_COUNT] = [
    (b"QUERY", Location::Query),
    (b"MUTATION", Location::Mutation),
    (b"SUBSCRIPTION", Location::Subscription),
    (b"FIELD", Location::Field),
    (b"FRAGMENT_DEFINITION", Location::FragmentDefinition),
    (b"FRAGMENT_SPREAD", Location::FragmentSpread),
    (b"INLINE_FRAGMENT", Location::InlineFragment),
    (b"VARIABLE_DEFINITION", Location::VariableDefinition),
    (b"SCHEMA", Location::Schema),
    (b"SCALAR", Location::Scalar),
    (b"OBJECT", Location::Object),
    (b"FIELD_DEFINITION", Location::FieldDefinition),
    (b"ARGUMENT_DEFINITION", Location::ArgumentDefinition),
    (b"INTERFACE", Location::Interface),
    (b"UNION", Location::Union),
    (b"ENUM", Location::Enum),
    (b"ENUM_VALUE", Location::EnumValue),
    (b"INPUT_OBJECT", Location::InputObject),
    (b"INPUT_FIELD_DEFINITION", Location::InputFieldDefinition),
];

impl Location {
    // The location of that name.
    pub fn named(name: &[u8]) -> Option<Location>
        ensures { NamedTold (location_called name.now) result }
    {
        location_in(&LOCATIONS, name)
    }

    // Its place in the table of locations.
    fn number(self) -> usize
        ensures { result ≡ location_number (location_of self) }
    {
        self as usize
    }
}

// The location of that name among the rows of a table.
fn location_in(rows: &[(&[u8], Location)], name: &[u8]) -> Option<Location>
    ensures { NamedTold (in_table (map row_of rows.now) name.now) result }
{
    first(rows, name)
}

// A function of its own, since what `find` finds is not told to a proof past its closures.
fn first(rows: &[(&[u8], Location)], name: &[u8]) -> Option<Location>
    ensures { result ≡ option_map (λ r. r.1) (find (λ r. bytes_eq r.0.now name.now) rows.now) }
{
    rows.iter()
        .find(|(word, _)| *word == name)
        .map(|(_, location)| *location)
}

// A set of locations.
#[derive(Clone, Copy, Debug)]
pub struct Locations {
    // Of each location, in the order of its declaration.
    flags: [bool; LOCATION_COUNT],
}

impl Locations {
    pub const NONE: Locations = Locations {
        flags: [false; LOCATION_COUNT],
    };

    pub fn contains(self, location: Location) -> bool
        ensures { (ls : List Place) → LocationsHeld self ls → result ≡ listed ls (location_number (location_of location)) }
    {
        self.flags[location.number()]
    }

    // The set and one location more.
    pub(crate) fn with(self, location: Location) -> Locations
        ensures { (ls : List Place) → LocationsHeld self ls → LocationsHeld result (ls ++ location_of location ∷ []) }
    {
        let mut flags = self.flags;
        flags[location.number()] = true;
        Locations { flags }
    }
}
