// The tests of the types that a schema writes: each name is declared, and an input type's.
ghost use Rattle.std.specs.Prelude.{◌≡◌, ◌↔◌, ◌⊎◌, IsTrue};
ghost use Rattle.schema.specs.Documents.{Document};
ghost use Rattle.schema.specs.Holds.{Holds};
ghost use Rattle.validation.specs.Places.{StandsFor, BasedAt};
ghost use Rattle.validation.specs.Making.{FirstFault, UnknownAt, NotInputAt};

use crate::place;
use schema::definition::{Field, Schema};
use schema::types::{Base, Type};

// The first type whose name stands for nothing.
pub fn unknown_type(schema: &Schema<'_>) -> Option<usize>
    ensures { (D : Document) → Holds schema.now D → FirstFault (UnknownAt D) result }
{
    first_with(schema, Base::Unknown)
}

// The first type that is no input type.
pub fn not_input(schema: &Schema<'_>) -> Option<usize>
    ensures { (D : Document) → Holds schema.now D → FirstFault (NotInputAt D) result }
{
    first_with(schema, Base::Output)
}

// The first type whose name stands for this, of all fields and arguments.
fn first_with(schema: &Schema<'_>, base: Base) -> Option<usize>
    ensures { FirstFault (λ p. StandsFor base schema.now.fields.items p ⊎ StandsFor base schema.now.arguments.items p) result }
{
    place::lesser(
        first_among(&schema.fields, base),
        first_among(&schema.arguments, base),
    )
}

// The first type whose name stands for this.
fn first_among(fields: &[Field<'_>], base: Base) -> Option<usize>
    ensures { FirstFault (StandsFor base fields.now) result }
{
    let mut first = None;
    for field in fields {
        if stands_for(field.ty.shape.base, base) {
            first = place::lesser(first, Some(field.ty.place));
        }
    }
    first
}

// Where the type's name is written, if it stands for this.
pub(crate) fn based(ty: Type<'_>, base: Base) -> Option<usize>
    ensures { FirstFault (BasedAt base ty.entry) result }
{
    if stands_for(ty.shape.base, base) {
        return Some(ty.place);
    }
    None
}

fn stands_for(one: Base, other: Base) -> bool
    ensures { IsTrue result ↔ (one ≡ other) }
{
    one == other
}
