// The test of repeated names in a schema.
ghost use Rattle.std.specs.Prelude.{◌≡◌};
ghost use Rattle.model.specs.Values.{has};
ghost use Rattle.schema.specs.Documents.{Document};
ghost use Rattle.schema.specs.Holds.{Holds};
ghost use Rattle.validation.specs.Making.{FirstFault, NameTwiceAt, built_in_names};
ghost use Rattle.validation.specs.Repeats.{OneOf, BuiltIn, TwiceInside, TwiceArgued};

use crate::{place, twice};
use schema::definition;
use schema::definition::{Directive, Schema, TypeDef, TypeKind};

// The first name that is declared again; the names of built-in types count as declared.
pub fn name_twice(schema: &Schema<'_>) -> Option<usize>
    ensures { (D : Document) → Holds schema.now D → FirstFault (NameTwiceAt D) result }
{
    let types = place::lesser(built_in(&schema.types), twice::twice(&schema.types));
    let directives = twice::twice(&schema.directives);
    let inside = place::lesser(in_types(schema), in_directives(schema));
    place::lesser(place::lesser(types, directives), inside)
}

// The first type whose name is built in.
fn built_in(types: &[TypeDef<'_>]) -> Option<usize>
    ensures { FirstFault (OneOf BuiltIn types.now) result }
{
    let mut first = None;
    for ty in types {
        if is_built_in(ty.name) {
            first = place::lesser(first, Some(ty.place));
        }
    }
    first
}

fn is_built_in(name: &[u8]) -> bool
    ensures { result ≡ has built_in_names name.now }
{
    matches!(name, b"Int" | b"Float" | b"String" | b"Boolean" | b"ID")
}

// The first name that is twice in an enum or an input object.
fn in_types(schema: &Schema<'_>) -> Option<usize>
    ensures { FirstFault (OneOf (TwiceInside schema.now) schema.now.types.items) result }
{
    let mut first = None;
    for ty in schema.types.iter() {
        first = place::lesser(first, in_type(schema, ty));
    }
    first
}

// The first name that is twice in the type.
fn in_type(schema: &Schema<'_>, ty: &TypeDef<'_>) -> Option<usize>
    ensures { FirstFault (TwiceInside schema.now ty.now) result }
{
    match ty.kind {
        TypeKind::Enum => twice::twice(definition::between(&schema.values, ty.inside)),
        TypeKind::Input => twice::twice(definition::between(&schema.fields, ty.inside)),
        TypeKind::Scalar | TypeKind::Output => None,
    }
}

// The first name that is twice among the arguments of a directive.
fn in_directives(schema: &Schema<'_>) -> Option<usize>
    ensures { FirstFault (OneOf (TwiceArgued schema.now) schema.now.directives.items) result }
{
    let mut first = None;
    for directive in schema.directives.iter() {
        first = place::lesser(first, in_directive(schema, directive));
    }
    first
}

// The first name that is twice among the directive's arguments.
fn in_directive(schema: &Schema<'_>, directive: &Directive<'_>) -> Option<usize>
    ensures { FirstFault (TwiceArgued schema.now directive.now) result }
{
    twice::twice(definition::between(&schema.arguments, directive.arguments))
}
