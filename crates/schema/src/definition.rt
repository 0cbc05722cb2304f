// Schemas: the types and directives that a text declares.
ghost use Rattle.std.specs.Prelude.{◌≡◌, List, map, unwrap_or};
ghost use Rattle.lookup.specs.First.{First};
ghost use Rattle.schema.specs.Documents.{Document};
ghost use Rattle.schema.specs.Holds.{Holds, type_row_of};
ghost use Rattle.schema.specs.Rows.{TypeRow, base_among as base_among_rows, base_by, base_in, base_of};

use crate::location::Locations;
use crate::tokens::Name;
use crate::types::{Base, Type};
use lookup::{Lookup, Named, Table};
use reader::literal::Literal;
use source::raw::Span;
use source::tree::Tree;

pub const MOST_TYPES: usize = 256;

pub const MOST_VALUES: usize = 1024;

pub const MOST_FIELDS: usize = 1024;

pub const MOST_DIRECTIVES: usize = 64;

// Of all directives of a schema.
pub const MOST_ARGUMENTS: usize = 256;

#[derive(Clone, Copy, Debug, PartialEq)]
pub enum TypeKind {
    Scalar,
    Enum,
    Input,
    // Object types, interfaces and unions.
    Output,
}

impl TypeKind {
    // What the name of a type of this kind stands for.
    fn base(self, index: usize) -> Base
        ensures { result ≡ base_of self index }
    {
        match self {
            TypeKind::Scalar => Base::Custom(index),
            TypeKind::Enum => Base::Enum(index),
            TypeKind::Input => Base::Input(index),
            TypeKind::Output => Base::Output,
        }
    }
}

#[derive(Clone, Copy)]
pub struct TypeDef<'a> {
    // Beside its place and not a `Name` with it, as clauses and callers have it.
    pub name: &'a [u8],
    // The offset of the name in the schema's text.
    pub place: usize,
    pub kind: TypeKind,
    // Where its values or fields stand.
    pub inside: Span,
}

// A value of an enum.
pub type EnumValue<'a> = Name<'a>;

// A field of an input object, or an argument of a directive.
#[derive(Clone, Copy)]
pub struct Field<'a> {
    pub name: &'a [u8],
    pub place: usize,
    pub ty: Type<'a>,
    // The cursor of the default in the schema's tree.
    pub default: Option<usize>,
}

#[derive(Clone, Copy)]
pub struct Directive<'a> {
    pub name: &'a [u8],
    pub place: usize,
    // Where its arguments stand.
    pub arguments: Span,
    pub locations: Locations,
    pub repeatable: bool,
}

impl Named for TypeDef<'_> {
    ghost called = { λ t. t.name.now };

    fn name(&self) -> &[u8] {
        self.name
    }
}

impl Named for Field<'_> {
    ghost called = { λ f. f.name.now };

    fn name(&self) -> &[u8] {
        self.name
    }
}

impl Named for Directive<'_> {
    ghost called = { λ d. d.name.now };

    fn name(&self) -> &[u8] {
        self.name
    }
}

// The rows of all definitions, each table in the order of the text.
#[derive(Drop)]
pub struct Schema<'a> {
    pub types: Vec<TypeDef<'a>>,
    pub values: Vec<EnumValue<'a>>,
    pub fields: Vec<Field<'a>>,
    pub directives: Vec<Directive<'a>>,
    pub arguments: Vec<Field<'a>>,
    // The defaults of fields and arguments.
    pub tree: Tree<'a>,
}

ghost use Rattle.model.specs.Values.{has};
ghost use Rattle.schema.specs.Spans.{rows_in, inside_at};

// The records that stand in the span; none where it does not stand.
pub fn between<R>(records: &[R], span: Span) -> &[R]
    ensures { result.now ≡ rows_in records.now span }
{
    records.get(span.from..span.to).unwrap_or(&[])
}

// What a name stands for without any schema.
pub fn built_in(name: &[u8]) -> Option<Base>
    ensures { (rows : List TypeRow) → base_by rows name.now ≡ unwrap_or result (base_among_rows rows 0 name.now) }
{
    match name {
        b"Int" => Some(Base::Int),
        b"Float" => Some(Base::Float),
        b"String" => Some(Base::String),
        b"Boolean" => Some(Base::Boolean),
        b"ID" => Some(Base::Id),
        _ => None,
    }
}

// What a type's name stands for, where these types are declared.
pub(crate) fn base_among(types: &[TypeDef<'_>], name: &[u8]) -> Base
    ensures { result ≡ base_by (map type_row_of types.now) name.now }
{
    if let Some(base) = built_in(name) {
        return base;
    }
    match Table::new(types).find(name) {
        Some(index) => types[index].kind.base(index),
        None => Base::Unknown,
    }
}

impl<'a> Schema<'a> {
    // What a type's name stands for.
    pub fn base(&self, name: &[u8]) -> Base
        ensures { (D : Document) → Holds self.now D → result ≡ base_in D name.now }
    {
        base_among(&self.types, name)
    }

    // The first type with the name.
    pub fn find(&self, name: &[u8]) -> Option<usize>
        ensures { First (map (λ x. x.name.now) self.now.types.items) name.now result }
    {
        Table::new(self.types.as_slice()).find(name)
    }

    // The first directive with the name.
    pub fn find_directive(&self, name: &[u8]) -> Option<usize>
        ensures { First (map (λ x. x.name.now) self.now.directives.items) name.now result }
    {
        Table::new(self.directives.as_slice()).find(name)
    }

    // The name of a declared type; of none the empty name, which is what callers would take in place of a None.
    pub fn type_name(&self, index: usize) -> &[u8] {
        self.types.get(index).map(|ty| ty.name).unwrap_or_default()
    }

    // Where the values or fields of a declared type stand; those of none nowhere.
    pub fn inside(&self, index: usize) -> Span
        ensures { result ≡ inside_at self.now.types.items index }
    {
        match self.types.get(index) {
            Some(ty) => ty.inside,
            None => Span::EMPTY,
        }
    }

    // The values of an enum.
    pub fn values_of(&self, index: usize) -> &[EnumValue<'a>]
        ensures { result.now ≡ rows_in self.now.values.items (inside_at self.now.types.items index) }
    {
        between(self.values.as_slice(), self.inside(index))
    }

    // The fields of an input object.
    pub fn fields_of(&self, index: usize) -> &[Field<'a>]
        ensures { result.now ≡ rows_in self.now.fields.items (inside_at self.now.types.items index) }
    {
        between(self.fields.as_slice(), self.inside(index))
    }

    // The number of the first field of an input object; of none 0.
    pub fn first_field(&self, index: usize) -> usize
        ensures { result ≡ (inside_at self.now.types.items index).from }
    {
        self.inside(index).from
    }

    // The arguments of a directive.
    pub fn arguments_of(&self, directive: &Directive<'_>) -> &[Field<'a>]
        ensures { result.now ≡ rows_in self.now.arguments.items directive.now.arguments }
    {
        between(self.arguments.as_slice(), directive.arguments)
    }

    pub fn field(&self, index: usize) -> Option<&Field<'a>> {
        self.fields.get(index)
    }

    // Whether an enum has a value of that name.
    pub fn has_value(&self, index: usize, name: &[u8]) -> bool
        ensures { result ≡ has (map (λ v. v.name.now) (rows_in self.now.values.items (inside_at self.now.types.items index))) name.now }
    {
        Table::new(self.values_of(index)).find(name).is_some()
    }

    // The default that stands at a cursor.
    pub fn literal(&self, at: usize) -> Literal<'_, 'a> {
        Literal::new(&self.tree, at)
    }
}
