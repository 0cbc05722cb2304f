// The reading of schema texts.
ghost use Rattle.std.specs.Prelude.{◌≡◌, ◌≤◌, List, map, IfOk, vec_len};
ghost use Rattle.schema.specs.Counts.{Few};
ghost use Rattle.text.specs.TokenFound.{view_of};
ghost use Rattle.source.specs.Table.{Table, table_of};
ghost use Rattle.schema.specs.Documents.{Label, Declared, Document};
ghost use Rattle.schema.specs.Holds.{Each, FieldHeld, HeldBy, Holds, LocationsHeld, type_row_of};
ghost use Rattle.schema.specs.Locations.{in_table};
ghost use Rattle.schema.specs.Rows.{base_by};
ghost use Rattle.schema.specs.Reading.{Onward};
ghost use Rattle.schema.specs.SchemaLaws.{OneSchema, SchemaStands, SchemaWithin};
ghost use Rattle.schema.specs.SchemaReading.{keywords, reserved, ReadsAllLocations, ReadsArguments, ReadsContents, ReadsDirective, ReadsFieldList, ReadsManner, ReadsTypeDefinition, ReadsValueList};
ghost use Rattle.schema.specs.SchemaTold.{Added, ContentsAdded, FieldsAdded, ItemTold, KeywordTold, SchemaTold, ValuesAdded, counts, sort_of, unknown};
ghost use Rattle.schema.specs.Told.{Itself, Told, Spelled, is_token};

use crate::declaration;
use crate::declaration::Declaration;
use crate::definition::{
    Directive, EnumValue, Field, MOST_ARGUMENTS, MOST_DIRECTIVES, MOST_FIELDS, MOST_TYPES,
    MOST_VALUES, Schema, TypeDef, TypeKind, base_among,
};
use crate::location::{Location, Locations};
use crate::tokens::{Name, Tokens};
use crate::types::Base;
use source::nodes::Nodes;
use source::raw::Span;
use source::tree::Tree;
use std::alloc::Global;
use text::fault::Fault;
use text::token::{Lexeme, Token};

// What a definition begins with: the kind of a type, or `directive`.
enum Keyword {
    Type(TypeKind),
    Directive,
}

// Reads a schema: any number of definitions.
pub fn read_schema(heap: Global, text: &[u8]) -> Result<Schema<'_>, Fault>
    ensures told { SchemaTold text.now result }
    ensures few { IfOk result Few }
    ensures text { IfOk result (λ s. s.tree.text.now ≡ text.now) }
{
    let mut tokens = Tokens::new(text)?;
    let mut schema = Schema {
        types: Vec::new(heap),
        values: Vec::new(heap),
        fields: Vec::new(heap),
        directives: Vec::new(heap),
        arguments: Vec::new(heap),
        tree: Tree {
            text,
            nodes: Nodes::new(heap),
        },
    };
    while let Some(Name { name, place }) = item_name(&mut tokens, Token::End, true)? {
        match begun_by(name) {
            Some(Keyword::Type(kind)) => definition(&mut tokens, kind, &mut schema)?,
            Some(Keyword::Directive) => directive(&mut tokens, &mut schema)?,
            None => return Err(Fault::BadText(place)),
        }
    }
    resolve(&mut schema);
    Ok(schema)
}

// What a name begins a definition of.
fn begun_by(name: &[u8]) -> Option<Keyword>
    ensures { KeywordTold (in_table keywords name.now) result }
{
    match name {
        b"directive" => Some(Keyword::Directive),
        b"scalar" => Some(Keyword::Type(TypeKind::Scalar)),
        b"enum" => Some(Keyword::Type(TypeKind::Enum)),
        b"input" => Some(Keyword::Type(TypeKind::Input)),
        b"type" | b"interface" | b"union" => Some(Keyword::Type(TypeKind::Output)),
        _ => None,
    }
}

// The definition of a type whose keyword was read.
fn definition<'a>(
    tokens: &mut Tokens<'a>,
    kind: TypeKind,
    schema: &mut Schema<'a>,
) -> Result<(), Fault>
    requires few { Few schema.old }
    requires text { schema.old.tree.text.now ≡ tokens.old.text.now }
    ensures told { Told 1 (λ N. ReadsTypeDefinition N (counts schema.old) (sort_of kind)) (λ _ d. Added schema.old schema.new d) tokens.old tokens.new result }
    ensures few { Few schema.new }
    ensures text { schema.new.tree.text.now ≡ schema.old.tree.text.now }
{
    let Name { name, place } = tokens.name()?;
    if schema.types.len() >= MOST_TYPES {
        return Err(Fault::NoSpace(place));
    }
    let inside = contents(tokens, kind, schema)?;
    schema.types.push(TypeDef {
        name,
        place,
        kind,
        inside,
    })?;
    Ok(())
}

// What stands in the braces of a definition, if it has any: where the values or fields that it declares stand.
fn contents<'a>(
    tokens: &mut Tokens<'a>,
    kind: TypeKind,
    schema: &mut Schema<'a>,
) -> Result<Span, Fault>
    requires few { Few schema.old }
    requires text { schema.old.tree.text.now ≡ tokens.old.text.now }
    ensures told { (l : Label) → Told 0 (λ N. ReadsContents N (counts schema.old) l (sort_of kind)) (ContentsAdded schema.old schema.new l kind) tokens.old tokens.new result }
    ensures types { schema.new.types ≡ schema.old.types }
    ensures few { Few schema.new }
    ensures text { schema.new.tree.text.now ≡ schema.old.tree.text.now }
{
    match kind {
        TypeKind::Enum => {
            tokens.expect(Token::OpenBrace)?;
            enum_values(tokens, &mut schema.values)
        }
        TypeKind::Input => {
            tokens.expect(Token::OpenBrace)?;
            fields(
                tokens,
                Token::CloseBrace,
                MOST_FIELDS,
                &mut schema.fields,
                &mut schema.tree.nodes,
            )
        }
        TypeKind::Scalar | TypeKind::Output => Ok(Span::EMPTY),
    }
}

// The name that the next item of a list begins with; none where the list closes, which it may do if `may_close`.
pub(crate) fn item_name<'a>(
    tokens: &mut Tokens<'a>,
    close: Token<'_>,
    may_close: bool,
) -> Result<Option<Name<'a>>, Fault>
    requires { Spelled (view_of close) }
    ensures { ItemTold (is_token (view_of close.entry)) may_close tokens.old tokens.new result }
{
    let Lexeme { token, start, .. } = tokens.next()?;
    if may_close && token == close {
        return Ok(None);
    }
    let Token::Name(name) = token else {
        return Err(Fault::BadText(start));
    };
    Ok(Some(Name { name, place: start }))
}

// Whether an enum value may not have the name.
fn is_reserved(name: &[u8]) -> bool
    ensures { result ≡ reserved name.now }
{
    matches!(name, b"true" | b"false" | b"null")
}

// The values of an enum before the `}`, at least one: where they stand.
fn enum_values<'a>(tokens: &mut Tokens<'a>, values: &mut Vec<EnumValue<'a>>) -> Result<Span, Fault>
    requires { vec_len values.old ≤ 1024 }
    ensures told { Told 0 (λ N. ReadsValueList N (vec_len values.old)) (ValuesAdded values.old.items values.new.items) tokens.old tokens.new result }
    ensures onward { IfOk result (λ _. Onward 0 tokens.old tokens.new) }
    ensures few { vec_len values.new ≤ 1024 }
{
    let from = values.len();
    while let Some(value) = item_name(tokens, Token::CloseBrace, values.len() != from)? {
        if is_reserved(value.name) {
            return Err(Fault::BadText(value.place));
        }
        if values.len() >= MOST_VALUES {
            return Err(Fault::NoSpace(value.place));
        }
        values.push(value)?;
    }
    Ok(Span {
        from,
        to: values.len(),
    })
}

// The fields of an input object, or the arguments of a directive, before the closing mark, at least one: where they stand.
fn fields<'a>(
    tokens: &mut Tokens<'a>,
    close: Token<'_>,
    most: usize,
    table: &mut Vec<Field<'a>>,
    nodes: &mut Nodes,
) -> Result<Span, Fault>
    requires closes { Spelled (view_of close) }
    requires few { vec_len table.old ≤ most }
    ensures told { Told 0 (λ N. ReadsFieldList N (is_token (view_of close.entry)) most (vec_len table.old)) (FieldsAdded (table_of tokens.old.text.now nodes.old) (table_of tokens.old.text.now nodes.new) table.old.items table.new.items) tokens.old tokens.new result }
    ensures onward { IfOk result (λ _. Onward 0 tokens.old tokens.new) }
    ensures few { vec_len table.new ≤ most }
{
    let from = table.len();
    while let Some(Name { name, place }) = item_name(tokens, close, table.len() != from)? {
        if table.len() >= most {
            return Err(Fault::NoSpace(place));
        }
        let Declaration { ty, default } = declaration::declared(tokens, nodes)?;
        table.push(Field {
            name,
            place,
            ty: ty.of(Base::Unknown),
            default,
        })?;
    }
    Ok(Span {
        from,
        to: table.len(),
    })
}

// The definition of a directive, whose keyword was read.
fn directive<'a>(tokens: &mut Tokens<'a>, schema: &mut Schema<'a>) -> Result<(), Fault>
    requires few { Few schema.old }
    requires text { schema.old.tree.text.now ≡ tokens.old.text.now }
    ensures told { Told 1 (λ N. ReadsDirective N (counts schema.old)) (λ _ d. Added schema.old schema.new d) tokens.old tokens.new result }
    ensures few { Few schema.new }
    ensures text { schema.new.tree.text.now ≡ schema.old.tree.text.now }
{
    tokens.expect(Token::At)?;
    let Name { name, place } = tokens.name()?;
    if schema.directives.len() >= MOST_DIRECTIVES {
        return Err(Fault::NoSpace(place));
    }
    let arguments = arguments(tokens, &mut schema.arguments, &mut schema.tree.nodes)?;
    let repeatable = is_repeatable(tokens)?;
    let locations = locations(tokens)?;
    schema.directives.push(Directive {
        name,
        place,
        arguments,
        locations,
        repeatable,
    })?;
    Ok(())
}

// The arguments of a directive, if it has any: where they stand.
fn arguments<'a>(
    tokens: &mut Tokens<'a>,
    table: &mut Vec<Field<'a>>,
    nodes: &mut Nodes,
) -> Result<Span, Fault>
    requires { vec_len table.old ≤ 256 }
    ensures told { Told 0 (λ N. ReadsArguments N (vec_len table.old)) (FieldsAdded (table_of tokens.old.text.now nodes.old) (table_of tokens.old.text.now nodes.new) table.old.items table.new.items) tokens.old tokens.new result }
    ensures few { vec_len table.new ≤ 256 }
{
    let from = table.len();
    match tokens.eat(Token::OpenParen)? {
        Some(_) => fields(tokens, Token::CloseParen, MOST_ARGUMENTS, table, nodes),
        None => Ok(Span { from, to: from }),
    }
}

// Whether a directive is repeatable, with the `on` after that.
fn is_repeatable(tokens: &mut Tokens<'_>) -> Result<bool, Fault>
    ensures { Told 0 (λ N. ReadsManner N) Itself tokens.old tokens.new result }
{
    let repeatable = tokens.eat(Token::Name(b"repeatable"))?.is_some();
    tokens.expect(Token::Name(b"on"))?;
    Ok(repeatable)
}

// The locations that come next, at least one, with a `|` between them; one may stand before the first.
fn locations(tokens: &mut Tokens<'_>) -> Result<Locations, Fault>
    ensures told { Told 1 (λ N. ReadsAllLocations N) LocationsHeld tokens.old tokens.new result }
    ensures onward { IfOk result (λ _. Onward 1 tokens.old tokens.new) }
{
    let mut locations = Locations::NONE;
    tokens.eat(Token::Pipe)?;
    loop {
        let Name { name, place } = tokens.name()?;
        let Some(location) = Location::named(name) else {
            return Err(Fault::BadText(place));
        };
        locations = locations.with(location);
        if tokens.eat(Token::Pipe)?.is_none() {
            return Ok(locations);
        }
    }
}

// Finds what the types of all fields and arguments stand for, once all types are declared.
fn resolve(schema: &mut Schema<'_>)
    ensures few { Few schema.old → Few schema.new }
    ensures text { schema.new.tree.text.now ≡ schema.old.tree.text.now }
    ensures holds { (D : Document) → HeldBy unknown schema.old D → Holds schema.new D }
{
    resolve_in(schema.types.as_slice(), &mut schema.fields);
    resolve_in(schema.types.as_slice(), &mut schema.arguments);
}

// Finds what the types of the fields stand for, where these types are declared.
fn resolve_in(types: &[TypeDef<'_>], fields: &mut Vec<Field<'_>>)
    ensures len { vec_len fields.new ≡ vec_len fields.old }
    ensures held { (T : Table) (ds : List Declared) → Each (FieldHeld unknown T) fields.old.items ds → Each (FieldHeld (base_by (map type_row_of types.now)) T) fields.new.items ds }
{
    for field in fields.iter_mut() {
        field.ty = field.ty.of(base_among(types, field.ty.name));
    }
}

// Each text comes to one document, or to one fault; the document is what the grammar has, within the limits.
pub fn one_schema()
    ensures once { OneSchema }
    ensures stands { SchemaStands }
    ensures within { SchemaWithin }
{}
