// The test of defaults: each is right for its type, and holds no variable.
ghost use Rattle.std.specs.Prelude.{◌≡◌, ◌↔◌, true, List};
ghost use Rattle.std.proofs.Math.Option.{some};
ghost use Rattle.model.specs.Values.{Raw, place_of};
ghost use Rattle.model.specs.Limits.{RawLimits};
ghost use Rattle.model.specs.Checking.{RightDefault};
ghost use Rattle.model.specs.CheckLaws.{NoNameTwice};
ghost use Rattle.model.specs.Cycles.{Among};
ghost use Rattle.source.specs.Table.{tree_table};
ghost use Rattle.schema.specs.Documents.{Declared, Document, OperationDocument, schema_of};
ghost use Rattle.schema.specs.Holds.{Each, FieldHeld, Holds};
ghost use Rattle.schema.specs.HoldsOperation.{HoldsOperation};
ghost use Rattle.schema.specs.Rows.{base_in};
ghost use Rattle.validation.specs.Literals.{type_of};
ghost use Rattle.validation.specs.Making.{FirstFault, WrongDefault, BadDefaultAt, Sourced, BadVariableDefaultAt, VariablesSourced};
ghost use Rattle.validation.specs.Repeats.{OneOf};

use crate::diagnostic::Diagnostic;
use crate::diagnostics::Diagnostics;
use crate::literal::{InputLocation, LiteralCheck};
use crate::place;
use crate::variables::Variables;
use lookup::Table;
use reader::literal::Literal;
use schema::definition::{Field, Schema};
use schema::operation::{Operation, Variable};
use schema::types::Type;
use source::raw::Source;

// Whether a check that knows no variable finds nothing in the literal at the cursor.
fn is_right<S: Source>(source: &S, schema: &Schema<'_>, at: usize, ty: Type<'_>) -> bool
    ensures { (D : Document) (x : Raw) → Holds schema.now D → ty.entry.shape.base ≡ base_in D ty.entry.name.now → S.stands source.now at x → NoNameTwice x → result ≡ true ↔ RightDefault (schema_of D) x (type_of ty.entry) }
{
    let rows: &[Variable<'_>] = &[];
    let names = Table::new(rows);
    let variables = Variables::new(rows, &names, &schema.tree);
    let check = LiteralCheck::new(source, schema, variables);
    let location = InputLocation {
        ty,
        has_default: false,
        place: source.place(at),
    };
    let mut nowhere: [Diagnostic; 0] = [];
    let mut found = Diagnostics::new(&mut nowhere);
    check.check(at, location, &mut found);
    found.total == 0
}

// The place of the default at the cursor, if it is wrong.
fn wrong<S: Source>(source: &S, schema: &Schema<'_>, at: usize, ty: Type<'_>) -> Option<usize>
    ensures { (D : Document) (x : Raw) → Holds schema.now D → ty.entry.shape.base ≡ base_in D ty.entry.name.now → S.stands source.now at x → NoNameTwice x → FirstFault (λ p. (RightDefault (schema_of D) x (type_of ty.entry) → ⊥) × (place_of x ≡ p)) result }
{
    (!is_right(source, schema, at, ty)).then(|| source.place(at))
}

// The first wrong default of fields or arguments.
fn bad_among(schema: &Schema<'_>, fields: &[Field<'_>]) -> Option<usize>
    ensures { (D : Document) (ds : List Declared) → Holds schema.now D → Each (FieldHeld (base_in D) (tree_table schema.now.tree)) fields.now ds → ((d : Declared) → Among d ds → (x : Raw) → d.dflt ≡ some x → RawLimits 0 x) → FirstFault (OneOf (WrongDefault D) ds) result }
{
    let mut first = None;
    for field in fields {
        if let Some(at) = field.default {
            let literal = Literal::new(&schema.tree, at);
            first = place::lesser(first, wrong(&literal, schema, at, field.ty));
        }
    }
    first
}

// The first wrong default of a schema.
pub fn bad_default(schema: &Schema<'_>) -> Option<usize>
    ensures { (D : Document) → Holds schema.now D → Sourced D → FirstFault (BadDefaultAt D) result }
{
    place::lesser(
        bad_among(schema, &schema.fields),
        bad_among(schema, &schema.arguments),
    )
}

// The first wrong default of a variable.
pub fn bad_variable_default(schema: &Schema<'_>, operation: &Operation<'_>) -> Option<usize>
    ensures { (S : Document) (D : OperationDocument) → Holds schema.now S → HoldsOperation (base_in S) operation.now D → VariablesSourced D → FirstFault (BadVariableDefaultAt S D) result }
{
    let mut first = None;
    for variable in operation.variables.iter() {
        if let Some(at) = variable.default {
            let literal = operation.literal(at);
            first = place::lesser(first, wrong(&literal, schema, at, variable.ty));
        }
    }
    first
}
