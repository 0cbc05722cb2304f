// The check of literals: each value is of the type that is expected where it stands.
ghost use Rattle.std.specs.Prelude.{◌≡◌, ℕ, ◌-◌, ◌<◌, Bool, ◌&&◌, not, cond, List, [], ◌++◌, map, IfSome};
ghost use Rattle.std.proofs.Math.Option.{Option};
ghost use Rattle.text.specs.NumberWorth.{value};
ghost use Rattle.text.specs.NormalForm.{WholeForm, Form as DecimalForm};
ghost use Rattle.model.specs.Values.{Name, Scalar, whole, decimal, string, boolean, symbol, Def, Raw, Raws, Mems, null as null_value, scalar, variable as variable_value, list, object, place_of, Ty, list_of, nullable, find, field_names, Variable};
ghost use Rattle.model.specs.Numbers.{below_bound, digits_in};
ghost use Rattle.model.specs.Coercion.{first_undeclared, member as member_in};
ghost use Rattle.model.specs.Calls.{variable_of};
ghost use Rattle.model.specs.Checking.{found as one_found, unsupported_value_type, float_coercion_error, kept_unless, wrong_scalar, check_usage, undeclared_in, undeclared_in_all, undeclared_in_mems, list_at_name, is_value as is_value_in, has_default, check_required, check_names, check_fields, check_object, check as check_value, check_all, check_member};
ghost use Rattle.source.specs.Heads.{scalar_kind};
ghost use Rattle.source.specs.Standing.{Found};
ghost use Rattle.source.specs.Table.{Table as TreeTable, tree_table};
ghost use Rattle.schema.specs.declared.types.Base.{Base};
ghost use Rattle.schema.specs.Documents.{Document, Declared, field_of, fields_in, schema_of};
ghost use Rattle.schema.specs.Holds.{Each, FieldHeld, Holds};
ghost use Rattle.schema.specs.Ranges.{Numeral};
ghost use Rattle.schema.specs.Rows.{base_in};
ghost use Rattle.validation.specs.Diagnosed.{Noted};
ghost use Rattle.validation.specs.Literals.{type_of, Means, Declares, Knows, ErrorTold, PlaceFound};

use crate::diagnostic::DiagnosticKind;
use crate::diagnostics::Diagnostics;
use crate::variables;
use crate::variables::Variables;
use lookup::{Lookup, Table};
use schema::definition::{Field, Schema};
use schema::scalars;
use schema::types::{Base, Type};
use source::raw::{Kind, Source};

// Where a value stands: as an argument, as a member of an object, or as an item of a list.
#[derive(Clone, Copy)]
pub struct InputLocation<'c> {
    pub ty: Type<'c>,
    pub has_default: bool,
    // Told of a variable that may not be used there as the value.
    pub place: usize,
}

// What stays the same throughout a check.
#[derive_where(Clone, Copy)]
pub struct LiteralCheck<'c, 's, 'v, S, L> {
    pub source: &'c S,
    pub schema: &'c Schema<'s>,
    pub variables: Variables<'c, 'v, L>,
}

impl<'c, 's, 'v, S, L> LiteralCheck<'c, 's, 'v, S, L> {
    pub fn new(
        source: &'c S,
        schema: &'c Schema<'s>,
        variables: Variables<'c, 'v, L>,
    ) -> LiteralCheck<'c, 's, 'v, S, L>
        ensures source { result.source.now ≡ source.now }
        ensures schema { result.schema.now ≡ schema.now }
        ensures variables { result.variables ≡ variables.entry }
    {
        LiteralCheck {
            source,
            schema,
            variables,
        }
    }
}

// What is wrong with a number at Float.
fn float_error(digits: &[u8], exponent: i32) -> Option<DiagnosticKind>
    ensures { Numeral exponent digits.now → ErrorTold (kept_unless (below_bound exponent (value digits.now)) float_coercion_error) result }
{
    (!scalars::finite(digits, exponent)).then_some(DiagnosticKind::FloatCoercionError)
}

// What is wrong with a whole number.
fn whole_error(text: &[u8], base: Base) -> Option<DiagnosticKind>
    ensures { (d : Def) → Means base d → WholeForm text.now → ErrorTold (wrong_scalar d (whole text.now)) result }
{
    match base {
        Base::Int => (!scalars::int(text)).then_some(DiagnosticKind::IntCoercionError),
        Base::Float => float_error(magnitude(text), 0),
        Base::Id | Base::Custom(_) => None,
        _ => Some(DiagnosticKind::UnsupportedValueType),
    }
}

// The digits of a whole number.
fn magnitude(text: &[u8]) -> &[u8]
    ensures { result.now ≡ digits_in text.now }
{
    text.strip_prefix(b"-").unwrap_or(text)
}

// What is wrong with a decimal.
fn decimal_error(digits: &[u8], exponent: i32, base: Base) -> Option<DiagnosticKind>
    ensures { (d : Def) (n : Bool) → Means base d → DecimalForm n exponent digits.now → ErrorTold (wrong_scalar d (decimal (record { negative = n; exponent = exponent; digits = digits.now }))) result }
{
    match base {
        Base::Float => float_error(digits, exponent),
        Base::Custom(_) => None,
        _ => Some(DiagnosticKind::UnsupportedValueType),
    }
}

// What is wrong with a string.
fn string_error(base: Base) -> Option<DiagnosticKind>
    ensures { (d : Def) (s : List ℕ) → Means base d → ErrorTold (wrong_scalar d (string s)) result }
{
    match base {
        Base::String | Base::Id | Base::Custom(_) => None,
        _ => Some(DiagnosticKind::UnsupportedValueType),
    }
}

// What is wrong with a boolean.
fn boolean_error(base: Base) -> Option<DiagnosticKind>
    ensures { (d : Def) (b : Bool) → Means base d → ErrorTold (wrong_scalar d (boolean b)) result }
{
    match base {
        Base::Boolean | Base::Custom(_) => None,
        _ => Some(DiagnosticKind::UnsupportedValueType),
    }
}

impl<'c, S: Source, L: Lookup> LiteralCheck<'c, '_, '_, S, L> {
    // Notes all that is wrong with the value at the cursor, in order.
    #[cycle(literal)]
    pub fn check(&self, at: usize, location: InputLocation<'_>, found: &mut Diagnostics<'_>)
        ensures { (D : Document) (vs : List Variable) (t : Raw) → Knows self.now.schema.now (L.names self.now.variables.names.now) (tree_table self.now.variables.tree.now) self.now.variables.rows.now D vs → location.entry.ty.shape.base ≡ base_in D location.entry.ty.name.now → S.stands self.now.source.now at t → Noted found.old found.new (check_value (schema_of D) vs location.entry.has_default location.entry.place t (type_of location.entry.ty)) }
    {
        match self.source.kind(at) {
            Kind::Null => self.null(at, location.ty, found),
            Kind::Variable => self.variable(at, location, found),
            Kind::List if location.ty.shape.is_list() => self.items(at, location.ty, found),
            Kind::List => self.list(at, location.ty.shape.base, found),
            Kind::Object => self.object(at, location.ty.shape.base, found),
            kind => {
                if let Some(error) = self.scalar_error(at, kind, location.ty.shape.base) {
                    found.note(error, self.source.place(at));
                }
            }
        }
    }

    // Null stands at nullable types.
    fn null(&self, at: usize, ty: Type<'_>, found: &mut Diagnostics<'_>)
        ensures { (p : ℕ) → S.stands self.now.source.now at (null_value p) → Noted found.old found.new (cond (nullable (type_of ty.entry)) [] (one_found unsupported_value_type p)) }
    {
        if ty.shape.is_non_null() {
            found.note(DiagnosticKind::UnsupportedValueType, self.source.place(at));
        }
    }

    // A variable is declared, and may be used there.
    fn variable(&self, at: usize, location: InputLocation<'_>, found: &mut Diagnostics<'_>)
        ensures { (vs : List Variable) (p : ℕ) (n : Name) → Declares (L.names self.now.variables.names.now) (tree_table self.now.variables.tree.now) self.now.variables.rows.now vs → S.stands self.now.source.now at (variable_value p n) → Noted found.old found.new (check_usage location.entry.has_default location.entry.place p (type_of location.entry.ty) (variable_of vs n)) }
    {
        match self.variables.find(self.source.text(at)) {
            None => found.note(DiagnosticKind::UndefinedVariable, self.source.place(at)),
            Some(variable) => {
                if !self
                    .variables
                    .allow(variable, location.ty, location.has_default)
                {
                    found.note(DiagnosticKind::DisallowedVariableUsage, location.place);
                }
            }
        }
    }

    // What is wrong with a value that holds no other, at the name under its type.
    fn scalar_error(&self, at: usize, kind: Kind, base: Base) -> Option<DiagnosticKind>
        ensures { (D : Document) (n : Name) (p : ℕ) (s : Scalar) → Holds self.now.schema.now D → base ≡ base_in D n → S.stands self.now.source.now at (scalar p s) → kind ≡ scalar_kind s → ErrorTold (wrong_scalar (find (schema_of D) n) s) result }
    {
        let text = self.source.text(at);
        match kind {
            Kind::Whole => whole_error(text, base),
            Kind::Decimal => decimal_error(text, self.source.scale(at).exponent, base),
            Kind::String => string_error(base),
            Kind::Boolean => boolean_error(base),
            Kind::Enum => self.enum_error(text, base),
            _ => None,
        }
    }

    // What is wrong with an enum value.
    fn enum_error(&self, text: &[u8], base: Base) -> Option<DiagnosticKind>
        ensures { (D : Document) (n : Name) → Holds self.now.schema.now D → base ≡ base_in D n → ErrorTold (wrong_scalar (find (schema_of D) n) (symbol text.now)) result }
    {
        match base {
            Base::Enum(index) => {
                (!self.schema.has_value(index, text)).then_some(DiagnosticKind::UndefinedEnumValue)
            }
            Base::Custom(_) => None,
            _ => Some(DiagnosticKind::UnsupportedValueType),
        }
    }

    // A list that stands at no list type.
    fn list(&self, at: usize, base: Base, found: &mut Diagnostics<'_>)
        ensures { (D : Document) (vs : List Variable) (n : Name) (p : ℕ) (xs : Raws) → Knows self.now.schema.now (L.names self.now.variables.names.now) (tree_table self.now.variables.tree.now) self.now.variables.rows.now D vs → base ≡ base_in D n → S.stands self.now.source.now at (list p xs) → Noted found.old found.new (list_at_name p (undeclared_in_all vs xs) (find (schema_of D) n)) }
    {
        match base {
            Base::Custom(_) => self.contents(at, found),
            _ => found.note(DiagnosticKind::UnsupportedValueType, self.source.place(at)),
        }
    }

    // In the contents of a custom scalar the variables are declared.
    fn contents(&self, at: usize, found: &mut Diagnostics<'_>)
        ensures { (vs : List Variable) (t : Raw) → Declares (L.names self.now.variables.names.now) (tree_table self.now.variables.tree.now) self.now.variables.rows.now vs → S.stands self.now.source.now at t → Noted found.old found.new (undeclared_in vs t) }
    {
        match self.source.kind(at) {
            Kind::Variable => {
                if self.variables.find(self.source.text(at)).is_none() {
                    found.note(DiagnosticKind::UndefinedVariable, self.source.place(at));
                }
            }
            Kind::List | Kind::Object => {
                for at in self.source.values(at) {
                    self.contents(at, found);
                }
            }
            _ => {}
        }
    }

    // The items of a list.
    #[cycle(literal)]
    fn items(&self, at: usize, ty: Type<'_>, found: &mut Diagnostics<'_>)
        ensures { (D : Document) (vs : List Variable) (p : ℕ) (xs : Raws) (b : Bool) (t : Ty) → Knows self.now.schema.now (L.names self.now.variables.names.now) (tree_table self.now.variables.tree.now) self.now.variables.rows.now D vs → ty.entry.shape.base ≡ base_in D ty.entry.name.now → S.stands self.now.source.now at (list p xs) → type_of ty.entry ≡ list_of b t → Noted found.old found.new (check_all (schema_of D) vs xs t) }
    {
        let item = variables::item(ty);
        for at in self.source.values(at) {
            let location = InputLocation {
                ty: item,
                has_default: false,
                place: self.source.place(at),
            };
            self.check(at, location, found);
        }
    }

    // An object.
    #[cycle(literal)]
    fn object(&self, at: usize, base: Base, found: &mut Diagnostics<'_>)
        ensures { (D : Document) (vs : List Variable) (n : Name) (p : ℕ) (ms : Mems) → Knows self.now.schema.now (L.names self.now.variables.names.now) (tree_table self.now.variables.tree.now) self.now.variables.rows.now D vs → base ≡ base_in D n → S.stands self.now.source.now at (object p ms) → Noted found.old found.new (check_object p ms (undeclared_in_mems vs ms) (check_member (schema_of D) vs ms) (find (schema_of D) n)) }
    {
        match base {
            Base::Custom(_) => self.contents(at, found),
            Base::Input(index) => self.fields(at, self.schema.fields_of(index), found),
            _ => found.note(DiagnosticKind::UnsupportedValueType, self.source.place(at)),
        }
    }

    // The members of an object at an input type: the first of which there is no field, then those of the fields.
    #[cycle(literal)]
    fn fields(&self, at: usize, fields: &[Field<'_>], found: &mut Diagnostics<'_>)
        ensures { (D : Document) (vs : List Variable) (ds : List Declared) (p : ℕ) (ms : Mems) → Knows self.now.schema.now (L.names self.now.variables.names.now) (tree_table self.now.variables.tree.now) self.now.variables.rows.now D vs → Each (FieldHeld (base_in D) (tree_table self.now.schema.now.tree)) fields.now ds → S.stands self.now.source.now at (object p ms) → Noted found.old found.new (check_names (first_undeclared (field_names (fields_in ds)) ms) ++ check_fields p ms (check_member (schema_of D) vs ms) (fields_in ds)) }
    {
        self.first_undeclared(at, fields, found);
        for field in fields {
            self.field(at, field, found);
        }
    }

    // The first member of which there is no field.
    fn first_undeclared(&self, at: usize, fields: &[Field<'_>], found: &mut Diagnostics<'_>)
        ensures { (p : ℕ) (ms : Mems) → S.stands self.now.source.now at (object p ms) → Noted found.old found.new (check_names (first_undeclared (map (λ f. f.name.now) fields.now) ms)) }
    {
        if let Some(member) = self.undeclared(at, fields) {
            found.note(
                DiagnosticKind::UndefinedInputValue,
                self.source.place(member),
            );
        }
    }

    // A field is there if it is required, and its member is right.
    #[cycle(literal)]
    fn field(&self, at: usize, field: &Field<'_>, found: &mut Diagnostics<'_>)
        ensures { (D : Document) (vs : List Variable) (d : Declared) (p : ℕ) (ms : Mems) → Knows self.now.schema.now (L.names self.now.variables.names.now) (tree_table self.now.variables.tree.now) self.now.variables.rows.now D vs → FieldHeld (base_in D) (tree_table self.now.schema.now.tree) field.now d → S.stands self.now.source.now at (object p ms) → Noted found.old found.new (check_required p (field_of d) (member_in ms d.label.name) ++ check_member (schema_of D) vs ms (field_of d)) }
    {
        let member = self.member(at, field.name);
        self.required(at, field, member, found);
        if let Some(member) = member {
            let location = InputLocation {
                ty: field.ty,
                has_default: field.default.is_some(),
                place: self.source.place(member),
            };
            self.check(member, location, found);
        }
    }

    // A field that is required has a member with a value.
    fn required(
        &self,
        at: usize,
        field: &Field<'_>,
        member: Option<usize>,
        found: &mut Diagnostics<'_>,
    )
        ensures { (B : Name → Base) (T : TreeTable) (d : Declared) (p : ℕ) (ms : Mems) (x : Option Raw) → FieldHeld B T field.now d → S.stands self.now.source.now at (object p ms) → Found (S.stands self.now.source.now) x member → Noted found.old found.new (check_required p (field_of d) x) }
    {
        if self.lacks(field, member) {
            found.note(DiagnosticKind::RequiredField, self.source.place(at));
        }
    }

    // Whether a field is non-null and without a default, and there is no value.
    fn lacks(&self, field: &Field<'_>, member: Option<usize>) -> bool
        ensures { (B : Name → Base) (T : TreeTable) (d : Declared) (x : Option Raw) → FieldHeld B T field.now d → Found (S.stands self.now.source.now) x member → result ≡ (not (nullable d.typed.ty) && (not (has_default (field_of d)) && not (is_value_in x))) }
    {
        let has_default = field.default.is_some();
        let has_value = self.is_value(member);
        if has_default || has_value {
            return false;
        }
        field.ty.shape.is_non_null()
    }

    // Whether there is a value, and it is not null.
    fn is_value(&self, at: Option<usize>) -> bool
        ensures { (x : Option Raw) → Found (S.stands self.now.source.now) x at → result ≡ is_value_in x }
    {
        match at {
            Some(at) => self.source.kind(at) != Kind::Null,
            None => false,
        }
    }

    // The first member of which there is no field.
    fn undeclared(&self, at: usize, fields: &[Field<'_>]) -> Option<usize>
        ensures { (p : ℕ) (ms : Mems) → S.stands self.now.source.now at (object p ms) → PlaceFound (S.stands self.now.source.now) (first_undeclared (map (λ f. f.name.now) fields.now) ms) result }
    {
        let table = Table::new(fields);
        for member in self.source.values(at) {
            if table.find(self.source.name(member)).is_none() {
                return Some(member);
            }
        }
        None
    }

    // The member with the name. The source's own does not tell that it lies inside the object.
    fn member(&self, at: usize, name: &[u8]) -> Option<usize>
        ensures found { (p : ℕ) (ms : Mems) → S.stands self.now.source.now at (object p ms) → Found (S.stands self.now.source.now) (member_in ms name.now) result }
        ensures inside { IfSome result (λ c. S.past self.now.source.now c - c < S.past self.now.source.now at - at) }
    {
        for member in self.source.values(at) {
            if self.source.name(member) == name {
                return Some(member);
            }
        }
        None
    }
}
