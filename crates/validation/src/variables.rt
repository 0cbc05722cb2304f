// The variables of an operation, and where they may be used.
ghost use Rattle.std.specs.Prelude.{◌≡◌, ◌-◌, ◌&&◌, not, List};
ghost use Rattle.std.proofs.Math.Option.{Option};
ghost use Rattle.model.specs.Values.{Raw, nullable as nullable_type, Variable as VariableIn};
ghost use Rattle.model.specs.Calls.{variable_of};
ghost use Rattle.model.specs.Checking.{compatible, as_nullable, is_value, usage_allowed};
ghost use Rattle.source.specs.Table.{tree_table};
ghost use Rattle.schema.specs.Holds.{DefaultHeld};
ghost use Rattle.validation.specs.Literals.{type_of, VariableHeld, Declares, RowFound};

use lookup::Lookup;
use schema::operation::Variable;
use schema::types::Type;
use source::raw::Kind;
use source::tree::Tree;

// The variables that a check knows.
#[derive_where(Clone, Copy)]
pub struct Variables<'c, 'v, L> {
    pub rows: &'c [Variable<'v>],
    // Finds them by their names.
    pub names: &'c L,
    // Their defaults.
    pub tree: &'c Tree<'v>,
}

// Whether null is of the first type and may not stand at the second.
fn only_nullable(ty: Type<'_>, location: Type<'_>) -> bool
    ensures { result ≡ (not (nullable_type (type_of location.entry)) && nullable_type (type_of ty.entry)) }
{
    location.shape.is_non_null() && !ty.shape.is_non_null()
}

// Whether a value of the first type may stand at the second, or null alone keeps it from that (AreTypesCompatible).
fn agree(ty: Type<'_>, location: Type<'_>) -> bool
    ensures { result ≡ compatible (type_of ty.entry) (as_nullable (type_of location.entry)) }
{
    match (ty.shape.is_list(), location.shape.is_list()) {
        (true, true) => {
            let ty = item(ty);
            let location = item(location);
            !only_nullable(ty, location) && agree(ty, location)
        }
        (false, false) => ty.name == location.name,
        _ => false,
    }
}

// The type of a list's items.
pub(crate) fn item(ty: Type<'_>) -> Type<'_>
    ensures shape { result.shape ≡ record ty.entry.shape { levels = ty.entry.shape.levels - 1 } }
    ensures name { result.name ≡ ty.entry.name }
{
    Type {
        shape: ty.shape.item(),
        ..ty
    }
}

impl<'c, 'v, L> Variables<'c, 'v, L> {
    // Variables in a row, found by a lookup of their names, with the tree of their defaults.
    pub fn new(rows: &'c [Variable<'v>], names: &'c L, tree: &'c Tree<'v>) -> Variables<'c, 'v, L>
        ensures rows { result.rows.now ≡ rows.now }
        ensures names { result.names.now ≡ names.now }
        ensures tree { result.tree.now ≡ tree.now }
    {
        Variables { rows, names, tree }
    }
}

impl<'c, 'v, L: Lookup> Variables<'c, 'v, L> {
    // The first variable with the name.
    pub fn find(&self, name: &[u8]) -> Option<&Variable<'v>>
        ensures { (vs : List VariableIn) → Declares (L.names self.now.names.now) (tree_table self.now.tree.now) self.now.rows.now vs → RowFound (tree_table self.now.tree.now) (variable_of vs name.now) result }
    {
        let index = self.names.find(name)?;
        self.rows.get(index)
    }

    // Whether the variable has a default that is not null.
    fn has_default(&self, variable: &Variable<'_>) -> bool
        ensures { (x : Option Raw) → DefaultHeld (tree_table self.now.tree.now) variable.now.default x → result ≡ is_value x }
    {
        match variable.default {
            Some(at) => self.tree.nodes.get(at).content.kind() != Kind::Null,
            None => false,
        }
    }

    // Whether the variable may be used at a location of the type (IsVariableUsageAllowed).
    pub fn allow(&self, variable: &Variable<'_>, ty: Type<'_>, has_default: bool) -> bool
        ensures { (v : VariableIn) → VariableHeld (tree_table self.now.tree.now) variable.now v → result ≡ usage_allowed v.field has_default (type_of ty.entry) }
    {
        let fits = agree(variable.ty, ty);
        if has_default || !only_nullable(variable.ty, ty) {
            return fits;
        }
        fits && self.has_default(variable)
    }
}
