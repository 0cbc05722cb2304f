// The tests of an operation's names and types.
ghost use Rattle.std.specs.Prelude.{◌≡◌, ℕ, IfOk, IfErr};
ghost use Rattle.text.specs.declared.fault.Fault.TheVariants.{NoMemory};
ghost use Rattle.schema.specs.Documents.{Document, OperationDocument};
ghost use Rattle.schema.specs.HoldsOperation.{HoldsOperation};
ghost use Rattle.schema.specs.OperationReading.{ReadsOperation};
ghost use Rattle.schema.specs.Rows.{base_in};
ghost use Rattle.reader.specs.Reading.{got};
ghost use Rattle.validation.specs.Making.{FirstFault, RepeatedInOperationAt, UnknownVariableAt, NotInputVariableAt};
ghost use Rattle.validation.specs.Places.{BasedAt};
ghost use Rattle.validation.specs.Repeats.{OneOf};

use crate::{members, objects, place, twice, types};
use schema::operation::{Operation, Variable};
use schema::types::Base;
use source::nodes::Nodes;
use std::alloc::Global;
use text::fault::Fault;

// The first variable's name that is defined again, or member's name that is again in a default or in an argument of a use.
pub fn repeated_name(heap: Global, operation: &Operation<'_>) -> Result<Option<usize>, Fault>
    ensures first { (S : Document) (D : OperationDocument) → HoldsOperation (base_in S) operation.now D → IfOk result (FirstFault (RepeatedInOperationAt operation.now.tree.text.now D)) }
    ensures memory { IfErr result (λ f. f ≡ NoMemory) }
{
    let mut nodes = Nodes::new(heap);
    let defaults = members::in_literals(&operation.tree, &operation.variables, &mut nodes)?;
    let values = members::in_literals(&operation.tree, &operation.arguments, &mut nodes)?;
    let literals = place::lesser(defaults, values);
    Ok(place::lesser(twice::twice(&operation.variables), literals))
}

// The same of an operation that was read from its text, which is read again only where an object in the tree has two members of one name.
pub(crate) fn repeated_in_read(
    heap: Global,
    operation: &Operation<'_>,
) -> Result<Option<usize>, Fault>
    ensures first { (S : Document) (e : ℕ) (D : OperationDocument) → ReadsOperation operation.now.tree.text.now (got e D) → HoldsOperation (base_in S) operation.now D → IfOk result (FirstFault (RepeatedInOperationAt operation.now.tree.text.now D)) }
    ensures memory { IfErr result (λ f. f ≡ NoMemory) }
{
    if !objects::all_apart(heap, &operation.tree)? {
        return repeated_name(heap, operation);
    }
    Ok(twice::twice(&operation.variables))
}

// The first variable's type whose name stands for nothing.
pub fn unknown_type(operation: &Operation<'_>) -> Option<usize>
    ensures { (S : Document) (D : OperationDocument) → HoldsOperation (base_in S) operation.now D → FirstFault (UnknownVariableAt S D) result }
{
    first_with(&operation.variables, Base::Unknown)
}

// The first variable's type that is no input type.
pub fn not_input(operation: &Operation<'_>) -> Option<usize>
    ensures { (S : Document) (D : OperationDocument) → HoldsOperation (base_in S) operation.now D → FirstFault (NotInputVariableAt S D) result }
{
    first_with(&operation.variables, Base::Output)
}

// The first variable's type whose name stands for this.
fn first_with(variables: &[Variable<'_>], base: Base) -> Option<usize>
    ensures { FirstFault (OneOf (λ v. BasedAt base v.ty) variables.now) result }
{
    let mut first = None;
    for variable in variables {
        first = place::lesser(first, types::based(variable.ty, base));
    }
    first
}
