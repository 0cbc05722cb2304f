// Makes schemas and operations of texts: the tests that a grammar does not make.
#![tactic(auto)]

ghost use Rattle.std.specs.Prelude.{◌≤◌, IfOk, vec_len};
ghost use Rattle.schema.specs.Documents.{Document};
ghost use Rattle.schema.specs.Holds.{Holds};
ghost use Rattle.validation.specs.OperationMade.{MakesOperation};
ghost use Rattle.validation.specs.Made.{MakesSchema};

pub mod cycle;
pub mod defaults;
pub mod diagnostic;
pub mod diagnostics;
pub mod fault;
pub mod literal;
#[cfg(test)]
mod literal_tests;
pub mod members;
mod objects;
pub mod operations;
mod place;
pub mod repeats;
#[cfg(test)]
mod tests;
pub mod twice;
pub mod types;
pub mod variables;

use fault::MakeFault;
use schema::definition::Schema;
use schema::operation::Operation;
use schema::{document, operation};
use std::alloc::Global;
use text::fault::Fault;

// The schema that the text writes, if it passes each test over the whole text: the names, the types, the defaults.
pub fn make_schema(heap: Global, text: &[u8]) -> Result<Schema<'_>, MakeFault>
    ensures told { MakesSchema text.now result }
    ensures few { IfOk result (λ s. vec_len s.types ≤ 256) }
{
    let schema = document::read_schema(heap, text)?;
    if let Some(at) = members::repeated_in_read(heap, &schema)? {
        return Err(MakeFault::Text(Fault::RepeatedName(at)));
    }
    if let Some(at) = types::unknown_type(&schema) {
        return Err(MakeFault::UnknownType(at));
    }
    if let Some(at) = types::not_input(&schema) {
        return Err(MakeFault::NotInput(at));
    }
    if let Some(at) = defaults::bad_default(&schema) {
        return Err(MakeFault::BadDefault(at));
    }
    if let Some(at) = cycle::default_cycle(heap, &schema)? {
        return Err(MakeFault::DefaultCycle(at));
    }
    Ok(schema)
}

// The operation that the text writes, if it passes each test over the whole text: the names, the types, the defaults.
pub fn make_operation<'a>(
    heap: Global,
    schema: &Schema<'_>,
    text: &'a [u8],
) -> Result<Operation<'a>, MakeFault>
    ensures told { (S : Document) → Holds schema.now S → MakesOperation S text.now result }
    ensures few { IfOk result (λ o. vec_len o.variables ≤ 64) }
{
    let operation = operation::read_operation(heap, schema, text)?;
    if let Some(at) = operations::repeated_in_read(heap, &operation)? {
        return Err(MakeFault::Text(Fault::RepeatedName(at)));
    }
    if let Some(at) = operations::unknown_type(&operation) {
        return Err(MakeFault::UnknownType(at));
    }
    if let Some(at) = operations::not_input(&operation) {
        return Err(MakeFault::NotInput(at));
    }
    if let Some(at) = defaults::bad_variable_default(schema, &operation) {
        return Err(MakeFault::BadDefault(at));
    }
    Ok(operation)
}
