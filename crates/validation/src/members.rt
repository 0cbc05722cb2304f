// The test of repeated names, whole: of what a schema declares, and of members in its defaults.
ghost use Rattle.std.specs.Prelude.{◌≡◌, ℕ, Some, Option, IfOk, IfErr};
ghost use Rattle.text.specs.declared.fault.Fault.TheVariants.{NoMemory};
ghost use Rattle.source.specs.Table.{tree_table};
ghost use Rattle.schema.specs.Documents.{Document};
ghost use Rattle.schema.specs.Holds.{Holds};
ghost use Rattle.schema.specs.SchemaReading.{ReadsSchema};
ghost use Rattle.reader.specs.Reading.{got};
ghost use Rattle.validation.specs.Making.{FirstFault, MemberTwice, RepeatedNameAt};
ghost use Rattle.validation.specs.Repeats.{OneOf, DefaultTwice};

use crate::{objects, place, repeats};
use reader::literal;
use schema::definition::{Field, Schema};
use schema::operation::{Argument, Variable};
use schema::tokens::LITERAL_DEPTH;
use source::nodes::Nodes;
use source::tree::Tree;
use std::alloc::Global;
use text::fault::Fault;

// What has a literal, or may have one.
pub trait Valued {
    ghost stands_at: { Self → Option ℕ };

    // Where the literal stands in its tree.
    fn cursor(&self) -> Option<usize>
        ensures { result ≡ stands_at self.now };
}

impl Valued for Field<'_> {
    ghost stands_at = { λ f. f.default };

    fn cursor(&self) -> Option<usize> {
        self.default
    }
}

impl Valued for Variable<'_> {
    ghost stands_at = { λ v. v.default };

    fn cursor(&self) -> Option<usize> {
        self.default
    }
}

impl Valued for Argument<'_> {
    ghost stands_at = { λ a. Some a.value };

    fn cursor(&self) -> Option<usize> {
        Some(self.value)
    }
}

// The first name that is declared again, or that a member of an object in a default has again.
pub fn repeated_name(heap: Global, schema: &Schema<'_>) -> Result<Option<usize>, Fault>
    ensures first { (D : Document) → Holds schema.now D → IfOk result (FirstFault (RepeatedNameAt schema.now.tree.text.now D)) }
    ensures memory { IfErr result (λ f. f ≡ NoMemory) }
{
    let mut nodes = Nodes::new(heap);
    let fields = in_literals(&schema.tree, &schema.fields, &mut nodes)?;
    let arguments = in_literals(&schema.tree, &schema.arguments, &mut nodes)?;
    let members = place::lesser(fields, arguments);
    Ok(place::lesser(repeats::name_twice(schema), members))
}

// The same of a schema that was read from its text, which is read again only where an object in the tree has two members of one name.
pub(crate) fn repeated_in_read(heap: Global, schema: &Schema<'_>) -> Result<Option<usize>, Fault>
    ensures first { (e : ℕ) (D : Document) → ReadsSchema schema.now.tree.text.now (got e D) → Holds schema.now D → IfOk result (FirstFault (RepeatedNameAt schema.now.tree.text.now D)) }
    ensures memory { IfErr result (λ f. f ≡ NoMemory) }
{
    if !objects::all_apart(heap, &schema.tree)? {
        return repeated_name(heap, schema);
    }
    Ok(repeats::name_twice(schema))
}

// The first member's name that is again in a literal of these. The nodes that are read on the way are for no one.
pub(crate) fn in_literals<R: Valued>(
    tree: &Tree<'_>,
    records: &[R],
    nodes: &mut Nodes,
) -> Result<Option<usize>, Fault>
    ensures first { IfOk result (FirstFault (OneOf (λ r. DefaultTwice (tree_table tree.now) (R.stands_at r)) records.now)) }
    ensures memory { IfErr result (λ f. f ≡ NoMemory) }
{
    let mut first = None;
    for record in records {
        let found = in_default(tree, record.cursor(), nodes)?;
        first = place::lesser(first, found);
    }
    Ok(first)
}

// The first member's name that is again in a default, if there is one.
fn in_default(
    tree: &Tree<'_>,
    default: Option<usize>,
    nodes: &mut Nodes,
) -> Result<Option<usize>, Fault>
    ensures first { IfOk result (FirstFault (DefaultTwice (tree_table tree.now) default)) }
    ensures memory { IfErr result (λ f. f ≡ NoMemory) }
{
    match default {
        Some(at) => member_twice(tree.text, tree.nodes.get(at).place, nodes),
        None => Ok(None),
    }
}

// The first member's name that is again in the literal at the place.
fn member_twice(text: &[u8], at: usize, nodes: &mut Nodes) -> Result<Option<usize>, Fault>
    ensures first { IfOk result (FirstFault (MemberTwice text.now at)) }
    ensures memory { IfErr result (λ f. f ≡ NoMemory) }
{
    let Err(fault) = literal::distinct_at(text, at, LITERAL_DEPTH, nodes) else {
        return Ok(None);
    };
    match fault {
        Fault::RepeatedName(place) => Ok(Some(place)),
        Fault::NoMemory => Err(Fault::NoMemory),
        _ => Ok(None),
    }
}
