// GraphQL literals inside other texts.
ghost use Rattle.std.specs.Prelude.{◌≡◌, ◌<◌, ◌≤◌, true, length, IfOk, Err};
ghost use Rattle.text.specs.declared.fault.Fault.TheVariants.{BadText};
ghost use Rattle.reader.specs.Told.{LiteralTold, LiteralIn};

use crate::reading::{LEVELS, Reader};
use source::nodes::Nodes;
use source::value::Graphql;
pub use source::value::Literal;
use std::marker::PhantomData;
use text::fault::Fault;

// Adds the nodes of the literal at `at` of a text, a value at that depth, in which names may repeat: where it ends.
pub fn literal_at(text: &[u8], at: usize, depth: usize, nodes: &mut Nodes) -> Result<usize, Fault>
    ensures told { at ≤ length text.now → LiteralTold text.now depth at nodes.old nodes.new result }
    ensures past { length text.now < at → result ≡ Err (BadText (length text.now)) }
    ensures forward { IfOk result (λ end. (at < end) × (end ≤ length text.now)) }
{
    literal_in(text, at, depth, false, nodes)
}

// The same of a literal in which no name may stand twice in an object.
pub fn distinct_at(text: &[u8], at: usize, depth: usize, nodes: &mut Nodes) -> Result<usize, Fault>
    ensures told { at ≤ length text.now → LiteralIn true text.now depth at nodes.old nodes.new result }
    ensures past { length text.now < at → result ≡ Err (BadText (length text.now)) }
{
    literal_in(text, at, depth, true, nodes)
}

// The same, where names are distinct or may repeat.
fn literal_in(
    text: &[u8],
    at: usize,
    depth: usize,
    distinct: bool,
    nodes: &mut Nodes,
) -> Result<usize, Fault>
    ensures told { at ≤ length text.now → LiteralIn distinct text.now depth at nodes.old nodes.new result }
    ensures past { length text.now < at → result ≡ Err (BadText (length text.now)) }
    ensures forward { IfOk result (λ end. (at < end) × (end ≤ length text.now)) }
{
    if at > text.len() {
        return Err(Fault::BadText(text.len()));
    }
    let reader: Reader<'_, Graphql> = Reader {
        text,
        distinct,
        language: PhantomData,
    };
    reader.value(at, LEVELS.saturating_sub(depth), None, nodes)
}
