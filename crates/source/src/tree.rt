// A tree of raw values over the text that it was read from.
ghost use Rattle.std.specs.Prelude.{◌≡◌, MatchBool, take, drop};
ghost use Rattle.model.specs.Values.{Raw};
ghost use Rattle.model.specs.Checking.{VariableFree};
ghost use Rattle.std.specs.List.{list_any};
ghost use Rattle.source.specs.Table.{tree_table, Stands};
ghost use Rattle.source.specs.Nodes.{node_at};
ghost use Rattle.source.specs.Places.{lesser};
ghost use Rattle.source.specs.Variables.{HoldsVariable, is_variable};

use crate::nodes::{Content, Node, Nodes};
use crate::raw::Source;
use crate::value::Literal;
use names::part::Part;

#[derive(Drop)]
pub struct Tree<'a> {
    pub text: &'a [u8],
    pub nodes: Nodes,
}

// Whether one of the nodes is a variable's.
fn any_variable(nodes: &[Node]) -> bool
    ensures { result ≡ list_any is_variable nodes.now }
{
    nodes
        .iter()
        .any(|node| matches!(node.content, Content::Variable(_)))
}

impl<'a> Tree<'a> {
    // Whether the value is a variable or holds one.
    pub fn holds_variable(&self, at: usize) -> bool
        ensures tree { (t : Raw) → Stands (tree_table self.now) at t → MatchBool result (HoldsVariable t) (VariableFree t) }
        ensures nodes { result ≡ list_any is_variable (take (node_at self.now.nodes.list.items at).size (drop at self.now.nodes.list.items)) }
    {
        let size = self.nodes.get(at).size;
        // Past the table there is no variable.
        let past = at.saturating_add(size).min(self.nodes.list.len());
        any_variable(self.nodes.list.get(at..past).unwrap_or_default())
    }

    // The place of the object's first member whose name an earlier member has.
    fn repeated_in(&self, object: usize) -> Option<usize> {
        let literal = Literal::new(self, object);
        let at = literal.values(object).find(|at| literal.member(object, literal.name(*at))
            != Some(*at))?;
        self.nodes.get(at).name.map(Part::start)
    }

    // The least place of a member's name that an earlier member of the same object has.
    pub fn repeated_member(&self) -> Option<usize> {
        (0..self.nodes.list.len())
            .filter(|at| matches!(self.nodes.get(*at).content, Content::Object))
            .filter_map(|object| self.repeated_in(object))
            .min()
    }
}

// The lesser of two places that may be there.
pub fn sooner(a: Option<usize>, b: Option<usize>) -> Option<usize>
    ensures { result ≡ lesser a b }
{
    match (a, b) {
        (Some(x), Some(y)) => Some(x.min(y)),
        (x, y) => x.or(y),
    }
}
