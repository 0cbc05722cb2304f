// Whether the members of the objects in a tree have names of their own.
ghost use Rattle.std.specs.Prelude.{◌<◌, length, IsTrue, IfOk};
ghost use Rattle.source.specs.Table.{tree_table};
ghost use Rattle.validation.specs.Objects.{ApartAt, AllApart};

use names::names::Names;
use names::part::Holder;
use source::nodes::Content;
use source::tree::Tree;
use std::alloc::{AllocError, Global};

// Whether no object in the tree has two members of one name.
pub(crate) fn all_apart(heap: Global, tree: &Tree<'_>) -> Result<bool, AllocError>
    ensures { IfOk result (λ apart. IsTrue apart → AllApart (tree_table tree.now)) }
{
    let mut names = Names::new(heap);
    for (at, node) in tree.nodes.list.iter().enumerate() {
        if matches!(node.content, Content::Object) && !apart_at(tree, at, &mut names)? {
            return Ok(false);
        }
    }
    Ok(true)
}

// Whether no two members of the object at the cursor have one name. The names are for no one afterwards.
fn apart_at(tree: &Tree<'_>, object: usize, names: &mut Names) -> Result<bool, AllocError>
    requires { object < length tree.now.nodes.list.items }
    ensures { IfOk result (λ apart. IsTrue apart → ApartAt (tree_table tree.now) object) }
{
    let holder = Holder {
        text: tree.text,
        pool: &tree.nodes.pool,
    };
    let end = object.saturating_add(tree.nodes.get(object).size);
    names.close(0);
    let mut at = object + 1;
    while at < end {
        let node = tree.nodes.get(at);
        let Some(name) = node.name else {
            return Ok(false);
        };
        if !names.add(0, holder, name)? {
            return Ok(false);
        }
        at = at.saturating_add(node.size.max(1));
    }
    Ok(true)
}
