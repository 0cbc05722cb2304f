// A tree made by hand, and the nodes that tokens begin.
use crate::nodes::{Content, Node, Nodes};
use crate::raw::Span;
use crate::tree::{Tree, sooner};
use names::part::Part;
use std::alloc::Global;
use text::fault::Fault;
use text::json;
use text::language::Language;

const VARIABLE: Content = Content::Variable(Part::Text { start: 1, end: 2 });

// The nodes of a list, said to be of the size, and after it a variable.
fn list_of(heap: Global, size: usize) -> Result<Nodes, Fault> {
    let mut nodes = Nodes::new(heap);
    let list = Node::new(Content::List, 0, None);
    nodes.add(Node { size, ..list })?;
    nodes.add(Node::new(VARIABLE, 1, None))?;
    Ok(nodes)
}

#[test]
fn variables_are_found(rt: HostRuntime) -> Result<(), Fault> {
    for (size, want) in [(1, false), (2, true), (3, true), (usize::MAX, true)] {
        let nodes = list_of(rt.alloc(), size)?;
        let tree = Tree { text: b"$a", nodes };
        assert_eq!(rt; tree.holds_variable(0), want);
        assert!(rt; tree.holds_variable(1));
        assert!(rt; !tree.holds_variable(2));
    }
    Ok(())
}

// The node that the first token of a text in JSON begins, with the bytes that it writes.
fn begun<'n>(nodes: &'n mut Nodes, text: &'n [u8]) -> Result<(Content, &'n [u8]), Fault> {
    let lexeme = json::token(text, 0)?;
    let content = nodes.begin(lexeme, None, Language::Json)?.content;
    let bytes: &[u8] = match content.text() {
        Some(part) => nodes.bytes(text, part),
        None => &[],
    };
    Ok((content, bytes))
}

#[test]
fn tokens_begin(rt: HostRuntime) -> Result<(), Fault> {
    let mut nodes = Nodes::new(rt.alloc());
    for (text, want) in [
        (b" [".as_slice(), b"".as_slice()),
        (b"null", b""),
        (b" -0 ", b"0"),
        (b"120.0", b"12"),
        (b"\"a\"", b"a"),
        (b"\"\\u0061b\"", b"ab"),
    ] {
        let (_, bytes) = begun(&mut nodes, text)?;
        assert!(rt; bytes == want);
    }
    assert!(rt; begun(&mut nodes, b" ").is_err_and(|fault| fault == Fault::BadText(1)));
    Ok(())
}

#[test]
fn members_are_found(rt: HostRuntime) -> Result<(), Fault> {
    let mut nodes = Nodes::new(rt.alloc());
    nodes.add(Node::new(Content::Object, 0, None))?;
    let name = nodes.string(b"a", true, 1, Language::Json)?;
    nodes.add(Node::new(Content::Null, 5, Some(name)))?;
    let text = b"{\"a\":null";
    let members = Span { from: 1, to: 2 };
    assert_eq!(rt; nodes.find(text, members, b"a"), Some(1));
    assert_eq!(rt; nodes.find(text, members, b"b"), None);
    assert!(rt; nodes.has_member(text, 0, name));
    nodes.set_text(1, name);
    assert!(rt; matches!(nodes.get(1).content, Content::Null));
    assert_eq!(rt; sooner(Some(2), Some(1)), Some(1));
    assert_eq!(rt; sooner(None, Some(1)), Some(1));
    Ok(())
}
