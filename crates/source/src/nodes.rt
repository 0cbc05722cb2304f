// A table of nodes in preorder, and the bytes that no text holds as they are.
ghost use Rattle.std.specs.Prelude.{◌≡◌, []};
ghost use Rattle.names.specs.Parts.{PartFits, bytes_of};
ghost use Rattle.source.specs.Contents.{kind_in, text_in, text_put};
ghost use Rattle.source.specs.Nodes.{node_at, headed, closed, texted, text_set, AddTold};

use crate::raw::Kind;
use names::names::Names;
use names::part::Holder;
pub use names::part::Part;
use std::alloc::{AllocError, Global};
use text::decimal::Scale;

// What a value says of itself; what is inside a list or an object stands in the nodes after it.
#[derive(Clone, Copy, Debug)]
pub enum Content {
    Null,
    Boolean(bool),
    // In normal form.
    Whole(Part),
    Decimal { scale: Scale, digits: Part },
    String(Part),
    Enum(Part),
    // Its name.
    Variable(Part),
    List,
    Object,
}

impl Content {
    pub fn kind(self) -> Kind
        ensures { result ≡ kind_in self }
    {
        match self {
            Content::Null => Kind::Null,
            Content::Boolean(_) => Kind::Boolean,
            Content::Whole(_) => Kind::Whole,
            Content::Decimal { .. } => Kind::Decimal,
            Content::String(_) => Kind::String,
            Content::Enum(_) => Kind::Enum,
            Content::Variable(_) => Kind::Variable,
            Content::List => Kind::List,
            Content::Object => Kind::Object,
        }
    }

    // Where the bytes stand that the value writes, if it writes any.
    pub(crate) fn text(self) -> Option<Part>
        ensures { result ≡ text_in self }
    {
        match self {
            Content::Whole(part)
            | Content::Decimal { digits: part, .. }
            | Content::String(part)
            | Content::Enum(part)
            | Content::Variable(part) => Some(part),
            Content::Null | Content::Boolean(_) | Content::List | Content::Object => None,
        }
    }

    // The same content, its bytes in another part.
    fn with_text(self, text: Part) -> Content
        ensures { result ≡ text_put self text }
    {
        match self {
            Content::Whole(_) => Content::Whole(text),
            Content::Decimal { scale, .. } => Content::Decimal {
                scale,
                digits: text,
            },
            Content::String(_) => Content::String(text),
            Content::Enum(_) => Content::Enum(text),
            Content::Variable(_) => Content::Variable(text),
            Content::Null | Content::Boolean(_) | Content::List | Content::Object => self,
        }
    }
}

// A value; those inside it follow it in the table.
#[derive(Clone, Copy, Debug)]
pub struct Node {
    pub content: Content,
    pub place: usize,
    // Counts the node and all below it.
    pub size: usize,
    // Of a member's value.
    pub name: Option<Part>,
}

// One table for a text: no value costs an allocation.
#[derive(Drop)]
pub struct Nodes {
    pub list: Vec<Node>,
    pub pool: Vec<u8>,
    // Of the objects that are being read.
    pub names: Names,
}

impl Node {
    // Stands for a node that is not there.
    pub const NOTHING: Node = Node {
        content: Content::Null,
        place: 0,
        size: 0,
        name: None,
    };

    // A node with nothing below it yet.
    pub fn new(content: Content, place: usize, name: Option<Part>) -> Node
        ensures { result ≡ headed content place name }
    {
        Node {
            content,
            place,
            size: 1,
            name,
        }
    }

    // The same node, the bytes that it writes, if any, in another part.
    pub fn with_text(self, text: Part) -> Node
        ensures { result ≡ texted self text }
    {
        Node {
            content: self.content.with_text(text),
            ..self
        }
    }
}

impl Nodes {
    pub fn new(heap: Global) -> Nodes
        ensures list { result.list.items ≡ [] }
        ensures pool { result.pool.items ≡ [] }
        ensures names { result.names.links.items ≡ [] }
    {
        Nodes {
            list: Vec::new(heap),
            pool: Vec::new(heap),
            names: Names::new(heap),
        }
    }

    // Adds a node at the end of the table.
    pub fn add(&mut self, node: Node) -> Result<(), AllocError>
        ensures told { AddTold self.old.list.items self.new.list.items node result }
        ensures pool { self.new.pool ≡ self.old.pool }
        ensures names { self.new.names ≡ self.old.names }
    {
        self.list.push(node)?;
        Ok(())
    }

    // Ends the node at `at`: all nodes after it are below it.
    pub fn close(&mut self, at: usize)
        ensures list { self.new.list.items ≡ closed self.old.list.items at }
        ensures pool { self.new.pool ≡ self.old.pool }
        ensures names { self.new.names ≡ self.old.names }
    {
        let len = self.list.len();
        if let Some(node) = self.list.get_mut(at) {
            node.size = len - at;
        }
    }

    // The node at `at`; where there is none, NOTHING.
    pub fn get(&self, at: usize) -> Node
        ensures { result ≡ node_at self.now.list.items at }
    {
        self.list.get(at).copied().unwrap_or(Node::NOTHING)
    }

    // Gives the node at `at` its text, if it writes any.
    pub fn set_text(&mut self, at: usize, text: Part)
        ensures list { self.new.list.items ≡ text_set self.old.list.items at text }
        ensures pool { self.new.pool ≡ self.old.pool }
        ensures names { self.new.names ≡ self.old.names }
    {
        if let Some(node) = self.list.get_mut(at) {
            *node = node.with_text(text);
        }
    }

    // The bytes of a part; none where it does not stand.
    pub fn bytes<'s>(&'s self, text: &'s [u8], part: Part) -> &'s [u8]
        ensures stands { PartFits text.entry.now self.entry.now.pool.items part → result.now ≡ bytes_of text.entry.now self.entry.now.pool.items part }
        ensures none { (PartFits text.entry.now self.entry.now.pool.items part → ⊥) → result.now ≡ [] }
    {
        part.bytes(Holder {
            text,
            pool: &self.pool,
        })
    }
}
