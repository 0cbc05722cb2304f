// A text that is one value.
ghost use Rattle.std.specs.Prelude.{◌≡◌};
ghost use Rattle.source.specs.Table.{tree_table};
ghost use Rattle.reader.specs.Document.{Document, WholeTold, OneReading, table_in};

use crate::reading::{LEVELS, Reader};
use source::limits::LONGEST_TEXT;
use source::nodes::Nodes;
use source::tree::Tree;
use source::value::{Graphql, Json, Value, Written};
use std::alloc::Global;
use std::marker::PhantomData;
use text::fault::Fault;
use text::token::Token;

// A text in W that is one value, read.
#[derive(Drop)]
pub struct Parsed<'a, W> {
    tree: Tree<'a>,
    language: PhantomData<W>,
}

pub type JsonText<'a> = Parsed<'a, Json>;

pub type LiteralText<'a> = Parsed<'a, Graphql>;

impl<'a, W> Parsed<'a, W> {
    // The value of the whole text.
    pub fn value(&self) -> Value<'_, 'a, W>
        ensures tree { result.tree.now ≡ self.now.tree }
        ensures root { result.root ≡ 0 }
    {
        Value::new(&self.tree, 0)
    }
}

impl<'a, W: Written> Reader<'a, W> {
    // The one value that is the whole text.
    fn whole(self, heap: Global) -> Result<Tree<'a>, Fault>
        ensures { WholeTold W.LANGUAGE self.entry result }
    {
        if self.text.len() > LONGEST_TEXT {
            return Err(Fault::BadText(0));
        }
        let mut nodes = Nodes::new(heap);
        let end = self.value(0, LEVELS, None, &mut nodes)?;
        let after = self.token(end)?;
        if after.token != Token::End {
            return Err(Fault::BadText(after.start));
        }
        Ok(Tree {
            text: self.text,
            nodes,
        })
    }
}

// The one value that is the whole text, in W.
pub fn read<W: Written>(heap: Global, text: &[u8]) -> Result<Parsed<'_, W>, Fault>
    ensures { Document W.LANGUAGE text.now (table_in (λ w. tree_table w.tree) result) }
{
    let reader: Reader<'_, W> = Reader {
        text,
        distinct: true,
        language: PhantomData,
    };
    let tree = reader.whole(heap)?;
    Ok(Parsed {
        tree,
        language: PhantomData,
    })
}

// Reading has one outcome. A text writes one value at most, which is then what reading comes to, and else has one first fault at most.
pub fn one_reading()
    ensures { OneReading }
{}
