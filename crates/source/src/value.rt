// The values of trees, as sources.
ghost use Rattle.std.specs.Prelude.{◌≡◌, ℕ, List as Bytes};
ghost use Rattle.text.specs.declared.language.Language.{Language};
ghost use Rattle.text.specs.declared.language.Language.TheVariants.{Json as JsonLanguage, Graphql as GraphqlLanguage};
ghost use Rattle.model.specs.Values.{Raw, place_of};
ghost use Rattle.names.specs.Parts.{MayFit, bytes_if_any};
ghost use Rattle.source.specs.Contents.{kind_in, flag_in, negative_in, exponent_in};
ghost use Rattle.source.specs.Heads.{kind_of, flag_of};
ghost use Rattle.source.specs.Standing.{Scaled};
ghost use Rattle.source.specs.Nodes.{node_at};
ghost use Rattle.source.specs.Table.{past_of, tree_table, Held, HeldAll, HeldMems, Named};
ghost use Rattle.source.specs.OneTree.{lawful};

use crate::nodes::{Content, Node};
use crate::raw::{Kind, Source, Span};
use crate::tree::Tree;
use names::part::{Holder, Part};
use std::marker::PhantomData;
use text::decimal::Scale;
use text::language::Language;

// The language that a text is written in.
pub trait Written {
    const LANGUAGE: Language;

    ghost LANGUAGE: { Language };
}

// JSON.
#[derive(Clone, Copy)]
pub struct Json;

impl Written for Json {
    const LANGUAGE: Language = Language::Json;

    ghost LANGUAGE = { JsonLanguage };
}

// GraphQL.
#[derive(Clone, Copy)]
pub struct Graphql;

impl Written for Graphql {
    const LANGUAGE: Language = Language::Graphql;

    ghost LANGUAGE = { GraphqlLanguage };
}

// A value of a tree that was read from a text in W.
#[derive_where(Clone, Copy)]
pub struct Value<'t, 'a, W> {
    tree: &'t Tree<'a>,
    root: usize,
    language: PhantomData<W>,
}

pub type Literal<'t, 'a> = Value<'t, 'a, Graphql>;

impl<'t, 'a, W> Value<'t, 'a, W> {
    // The value whose node stands at the cursor.
    pub fn new(tree: &'t Tree<'a>, root: usize) -> Value<'t, 'a, W>
        ensures tree { result.tree.now ≡ tree.now }
        ensures root { result.root ≡ root }
    {
        Value {
            tree,
            root,
            language: PhantomData,
        }
    }

    fn node(&self, at: usize) -> Node
        ensures { result ≡ node_at self.now.tree.now.nodes.list.items at }
    {
        self.tree.nodes.get(at)
    }

    // The bytes of a part; none where there is none.
    fn bytes(&self, part: Option<Part>) -> &[u8]
        ensures { MayFit self.now.tree.now.text.now self.now.tree.now.nodes.pool.items part → result.now ≡ bytes_if_any self.now.tree.now.text.now self.now.tree.now.nodes.pool.items part }
    {
        let holder = Holder {
            text: self.tree.text,
            pool: &self.tree.nodes.pool,
        };
        // A match: what a closure gives `map` does not show here.
        match part {
            Some(part) => part.bytes(holder),
            None => &[],
        }
    }
}

impl<W: Written> Source for Value<'_, '_, W> {
    const FORM: Language = W::LANGUAGE;

    ghost form = { W.LANGUAGE };

    ghost past = { λ s. past_of s.tree.now.nodes.list.items };

    ghost start = { λ s. s.root };

    ghost stands = { λ s. Held (tree_table s.tree.now) };

    ghost named = { λ s. Named (tree_table s.tree.now) };

    ghost items = { λ s. HeldAll (tree_table s.tree.now) };

    ghost members = { λ s. HeldMems (tree_table s.tree.now) };

    ghost laws = { lawful (λ s. tree_table s.tree.now) };

    fn written(&self) -> Language {
        W::LANGUAGE
    }

    fn root(&self) -> usize {
        self.root
    }

    fn kind(&self, at: usize) -> Kind
        ensures node { result ≡ kind_in (node_at self.now.tree.now.nodes.list.items at).content }
        ensures tree { (t : Raw) → Held (tree_table self.now.tree.now) at t → result ≡ kind_of t }
    {
        self.node(at).content.kind()
    }

    fn place(&self, at: usize) -> usize
        ensures node { result ≡ (node_at self.now.tree.now.nodes.list.items at).place }
        ensures tree { (t : Raw) → Held (tree_table self.now.tree.now) at t → result ≡ place_of t }
    {
        self.node(at).place
    }

    fn boolean(&self, at: usize) -> bool
        ensures node { result ≡ flag_in (node_at self.now.tree.now.nodes.list.items at).content }
        ensures tree { (t : Raw) → Held (tree_table self.now.tree.now) at t → result ≡ flag_of t }
    {
        matches!(self.node(at).content, Content::Boolean(true))
    }

    fn text(&self, at: usize) -> &[u8] {
        self.bytes(self.node(at).content.text())
    }

    fn scale(&self, at: usize) -> Scale
        ensures negative { result.negative ≡ negative_in (node_at self.now.tree.now.nodes.list.items at).content }
        ensures exponent { result.exponent ≡ exponent_in (node_at self.now.tree.now.nodes.list.items at).content }
        ensures tree { (t : Raw) → Held (tree_table self.now.tree.now) at t → Scaled t result }
    {
        match self.node(at).content {
            Content::Decimal { scale, .. } => scale,
            _ => Scale::ZERO,
        }
    }

    fn inside(&self, at: usize) -> Span {
        let len = self.tree.nodes.list.len();
        let node = self.node(at);
        match node.content {
            Content::List | Content::Object if at < len && node.size <= len - at => Span {
                from: at + 1,
                to: at + node.size,
            },
            _ => Span::EMPTY,
        }
    }

    fn next(&self, span: Span) -> Option<(usize, Span)> {
        let Span { from, to } = span;
        let size = self.node(from).size;
        if size == 0 || size > to.saturating_sub(from) {
            return None;
        }
        Some((
            from,
            Span {
                from: from + size,
                to,
            },
        ))
    }

    fn name(&self, at: usize) -> &[u8]
        ensures part { MayFit self.now.tree.now.text.now self.now.tree.now.nodes.pool.items (node_at self.now.tree.now.nodes.list.items at).name → result.now ≡ bytes_if_any self.now.tree.now.text.now self.now.tree.now.nodes.pool.items (node_at self.now.tree.now.nodes.list.items at).name }
        ensures named { (n : Bytes ℕ) → Named (tree_table self.now.tree.now) at n → result.now ≡ n }
    {
        self.bytes(self.node(at).name)
    }
}
