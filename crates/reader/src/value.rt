// The readers of values, lists and objects, which read one another's values.
ghost use Rattle.std.specs.Prelude.{◌≡◌, ℕ, ◌<◌, ◌≤◌, [], length};
ghost use Rattle.model.specs.Values.{list as list_of, object as object_of, variable as variable_of, nil, end as no_members};
ghost use Rattle.text.specs.TokenFound.{v_mark, view_of};
ghost use Rattle.text.specs.TokenGrammar.{Mark, open_bracket, open_brace, dollar};
ghost use Rattle.reader.specs.Told.{Lexed, NamePartTold, ValueTold, RestTold, ItemsTold, MembersTold, MemberTold, RegisterTold, TurnTold};

use crate::reading::Reader;
use names::names::Names;
use names::part::{Holder, Part};
use source::limits::LONGEST_NAME;
use source::nodes::{Content, Node, Nodes};
use source::value::Written;
use std::alloc::AllocError;
use std::ops::ControlFlow;
use text::fault::Fault;
use text::language::Language;
use text::token::{Lexeme, Token};

// Places stand in these contracts, since where a value begins and ends is what they say: so each that begins at a place
// asks that the place is one of the text. Lists and objects have functions of their own: only members have names, and
// only objects hold names against each other.
impl<W: Written> Reader<'_, W> {
    // How it goes on after a value that ends at `at`.
    fn step(self, at: usize, closing: Token<'_>) -> Result<ControlFlow<usize, usize>, Fault>
        requires { at ≤ length self.text.now }
        ensures { (m : Mark) → view_of closing.entry ≡ v_mark m → TurnTold W.LANGUAGE self.entry.text.now m at result }
    {
        let lexeme = self.token(at)?;
        if lexeme.token == closing {
            return Ok(ControlFlow::Break(lexeme.end));
        }
        match W::LANGUAGE {
            Language::Graphql => Ok(ControlFlow::Continue(at)),
            Language::Json if lexeme.token == Token::Comma => Ok(ControlFlow::Continue(lexeme.end)),
            Language::Json => Err(Fault::BadText(lexeme.start)),
        }
    }

    // The part of the text or the pool that is a member's name, if the token is one.
    fn name_part(self, lexeme: Lexeme<'_>, pool: &mut Vec<u8>) -> Result<Part, Fault>
        requires { Lexed W.LANGUAGE self.text.now lexeme }
        ensures { (k : Lexed W.LANGUAGE self.entry.text.now lexeme.entry) → NamePartTold W.LANGUAGE self.entry.text.now pool.old.items pool.new.items lexeme.entry.start k.token result }
    {
        match (W::LANGUAGE, lexeme.token) {
            (Language::Json, Token::Text { raw, plain }) => self.string_part(
                lexeme, raw, plain, pool,
            ),
            (Language::Graphql, Token::Name(_)) => Ok(Part::Text {
                start: lexeme.start,
                end: lexeme.end,
            }),
            _ => Err(Fault::BadText(lexeme.start)),
        }
    }

    // Whether a name is new among those from `base` on, to which it is added; where names may stand twice, each is new.
    fn register(
        self,
        names: &mut Names,
        base: usize,
        pool: &[u8],
        name: Part,
    ) -> Result<bool, AllocError>
        ensures { RegisterTold self.entry base pool.now name names.old names.new result }
    {
        if !self.distinct {
            return Ok(true);
        }
        let holder = Holder {
            text: self.text,
            pool,
        };
        names.add(base, holder, name)
    }

    // The name of a member, and where the colon after it ends. The names before it in the object are those from `base` on.
    fn member_name(self, at: usize, base: usize, nodes: &mut Nodes) -> Result<(Part, usize), Fault>
        requires within { at ≤ length self.text.now }
        requires base { base ≤ length nodes.old.names.links.items }
        ensures list { nodes.new.list ≡ nodes.old.list }
        ensures told { MemberTold W.LANGUAGE self.entry at base nodes.old nodes.new result }
    {
        let lexeme = self.token(at)?;
        let name = self.name_part(lexeme, &mut nodes.pool)?;
        if name.len() > LONGEST_NAME {
            return Err(Fault::BadText(lexeme.start));
        }
        let Nodes { names, pool, .. } = nodes;
        if !self.register(names, base, pool, name)? {
            return Err(Fault::RepeatedName(lexeme.start));
        }
        let colon = self.token(lexeme.end)?;
        if colon.token != Token::Colon {
            return Err(Fault::BadText(colon.start));
        }
        Ok((name, colon.end))
    }

    // The variable whose dollar sign ends at `at`, from its node on.
    fn variable(self, at: usize, node: Node, nodes: &mut Nodes) -> Result<usize, Fault>
        requires { at ≤ length self.text.now }
        ensures { (d : ℕ) → 0 < d → RestTold W.LANGUAGE self.entry d at dollar (variable_of node.place []) node nodes.old nodes.new result }
    {
        let lexeme = self.token(at)?;
        let Token::Name(_) = lexeme.token else {
            return Err(Fault::BadText(lexeme.start));
        };
        nodes.add(Node {
            content: Content::Variable(Part::Text {
                start: lexeme.start,
                end: lexeme.end,
            }),
            ..node
        })?;
        Ok(lexeme.end)
    }

    // The value at `at`, with `levels` left for it and what is inside it: where it ends.
    #[cycle(items_list_members_object_value)]
    pub(crate) fn value(
        self,
        at: usize,
        levels: usize,
        name: Option<Part>,
        nodes: &mut Nodes,
    ) -> Result<usize, Fault>
        requires { at ≤ length self.text.now }
        ensures { ValueTold W.LANGUAGE self.entry levels at name nodes.old nodes.new result }
    {
        let (lexeme, node) = self.begin(at, name, &mut nodes.pool)?;
        if levels == 0 {
            return Err(Fault::TooDeep(lexeme.start));
        }
        match node.content {
            Content::List => self.list(lexeme.end, levels, node, nodes),
            Content::Object => self.object(lexeme.end, levels, node, nodes),
            Content::Variable(_) => self.variable(lexeme.end, node, nodes),
            _ => {
                nodes.add(node)?;
                Ok(lexeme.end)
            }
        }
    }

    // The list whose opening mark ends at `at`.
    #[cycle(items_list_members_object_value)]
    fn list(self, at: usize, levels: usize, node: Node, nodes: &mut Nodes) -> Result<usize, Fault>
        requires room { 0 < levels }
        requires within { at ≤ length self.text.now }
        ensures { RestTold W.LANGUAGE self.entry levels at open_bracket (list_of node.place nil) node nodes.old nodes.new result }
    {
        let index = nodes.list.len();
        nodes.add(node)?;
        let end = self.items(at, levels - 1, nodes)?;
        nodes.close(index);
        Ok(end)
    }

    // The items of a list after its opening mark: where its closing mark ends.
    #[cycle(items_list_members_object_value)]
    fn items(self, at: usize, levels: usize, nodes: &mut Nodes) -> Result<usize, Fault>
        requires { at ≤ length self.text.now }
        ensures { ItemsTold W.LANGUAGE self.entry levels at nodes.old nodes.new result }
    {
        let first = self.token(at)?;
        if first.token == Token::CloseBracket {
            return Ok(first.end);
        }
        let mut next = at;
        // A turn moves by what was read, and may fail or end.
        loop {
            let end = self.value(next, levels, None, nodes)?;
            match self.step(end, Token::CloseBracket)? {
                ControlFlow::Continue(at) => next = at,
                ControlFlow::Break(end) => return Ok(end),
            }
        }
    }

    // The object whose opening mark ends at `at`.
    #[cycle(items_list_members_object_value)]
    fn object(self, at: usize, levels: usize, node: Node, nodes: &mut Nodes) -> Result<usize, Fault>
        requires room { 0 < levels }
        requires within { at ≤ length self.text.now }
        ensures { RestTold W.LANGUAGE self.entry levels at open_brace (object_of node.place no_members) node nodes.old nodes.new result }
    {
        let index = nodes.list.len();
        let base = nodes.names.len();
        nodes.add(node)?;
        let end = self.members(at, levels - 1, base, nodes)?;
        nodes.names.close(base);
        nodes.close(index);
        Ok(end)
    }

    // The members of an object after its opening mark: where its closing mark ends. Its names are held from `base` on.
    #[cycle(items_list_members_object_value)]
    fn members(
        self,
        at: usize,
        levels: usize,
        base: usize,
        nodes: &mut Nodes,
    ) -> Result<usize, Fault>
        requires within { at ≤ length self.text.now }
        requires none { base ≡ length nodes.old.names.links.items }
        ensures { MembersTold W.LANGUAGE self.entry levels at base nodes.old nodes.new result }
    {
        let first = self.token(at)?;
        if first.token == Token::CloseBrace {
            return Ok(first.end);
        }
        let mut next = at;
        // A turn moves by what was read, and may fail or end.
        loop {
            let (name, onward) = self.member_name(next, base, nodes)?;
            let end = self.value(onward, levels, Some(name), nodes)?;
            match self.step(end, Token::CloseBrace)? {
                ControlFlow::Continue(at) => next = at,
                ControlFlow::Break(end) => return Ok(end),
            }
        }
    }
}
