// Operations: the variables that a text defines, and its uses of directives.
ghost use Rattle.std.specs.Prelude.{◌≡◌, ◌<◌, ◌≤◌, map, slice_get, IfOk, MatchOption, Some, None, vec_len};
ghost use Rattle.lookup.specs.First.{First};
ghost use Rattle.source.specs.Table.{table_of};
ghost use Rattle.schema.specs.Documents.{Document};
ghost use Rattle.schema.specs.Holds.{Holds};
ghost use Rattle.schema.specs.OperationReading.{a_kind, ReadsName, ReadsAfterDollar, ReadsVariableList, ReadsVariables, ReadsAfterAt, ReadsUseArguments, ReadsArgumentList};
ghost use Rattle.schema.specs.OperationTold.{KindIs, BeginsTold, VariableRead, VariablesRead, UseRead, ArgumentsAdded, OperationTold};
ghost use Rattle.schema.specs.Rows.{base_in};
ghost use Rattle.schema.specs.Spans.{rows_in};
ghost use Rattle.schema.specs.Outcomes.{Takes};
ghost use Rattle.schema.specs.Reading.{Onward};
ghost use Rattle.schema.specs.Told.{Told, Itself, Spelled};
ghost use Rattle.text.specs.TokenFound.{view_of};

use crate::declaration;
use crate::declaration::Declaration;
use crate::definition::{Schema, between};
use crate::document::item_name;
use crate::tokens::{Name, Tokens};
use crate::types::Type;
use lookup::{Lookup, Named, Table};
use reader::literal::Literal;
use source::nodes::Nodes;
use source::raw::Span;
use source::tree::Tree;
use std::alloc::Global;
use text::fault::Fault;
use text::token::{Lexeme, Token};

pub const MOST_VARIABLES: usize = 64;

#[derive(Clone, Copy, Debug, PartialEq)]
pub enum OperationKind {
    Query,
    Mutation,
    Subscription,
}

#[derive(Clone, Copy)]
pub struct Variable<'a> {
    // Beside its place and not a `Name` with it, as clauses and callers have it.
    pub name: &'a [u8],
    // The offset of the name in the operation's text.
    pub name_place: usize,
    // The offset of the `$`.
    pub place: usize,
    pub ty: Type<'a>,
    // The cursor of the default in the operation's tree.
    pub default: Option<usize>,
}

impl Named for Variable<'_> {
    ghost called = { λ v. v.name.now };

    fn name(&self) -> &[u8] {
        self.name
    }
}

// The use of a directive.
#[derive(Clone, Copy)]
pub struct Use<'a> {
    pub name: &'a [u8],
    // The offset of the `@`.
    pub place: usize,
    // Where its arguments stand.
    pub arguments: Span,
}

#[derive(Clone, Copy)]
pub struct Argument<'a> {
    pub name: &'a [u8],
    // The offset of the name.
    pub place: usize,
    // The cursor of the value in the operation's tree.
    pub value: usize,
}

impl Named for Use<'_> {
    ghost called = { λ u. u.name.now };

    fn name(&self) -> &[u8] {
        self.name
    }
}

impl Named for Argument<'_> {
    ghost called = { λ a. a.name.now };

    fn name(&self) -> &[u8] {
        self.name
    }
}

#[derive(Drop)]
pub struct Operation<'a> {
    pub kind: OperationKind,
    pub variables: Vec<Variable<'a>>,
    pub uses: Vec<Use<'a>>,
    // Of all uses, in the order of the text.
    pub arguments: Vec<Argument<'a>>,
    // The defaults, and the values of arguments.
    pub tree: Tree<'a>,
}

impl<'a> Operation<'a> {
    // How many variables there are.
    pub fn count(&self) -> usize
        ensures { result ≡ vec_len self.now.variables }
    {
        self.variables.len()
    }

    pub fn variable(&self, index: usize) -> Option<&Variable<'a>>
        ensures { MatchOption result (slice_get self.now.variables.items index ≡ None) (λ v. slice_get self.now.variables.items index ≡ Some v.now) }
    {
        self.variables.get(index)
    }

    // The first variable with the name.
    pub fn find(&self, name: &[u8]) -> Option<usize>
        ensures { First (map (λ x. x.name.now) self.now.variables.items) name.now result }
    {
        Table::new(self.variables.as_slice()).find(name)
    }

    // The arguments of a use.
    pub fn arguments_of(&self, directive_use: &Use<'_>) -> &[Argument<'a>]
        ensures { result.now ≡ rows_in self.now.arguments.items directive_use.now.arguments }
    {
        between(self.arguments.as_slice(), directive_use.arguments)
    }

    // The default or the argument's value that stands at a cursor.
    pub fn literal(&self, at: usize) -> Literal<'_, 'a>
        ensures tree { result.tree.now ≡ self.now.tree }
        ensures root { result.root ≡ at }
    {
        Literal::new(&self.tree, at)
    }
}

// Reads an operation, whose types may have names of the schema.
pub fn read_operation<'a>(
    heap: Global,
    schema: &Schema<'_>,
    text: &'a [u8],
) -> Result<Operation<'a>, Fault>
    ensures few { IfOk result (λ o. vec_len o.variables ≤ 64) }
    ensures told { (S : Document) → Holds schema.now S → OperationTold (base_in S) text.now result }
    ensures text { IfOk result (λ o. o.tree.text.now ≡ text.now) }
{
    let mut tokens = Tokens::new(text)?;
    let kind = operation_kind(&mut tokens)?;
    pass_name(&mut tokens)?;
    let mut nodes = Nodes::new(heap);
    let variables = variables(heap, schema, &mut tokens, &mut nodes)?;
    let mut uses = Vec::new(heap);
    let mut arguments = Vec::new(heap);
    while let Some(place) = begins(&mut tokens, Token::At, Token::End, true)? {
        uses.push(directive_use(place, &mut tokens, &mut arguments, &mut nodes)?)?;
    }
    Ok(Operation {
        kind,
        variables,
        uses,
        arguments,
        tree: Tree { text, nodes },
    })
}

// The place of the token that the next item of a list begins with, which is passed; none where the list closes, which it
// may do if `may_close`.
fn begins(
    tokens: &mut Tokens<'_>,
    first: Token<'_>,
    close: Token<'_>,
    may_close: bool,
) -> Result<Option<usize>, Fault>
    requires { Spelled (view_of first) × Spelled (view_of close) }
    ensures { BeginsTold (view_of first.entry) (view_of close.entry) may_close tokens.old tokens.new result }
{
    let Lexeme { token, start, .. } = tokens.next()?;
    if may_close && token == close {
        return Ok(None);
    }
    if token != first {
        return Err(Fault::BadText(start));
    }
    Ok(Some(start))
}

// The kind of the operation, which comes next.
fn operation_kind(tokens: &mut Tokens<'_>) -> Result<OperationKind, Fault>
    ensures { Told 1 (λ N. Takes N a_kind) KindIs tokens.old tokens.new result }
{
    let Name { name, place } = tokens.name()?;
    // It compares, since the facts of a match on byte strings have no names that a proof could cite.
    if name == b"query".as_slice() {
        Ok(OperationKind::Query)
    } else if name == b"mutation".as_slice() {
        Ok(OperationKind::Mutation)
    } else if name == b"subscription".as_slice() {
        Ok(OperationKind::Subscription)
    } else {
        Err(Fault::BadText(place))
    }
}

// Passes the operation's name, if it has one.
fn pass_name(tokens: &mut Tokens<'_>) -> Result<(), Fault>
    ensures { Told 0 ReadsName Itself tokens.old tokens.new result }
{
    let lexeme = tokens.peek()?;
    if let Token::Name(_) = lexeme.token {
        tokens.at = lexeme.end;
    }
    Ok(())
}

// The variables that are defined, if any.
fn variables<'a>(
    heap: Global,
    schema: &Schema<'_>,
    tokens: &mut Tokens<'a>,
    nodes: &mut Nodes,
) -> Result<Vec<Variable<'a>>, Fault>
    ensures few { IfOk result (λ variables. vec_len variables ≤ 64) }
    ensures onward { IfOk result (λ _. Onward 0 tokens.old tokens.new) }
    ensures told { (S : Document) → Holds schema.now S → Told 0 ReadsVariables (λ vs. VariablesRead (base_in S) (table_of tokens.old.text.now nodes.old) (table_of tokens.old.text.now nodes.new) vs.items) tokens.old tokens.new result }
{
    match tokens.eat(Token::OpenParen)? {
        Some(_) => definitions(heap, schema, tokens, nodes),
        None => Ok(Vec::new(heap)),
    }
}

// The variables that are defined before the `)`, at least one.
fn definitions<'a>(
    heap: Global,
    schema: &Schema<'_>,
    tokens: &mut Tokens<'a>,
    nodes: &mut Nodes,
) -> Result<Vec<Variable<'a>>, Fault>
    ensures few { IfOk result (λ variables. vec_len variables ≤ 64) }
    ensures onward { IfOk result (λ _. Onward 0 tokens.old tokens.new) }
    ensures told { (S : Document) → Holds schema.now S → Told 0 ReadsVariableList (λ vs. VariablesRead (base_in S) (table_of tokens.old.text.now nodes.old) (table_of tokens.old.text.now nodes.new) vs.items) tokens.old tokens.new result }
{
    let mut variables = Vec::new(heap);
    while let Some(place) = begins(
        tokens,
        Token::Dollar,
        Token::CloseParen,
        !variables.is_empty(),
    )? {
        variables.push(variable_at(schema, place, variables.len(), tokens, nodes)?)?;
    }
    Ok(variables)
}

// The variable whose `$` was read, after so many others.
fn variable_at<'a>(
    schema: &Schema<'_>,
    place: usize,
    before: usize,
    tokens: &mut Tokens<'a>,
    nodes: &mut Nodes,
) -> Result<Variable<'a>, Fault>
    ensures few { IfOk result (λ _. before < 64) }
    ensures onward { IfOk result (λ _. Onward 1 tokens.old tokens.new) }
    ensures told { (S : Document) → Holds schema.now S → Told 1 (λ N. ReadsAfterDollar N before place) (VariableRead (base_in S) (table_of tokens.old.text.now nodes.old) (table_of tokens.old.text.now nodes.new)) tokens.old tokens.new result }
{
    let Name {
        name,
        place: name_place,
    } = tokens.name()?;
    if before >= MOST_VARIABLES {
        return Err(Fault::NoSpace(name_place));
    }
    let Declaration { ty, default } = declaration::declared(tokens, nodes)?;
    Ok(Variable {
        name,
        name_place,
        place,
        ty: ty.of(schema.base(ty.name)),
        default,
    })
}

// The use whose `@` was read.
fn directive_use<'a>(
    place: usize,
    tokens: &mut Tokens<'a>,
    arguments: &mut Vec<Argument<'a>>,
    nodes: &mut Nodes,
) -> Result<Use<'a>, Fault>
    ensures { Told 1 (λ N. ReadsAfterAt N place) (UseRead (table_of tokens.old.text.now nodes.old) (table_of tokens.old.text.now nodes.new) arguments.old.items arguments.new.items) tokens.old tokens.new result }
{
    let Name { name, .. } = tokens.name()?;
    let arguments = use_arguments(tokens, arguments, nodes)?;
    Ok(Use {
        name,
        place,
        arguments,
    })
}

// The arguments of a use, if it has any: where they stand.
fn use_arguments<'a>(
    tokens: &mut Tokens<'a>,
    arguments: &mut Vec<Argument<'a>>,
    nodes: &mut Nodes,
) -> Result<Span, Fault>
    ensures { Told 0 ReadsUseArguments (ArgumentsAdded (table_of tokens.old.text.now nodes.old) (table_of tokens.old.text.now nodes.new) arguments.old.items arguments.new.items) tokens.old tokens.new result }
{
    match tokens.eat(Token::OpenParen)? {
        Some(_) => arguments_in(tokens, arguments, nodes),
        None => Ok(Span::EMPTY),
    }
}

// The arguments before the `)`, at least one: where they stand.
fn arguments_in<'a>(
    tokens: &mut Tokens<'a>,
    arguments: &mut Vec<Argument<'a>>,
    nodes: &mut Nodes,
) -> Result<Span, Fault>
    ensures { Told 0 ReadsArgumentList (ArgumentsAdded (table_of tokens.old.text.now nodes.old) (table_of tokens.old.text.now nodes.new) arguments.old.items arguments.new.items) tokens.old tokens.new result }
{
    let from = arguments.len();
    while let Some(Name { name, place }) = item_name(
        tokens,
        Token::CloseParen,
        arguments.len() != from,
    )? {
        tokens.expect(Token::Colon)?;
        let value = tokens.literal(nodes)?;
        arguments.push(Argument { name, place, value })?;
    }
    Ok(Span {
        from,
        to: arguments.len(),
    })
}
