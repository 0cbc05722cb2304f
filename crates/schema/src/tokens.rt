// Reading the tokens of a text one after the other.
ghost use Rattle.std.specs.Prelude.{◌≡◌, ◌<◌, ◌≤◌, ◌+◌, length, vec_len, Ok, Err, IfOk, MatchResult, IsOkAnd, Some, None, is_ok};
ghost use Rattle.text.specs.Places.{Placed, is_end};
ghost use Rattle.text.specs.TokenFound.{TokenTold, view_of};
ghost use Rattle.text.specs.declared.fault.Fault.TheVariants.{BadText};
ghost use Rattle.text.specs.declared.language.Language.TheVariants.{Graphql};

use lookup::Named;
use reader::literal;
use source::limits::LONGEST_TEXT;
use source::nodes::Nodes;
use text::fault::Fault;
use text::graphql;
use text::token::{Lexeme, Token};

// The literal of a default or of an argument is at this depth, what is in it deeper.
pub const LITERAL_DEPTH: usize = 1;

// A name, and its offset in the text.
#[derive(Clone, Copy)]
pub struct Name<'a> {
    pub name: &'a [u8],
    pub place: usize,
}

impl Named for Name<'_> {
    ghost called = { λ n. n.name.now };

    fn name(&self) -> &[u8] {
        self.name
    }
}

// What is still to be read of a text.
#[derive(Drop)]
pub struct Tokens<'a> {
    pub text: &'a [u8],
    pub at: usize,
    ghost inside: { at ≤ length text.now },
}

impl<'a> Tokens<'a> {
    ghost use Rattle.source.specs.Table.{table_of, Stands, Keeps};
    ghost use Rattle.schema.specs.Declarations.{ReadsLiteral};
    ghost use Rattle.schema.specs.Outcomes.{Takes, any_name};
    ghost use Rattle.schema.specs.Reading.{Onward, past};
    ghost use Rattle.schema.specs.Told.{Told, Itself, Labels, Spelled, is_token, the_token, TokenIfAny};

    // The whole text, unless it is too long.
    pub fn new(text: &'a [u8]) -> Result<Tokens<'a>, Fault>
        ensures long { 65535 < length text.now → result ≡ Err (BadText 0) }
        ensures whole { length text.now ≤ 65535 → IsOkAnd result (λ t. (t.text.now ≡ text.now) × (t.at ≡ 0)) }
    {
        if text.len() > LONGEST_TEXT {
            return Err(Fault::BadText(0));
        }
        Ok(Tokens { text, at: 0 })
    }

    // The next token, which is left.
    pub fn peek(&self) -> Result<Lexeme<'a>, Fault>
        ensures told { TokenTold Graphql self.now.text.now self.now.at result }
        ensures placed { IfOk result (λ l. Placed (length self.now.text.now) self.now.at l.start l.end (is_end l.token)) }
    {
        graphql::token(self.text, self.at)
    }

    // The next token, which is passed.
    pub fn next(&mut self) -> Result<Lexeme<'a>, Fault>
        ensures told { TokenTold Graphql self.old.text.now self.old.at result }
        ensures placed { IfOk result (λ l. Placed (length self.old.text.now) self.old.at l.start l.end (is_end l.token)) }
        ensures text { self.new.text.now ≡ self.old.text.now }
        ensures at { self.new.at ≡ past self.old.at (is_ok result) result }
    {
        let lexeme = self.peek()?;
        self.at = lexeme.end;
        Ok(lexeme)
    }

    // The next token, which is to be a name.
    pub fn name(&mut self) -> Result<Name<'a>, Fault>
        ensures told { Told 1 (λ N. Takes N any_name) Labels self.old self.new result }
        ensures onward { IfOk result (λ _. Onward 1 self.old self.new) }
    {
        let lexeme = self.peek()?;
        let Token::Name(name) = lexeme.token else {
            return Err(Fault::BadText(lexeme.start));
        };
        self.at = lexeme.end;
        Ok(Name {
            name,
            place: lexeme.start,
        })
    }

    // Passes the next token, which is to be this one, and says where it began.
    pub fn expect(&mut self, wanted: Token<'_>) -> Result<usize, Fault>
        ensures told { Spelled (view_of wanted.entry) → Told 0 (λ N. Takes N (the_token (view_of wanted.entry))) Itself self.old self.new result }
        ensures onward { IfOk result (λ _. Onward 0 self.old self.new) }
    {
        let lexeme = self.peek()?;
        if lexeme.token != wanted {
            return Err(Fault::BadText(lexeme.start));
        }
        self.at = lexeme.end;
        Ok(lexeme.start)
    }

    // Passes the next token if it is this one, and says where it began.
    pub fn eat(&mut self, wanted: Token<'_>) -> Result<Option<usize>, Fault>
        ensures told { Spelled (view_of wanted.entry) → Told 0 (λ N. TokenIfAny N (is_token (view_of wanted.entry))) Itself self.old self.new result }
        ensures onward { IfOk result (λ _. Onward 0 self.old self.new) }
    {
        let lexeme = self.peek()?;
        if lexeme.token != wanted {
            return Ok(None);
        }
        self.at = lexeme.end;
        Ok(Some(lexeme.start))
    }

    // Adds the nodes of the literal that comes next: its cursor.
    pub(crate) fn literal(&mut self, nodes: &mut Nodes) -> Result<usize, Fault>
        ensures told { Told 1 ReadsLiteral (Stands (table_of self.old.text.now nodes.new)) self.old self.new result }
        ensures keeps { IfOk result (λ _. Keeps 0 (table_of self.old.text.now nodes.old) (table_of self.old.text.now nodes.new)) }
        ensures onward { IfOk result (λ _. Onward 1 self.old self.new) }
        ensures root { IfOk result (λ root. root ≡ vec_len nodes.old.list) }
    {
        let root = nodes.list.len();
        self.at = literal::literal_at(self.text, self.at, LITERAL_DEPTH, nodes)?;
        Ok(root)
    }
}
