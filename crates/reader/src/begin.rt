// The values that tokens begin.
ghost use Rattle.std.specs.Prelude.{◌≡◌, ℕ, ◌+◌, ◌-◌, ◌<◌, ◌≤◌, List, length};
ghost use Rattle.std.proofs.Math.Utf8.{encodes};
ghost use Rattle.text.specs.declared.fault.Fault.TheVariants.{NoMemory};
ghost use Rattle.text.specs.declared.number.NumberKind.TheVariants.{Whole, Decimal};
ghost use Rattle.text.specs.Cuts.{part as cut_out};
ghost use Rattle.text.specs.TokenGrammar.{a_name, a_number, Numeral};
ghost use Rattle.text.specs.TokenFound.{Writes};
ghost use Rattle.reader.specs.Told.{LookTold, LeafContent, LeafTold, PartTold, Lexed, StartTold, BeginTold};

use crate::reading::Reader;
use names::part::Part;
use source::nodes::{Content, Node};
use source::value::Written;
use text::fault::Fault;
use text::language::Language;
use text::number::NumberKind;
use text::token::{Lexeme, Token};
use text::{decimal, graphql, json, string};

// A name from `start` to `end`: null, a boolean or an enum value.
// It compares, since the facts of a match on byte strings have no names that a proof could cite.
// Inlined, as `decimal_content` is: LLVM would leave them apart where both languages are read.
#[inline(always)]
fn word_content(word: &[u8], start: usize, end: usize) -> Content
    ensures { (text pool : List ℕ) → start ≤ end → end ≤ length text → word.now ≡ cut_out text start end → LeafContent text pool pool start (a_name word.now) result }
{
    if word == b"null".as_slice() {
        Content::Null
    } else if word == b"true".as_slice() {
        Content::Boolean(true)
    } else if word == b"false".as_slice() {
        Content::Boolean(false)
    } else {
        Content::Enum(Part::Text { start, end })
    }
}

// A whole number that ends at `end`, where its normal form ends too.
fn whole_content(spelled: &[u8], end: usize) -> Content
    ensures { (text pool : List ℕ) (start : ℕ) → start ≤ end → end ≤ length text → spelled.now ≡ cut_out text start end → LeafContent text pool pool start (a_number Whole spelled.now) result }
{
    let start = end.saturating_sub(decimal::whole(spelled).len());
    Content::Whole(Part::Text { start, end })
}

// A decimal, whose digits in normal form are added to the pool.
#[inline(always)]
fn decimal_content(spelled: &[u8], pool: &mut Vec<u8>) -> Result<Content, Fault>
    requires { Numeral spelled.now Decimal }
    ensures { (text : List ℕ) (start : ℕ) → LeafTold text pool.old.items pool.new.items start (a_number Decimal spelled.now) result }
{
    let start = pool.len();
    let scale = decimal::normal(spelled, pool)?;
    let digits = Part::Pool {
        start,
        end: pool.len(),
    };
    Ok(Content::Decimal { scale, digits })
}

impl<'a, W: Written> Reader<'a, W> {
    // The first token at or after `at`. The two grammars differ in all that they read, not in a constant.
    pub(crate) fn token(self, at: usize) -> Result<Lexeme<'a>, Fault>
        ensures { LookTold W.LANGUAGE self.entry.text.now at result }
    {
        match W::LANGUAGE {
            Language::Json => json::token(self.text, at),
            Language::Graphql => graphql::token(self.text, at),
        }
    }

    // What the lexeme's string writes, with `raw` between its quotation marks: a part of the text where it is plain,
    // without an escape, else added to the pool.
    #[inline(always)]
    pub(crate) fn string_part(
        self,
        lexeme: Lexeme<'_>,
        raw: &[u8],
        plain: bool,
        pool: &mut Vec<u8>,
    ) -> Result<Part, Fault>
        requires { lexeme.start + 1 < lexeme.end }
        ensures { (cs : List ℕ) → raw.now ≡ cut_out self.entry.text.now (lexeme.entry.start + 1) (lexeme.entry.end - 1) → Writes W.LANGUAGE self.entry.text.now (lexeme.entry.start + 1) lexeme.entry.end plain cs → PartTold self.entry.text.now pool.old.items pool.new.items (encodes cs) result }
    {
        if plain {
            return Ok(Part::Text {
                start: lexeme.start + 1,
                end: lexeme.end - 1,
            });
        }
        let from = pool.len();
        string::decode(raw, W::LANGUAGE, pool)?;
        Ok(Part::Pool {
            start: from,
            end: pool.len(),
        })
    }

    // What the value that begins with the token says of itself.
    fn content_of(self, lexeme: Lexeme<'_>, pool: &mut Vec<u8>) -> Result<Content, Fault>
        requires { Lexed W.LANGUAGE self.text.now lexeme }
        ensures { (k : Lexed W.LANGUAGE self.entry.text.now lexeme.entry) → StartTold self.entry.text.now pool.old.items pool.new.items lexeme.entry.start k.token result }
    {
        let Lexeme { token, start, end } = lexeme;
        match token {
            Token::OpenBracket => Ok(Content::List),
            Token::OpenBrace => Ok(Content::Object),
            // Its name is read once the depth is judged: till then the empty part after the sign.
            Token::Dollar => Ok(Content::Variable(Part::Text { start: end, end })),
            Token::Name(word) => Ok(word_content(word, start, end)),
            Token::Number(spelled, kind) => match kind {
                NumberKind::Whole => Ok(whole_content(spelled, end)),
                NumberKind::Decimal => decimal_content(spelled, pool),
            },
            Token::Text { raw, plain } => {
                let text = self.string_part(lexeme, raw, plain, pool)?;
                Ok(Content::String(text))
            }
            _ => Err(Fault::BadText(start)),
        }
    }

    // The first token at or after `at`, and the node of the value that it begins.
    pub(crate) fn begin(
        self,
        at: usize,
        name: Option<Part>,
        pool: &mut Vec<u8>,
    ) -> Result<(Lexeme<'a>, Node), Fault>
        ensures { BeginTold W.LANGUAGE self.entry at name pool.old.items pool.new.items result }
    {
        let lexeme = self.token(at)?;
        let content = self.content_of(lexeme, pool)?;
        Ok((lexeme, Node::new(content, lexeme.start, name)))
    }
}
