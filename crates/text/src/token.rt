// Tokens, each a part of its text.
ghost use Rattle.std.specs.Prelude.{◌≡◌, ◌+◌, ◌<◌, ◌≤◌, length, MatchBool};
ghost use Rattle.text.specs.TokenGrammar.{NumberFirst};
ghost use Rattle.text.specs.TokenFound.{NumeralTold, QuotedTold, SpelledTold, OneToken};
ghost use Rattle.text.specs.declared.token.Token.TheVariants.{End};

use crate::fault::Fault;
use crate::language::Language;
use crate::number::NumberKind;
use crate::{number, string};

#[derive(Clone, Copy, Debug, PartialEq)]
pub enum Token<'a> {
    Bang,
    Dollar,
    Ampersand,
    OpenParen,
    CloseParen,
    Spread,
    Colon,
    Equals,
    At,
    OpenBracket,
    CloseBracket,
    OpenBrace,
    Pipe,
    CloseBrace,
    Comma,
    Name(&'a [u8]),
    // The bytes first, as in the other variants that have some: the token is copied about in fewer instructions.
    Number(&'a [u8], NumberKind),
    Text { raw: &'a [u8], plain: bool },
    End,
}

// A token with its place: it is the part of the text from `start` to `end`.
#[derive(Clone, Copy, Debug, PartialEq)]
pub struct Lexeme<'a> {
    pub token: Token<'a>,
    pub start: usize,
    pub end: usize,
}

impl<'a> Lexeme<'a> {
    // The end of a text, at `at`.
    pub(crate) fn end_at(at: usize) -> Lexeme<'a>
        ensures { result ≡ record { token = End; start = at; end = at } }
    {
        Lexeme {
            token: Token::End,
            start: at,
            end: at,
        }
    }

    // A token of one byte, at `at`.
    pub(crate) fn mark(token: Token<'a>, at: usize) -> Lexeme<'a>
        requires { at < usize.MAX }
        ensures { result ≡ record { token = token.entry; start = at; end = at + 1 } }
    {
        Lexeme {
            token,
            start: at,
            end: at + 1,
        }
    }
}

// The number that begins at `start`, whatever follows it.
// Inlined, so that what finds a token keeps its answer in registers: reading takes a seventh fewer instructions.
#[inline(always)]
pub(crate) fn numeral(text: &[u8], start: usize) -> Result<Lexeme<'_>, Fault>
    ensures { NumeralTold text.now start result }
{
    let (end, kind) = number::scan(text, start)?;
    Ok(Lexeme {
        token: Token::Number(&text[start..end], kind),
        start,
        end,
    })
}

// The string whose opening mark stands at `start`.
pub(crate) fn quoted(text: &[u8], start: usize, language: Language) -> Result<Lexeme<'_>, Fault>
    requires { start < length text.now }
    ensures { QuotedTold language text.now start result }
{
    let from = start + 1;
    let (end, plain) = string::scan(text, from, language).ok_or(Fault::BadText(start))?;
    let raw = &text[from..end - 1];
    Ok(Lexeme {
        token: Token::Text { raw, plain },
        start,
        end,
    })
}

// The token that is spelled `word`, if that begins at `start`.
pub(crate) fn spelled<'a>(
    text: &[u8],
    start: usize,
    word: &[u8],
    token: Token<'a>,
) -> Result<Lexeme<'a>, Fault>
    requires { start ≤ length text.now }
    ensures { SpelledTold text.now start word.now token.entry result }
{
    if !text[start..].starts_with(word) {
        return Err(Fault::BadText(start));
    }
    Ok(Lexeme {
        token,
        start,
        end: start + word.len(),
    })
}

// Whether a number can begin with a byte.
pub(crate) fn begins_number(byte: u8) -> bool
    ensures { MatchBool result (NumberFirst byte) (NumberFirst byte → ⊥) }
{
    matches!(byte, b'-' | b'0'..=b'9')
}

// The contract of the functions that find a token has one answer at each place of each text.
pub fn one_token()
    ensures { OneToken }
{}
