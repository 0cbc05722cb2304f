// The tokens of JSON.
ghost use Rattle.std.specs.Prelude.{◌≡◌, ◌+◌, ◌<◌, ◌≤◌, length, IfOk, MatchBool, slice_index};
ghost use Rattle.text.specs.Places.{Placed, is_end};
ghost use Rattle.text.specs.TokenGrammar.{WhiteSpace, Structural, LiteralName};
ghost use Rattle.text.specs.TokenFound.{Skipped, MarkTold, FoundHere, TokenTold};
ghost use Rattle.text.specs.declared.language.Language.TheVariants.{Json};

use crate::fault::Fault;
use crate::language::Language;
use crate::run::run_len;
use crate::token::{Lexeme, Token, begins_number, numeral, quoted, spelled};

fn white_space(byte: u8) -> bool
    ensures { MatchBool result (WhiteSpace byte) (WhiteSpace byte → ⊥) }
{
    matches!(byte, b' ' | b'\t' | b'\n' | b'\r')
}

// The end of the white space at `at`.
fn skip(text: &[u8], at: usize) -> usize
    ensures { Skipped Json text.now at result }
{
    let from = at.min(text.len());
    from + run_len(&text[from..], white_space)
}

// The structural character that a byte is.
fn structural<'a>(byte: u8) -> Option<Token<'a>>
    ensures { MarkTold Structural byte result }
{
    match byte {
        b'[' => Some(Token::OpenBracket),
        b'{' => Some(Token::OpenBrace),
        b']' => Some(Token::CloseBracket),
        b'}' => Some(Token::CloseBrace),
        b':' => Some(Token::Colon),
        b',' => Some(Token::Comma),
        _ => None,
    }
}

// The literal name that begins at `start`, if it is `word`.
fn literal<'a>(text: &'a [u8], start: usize, word: &[u8]) -> Result<Lexeme<'a>, Fault>
    requires within { start < length text.now }
    requires word { LiteralName word.now }
    requires first { slice_index text.now start ≡ slice_index word.now 0 }
    ensures { FoundHere Json text.now start result }
{
    let name = spelled(text, start, word, Token::Name(word))?;
    let end = name.end;
    Ok(Lexeme {
        token: Token::Name(&text[start..end]),
        start,
        end,
    })
}

// The token that begins at `start`.
fn token_at(text: &[u8], start: usize) -> Result<Lexeme<'_>, Fault>
    requires { start ≤ length text.now }
    ensures { FoundHere Json text.now start result }
{
    let Some(&byte) = text.get(start) else {
        return Ok(Lexeme::end_at(start));
    };
    if let Some(token) = structural(byte) {
        return Ok(Lexeme::mark(token, start));
    }
    if begins_number(byte) {
        return numeral(text, start);
    }
    match byte {
        b'"' => quoted(text, start, Language::Json),
        b't' => literal(text, start, b"true"),
        b'f' => literal(text, start, b"false"),
        b'n' => literal(text, start, b"null"),
        _ => Err(Fault::BadText(start)),
    }
}

// The first token at or after `at`.
pub fn token(text: &[u8], at: usize) -> Result<Lexeme<'_>, Fault>
    ensures placed { IfOk result (λ l. Placed (length text.now) at l.start l.end (is_end l.token)) }
    ensures found { TokenTold Json text.now at result }
{
    token_at(text, skip(text, at))
}
