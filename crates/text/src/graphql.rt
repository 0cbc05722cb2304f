// The tokens of GraphQL. What their grammar shares with that of JSON stands in `token`.
ghost use Rattle.std.specs.Prelude.{◌≡◌, ◌+◌, ◌<◌, ◌≤◌, length, IfOk, MatchBool, slice_index};
ghost use Rattle.text.specs.Places.{Placed, is_end};
ghost use Rattle.text.specs.StringGrammar.{LineTerminator};
ghost use Rattle.text.specs.TokenGrammar.{NumberFirst, NumberGoesOn, NameStart, NameContinue, CommentChar, Comment, IgnoredByte, ByteOrderMark, GraphqlIgnored, Punctuator};
ghost use Rattle.text.specs.TokenFound.{Skipped, StepTold, MarkTold, NameEnd, FoundHere, TokenTold};
ghost use Rattle.text.specs.declared.language.Language.TheVariants.{Graphql};

use crate::fault::Fault;
use crate::language::Language;
use crate::limits::LONGEST_NAME;
use crate::run::run_len;
use crate::token::{Lexeme, Token, begins_number};
use crate::{string, token};

const BYTE_ORDER_MARK: char = '\u{FEFF}';

// The end of the character of a comment at `at`.
fn comment_char(text: &[u8], at: usize) -> Option<usize>
    ensures { StepTold CommentChar text.now at result }
{
    let (c, end) = string::character(text, at)?;
    string::within_line(c).then_some(end)
}

fn ends_line(byte: u8) -> bool
    ensures { MatchBool result (LineTerminator byte) (LineTerminator byte → ⊥) }
{
    matches!(byte, b'\n' | b'\r')
}

// The end of the comment whose `#` stands at `at`: a line terminator, or the end of the text.
fn comment(text: &[u8], at: usize) -> Option<usize>
    requires { (at < length text.now) × (slice_index text.now at ≡ 35) }
    ensures { StepTold Comment text.now at result }
{
    let mut next = at + 1;
    // Not `run_len`: a character takes up to four bytes, and bytes may be no character.
    while let Some(&byte) = text.get(next)
        && !ends_line(byte)
    {
        next = comment_char(text, next)?;
    }
    Some(next)
}

// The end of the byte order mark at `at`.
fn byte_order_mark(text: &[u8], at: usize) -> Option<usize>
    ensures { StepTold ByteOrderMark text.now at result }
{
    let (c, end) = string::character(text, at)?;
    (c == BYTE_ORDER_MARK).then_some(end)
}

// White space, line terminators and commas.
fn ignored_byte(byte: u8) -> bool
    ensures { MatchBool result (IgnoredByte byte) (IgnoredByte byte → ⊥) }
{
    matches!(byte, b' ' | b'\t' | b'\n' | b'\r' | b',')
}

// The end of the one thing at `at` that is ignored.
fn ignored(text: &[u8], at: usize) -> Option<usize>
    ensures { StepTold GraphqlIgnored text.now at result }
{
    let byte = *text.get(at)?;
    if ignored_byte(byte) {
        return Some(at + 1);
    }
    match byte {
        b'#' => comment(text, at),
        0xEF => byte_order_mark(text, at),
        _ => None,
    }
}

// The end of all that is ignored at `at`.
fn skip(text: &[u8], at: usize) -> usize
    ensures { Skipped Graphql text.now at result }
{
    let mut next = at.min(text.len());
    // Not `run_len`: a comment and a byte order mark take more than one byte.
    while let Some(end) = ignored(text, next) {
        next = end;
    }
    next
}

fn begins_name(byte: u8) -> bool
    ensures { MatchBool result (NameStart byte) (NameStart byte → ⊥) }
{
    byte == b'_' || byte.is_ascii_alphabetic()
}

fn continues_name(byte: u8) -> bool
    ensures { MatchBool result (NameContinue byte) (NameContinue byte → ⊥) }
{
    begins_name(byte) || byte.is_ascii_digit()
}

// The end of the name that begins at `start`.
fn name_end(text: &[u8], start: usize) -> usize
    requires { start < length text.now }
    ensures { NameEnd text.now start result }
{
    let from = start + 1;
    from + run_len(&text[from..], continues_name)
}

// The name that begins at `start`.
fn name(text: &[u8], start: usize) -> Result<Lexeme<'_>, Fault>
    requires { (start < length text.now) × NameStart (slice_index text.now start) }
    ensures { FoundHere Graphql text.now start result }
{
    let end = name_end(text, start);
    if end - start > LONGEST_NAME {
        return Err(Fault::BadText(start));
    }
    Ok(Lexeme {
        token: Token::Name(&text[start..end]),
        start,
        end,
    })
}

// Whether a byte may not follow a number.
fn barred_after_number(byte: u8) -> bool
    ensures { MatchBool result (NumberGoesOn byte) (NumberGoesOn byte → ⊥) }
{
    byte == b'.' || continues_name(byte)
}

// The number that begins at `start`; no digit, point or name may follow it.
fn numeral(text: &[u8], start: usize) -> Result<Lexeme<'_>, Fault>
    requires { (start < length text.now) × NumberFirst (slice_index text.now start) }
    ensures { FoundHere Graphql text.now start result }
{
    let number = token::numeral(text, start)?;
    let end = number.end;
    if let Some(&byte) = text.get(end)
        && barred_after_number(byte)
    {
        return Err(Fault::BadText(start));
    }
    Ok(number)
}

// The string that begins at `start`; three quotation marks begin none.
fn quoted(text: &[u8], start: usize) -> Result<Lexeme<'_>, Fault>
    requires { (start < length text.now) × (slice_index text.now start ≡ 34) }
    ensures { FoundHere Graphql text.now start result }
{
    if text[start..].starts_with(b"\"\"\"") {
        return Err(Fault::BadText(start));
    }
    token::quoted(text, start, Language::Graphql)
}

// The punctuator that a byte is.
fn punctuator<'a>(byte: u8) -> Option<Token<'a>>
    ensures { MarkTold Punctuator byte result }
{
    match byte {
        b'!' => Some(Token::Bang),
        b'$' => Some(Token::Dollar),
        b'&' => Some(Token::Ampersand),
        b'(' => Some(Token::OpenParen),
        b')' => Some(Token::CloseParen),
        b':' => Some(Token::Colon),
        b'=' => Some(Token::Equals),
        b'@' => Some(Token::At),
        b'[' => Some(Token::OpenBracket),
        b']' => Some(Token::CloseBracket),
        b'{' => Some(Token::OpenBrace),
        b'|' => Some(Token::Pipe),
        b'}' => Some(Token::CloseBrace),
        _ => None,
    }
}

// The token that begins at `start`.
fn token_at(text: &[u8], start: usize) -> Result<Lexeme<'_>, Fault>
    requires { start ≤ length text.now }
    ensures { FoundHere Graphql text.now start result }
{
    let Some(&byte) = text.get(start) else {
        return Ok(Lexeme::end_at(start));
    };
    if begins_name(byte) {
        return name(text, start);
    }
    if let Some(token) = punctuator(byte) {
        return Ok(Lexeme::mark(token, start));
    }
    if begins_number(byte) {
        return numeral(text, start);
    }
    match byte {
        b'"' => quoted(text, start),
        b'.' => token::spelled(text, start, b"...", Token::Spread),
        _ => Err(Fault::BadText(start)),
    }
}

// The first token at or after `at`.
pub fn token(text: &[u8], at: usize) -> Result<Lexeme<'_>, Fault>
    ensures placed { IfOk result (λ l. Placed (length text.now) at l.start l.end (is_end l.token)) }
    ensures found { TokenTold Graphql text.now at result }
{
    token_at(text, skip(text, at))
}
