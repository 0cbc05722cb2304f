// Characters, and the strings of JSON and GraphQL.
ghost use Rattle.std.specs.Prelude.{◌<◌, ◌≤◌, length, MatchBool, slice_index};
ghost use Rattle.text.specs.StringGrammar.{Utf8Char, Code, Escape, Unescaped, Char};
ghost use Rattle.text.specs.TokenGrammar.{CommentCode};
ghost use Rattle.text.specs.StringDecode.{Told, HexTold, Hex4Told, LowTold, PutTold, AddTold, DecodeTold, ScanTold};

use crate::fault::Fault;
use crate::language::Language;
use bstr::decode_utf8;

// The surrogates: the high ones end before the low ones begin.
const FIRST_LOW: u32 = 0xDC00;

const LAST_LOW: u32 = 0xDFFF;

// The UTF-8 character at `at`, and where it ends.
pub fn character(text: &[u8], at: usize) -> Option<(char, usize)>
    ensures { Told Utf8Char text.now at result }
{
    match *text.get(at)? {
        // One byte, as most characters are, is quicker so.
        byte @ 0..0x80 => Some((char::from(byte), at + 1)),
        _ => decoded(text, at),
    }
}

// The same, whatever its first byte.
// Not inlined, so that what goes over ASCII stays small: reading takes a fourteenth fewer instructions.
#[inline(never)]
fn decoded(text: &[u8], at: usize) -> Option<(char, usize)>
    requires { at ≤ length text.now }
    ensures { Told Utf8Char text.now at result }
{
    let (c, size) = decode_utf8(&text[at..]);
    Some((c?, at + size))
}

// The value of a hexadecimal digit; `to_digit` is of a `char`.
fn hex(b: u8) -> Option<u32>
    ensures { HexTold b result }
{
    char::from(b).to_digit(16)
}

// The value of the first four bytes, if they are hexadecimal digits.
fn hex4(text: &[u8]) -> Option<u32>
    ensures { Hex4Told text.now result }
{
    let [a, b, c, d] = *text.first_chunk::<4>()?;
    let (a, b, c, d) = (hex(a)?, hex(b)?, hex(c)?, hex(d)?);
    Some(((a * 16 + b) * 16 + c) * 16 + d)
}

// The low surrogate of the escape at the front.
fn low_surrogate(text: &[u8]) -> Option<u32>
    ensures { LowTold text.now result }
{
    let digits = text.strip_prefix(b"\\u")?;
    let low = hex4(digits)?;
    (FIRST_LOW..=LAST_LOW).contains(&low).then_some(low)
}

// The character whose digits, after `\u`, stand at the front, and where it ends.
fn unicode(text: &[u8]) -> Option<(char, usize)>
    ensures { Told Code text.now 0 result }
{
    let high = hex4(text)?;
    if let Some(c) = char::from_u32(high) {
        return Some((c, 4));
    }
    if high >= FIRST_LOW {
        return None;
    }
    let low = low_surrogate(&text[4..])?;
    let code = 0x10000 + (high - 0xD800) * 0x400 + (low - FIRST_LOW);
    let c = char::from_u32(code)?;
    Some((c, 10))
}

// The character of the escape whose backslash stands before `at`, and where it ends.
// Not inlined, as `decoded` is not.
#[inline(never)]
fn escape(text: &[u8], at: usize) -> Option<(char, usize)>
    ensures { Told Escape text.now at result }
{
    let letter = *text.get(at)?;
    let end = at + 1;
    match letter {
        b'"' | b'\\' | b'/' => Some((char::from(letter), end)),
        b'b' => Some(('\u{8}', end)),
        b'f' => Some(('\u{C}', end)),
        b'n' => Some(('\n', end)),
        b'r' => Some(('\r', end)),
        b't' => Some(('\t', end)),
        b'u' => {
            let (c, size) = unicode(&text[end..])?;
            Some((c, end + size))
        }
        _ => None,
    }
}

// Whether a character of GraphQL's source can stand within a line.
pub(crate) fn within_line(c: char) -> bool
    ensures { MatchBool result (CommentCode c) (CommentCode c → ⊥) }
{
    matches!(c, '\t' | ' '..='\u{FFFF}')
}

// Whether a character stands in a string as it is.
fn unescaped(c: char, language: Language) -> bool
    ensures { MatchBool result (Unescaped language c) (Unescaped language c → ⊥) }
{
    match (language, c) {
        (_, '"' | '\\') => false,
        (Language::Json, _) => c >= ' ',
        (Language::Graphql, _) => within_line(c),
    }
}

// The next character of a string, as it is or escaped, and where it ends.
// Inlined, so that a character of one byte costs no call: reading takes a quarter fewer instructions, of long strings two thirds.
#[inline(always)]
fn next(text: &[u8], at: usize, language: Language) -> Option<(char, usize)>
    ensures { Told (Char language) text.now at result }
{
    let (c, end) = character(text, at)?;
    if c == '\\' {
        return escape(text, end);
    }
    unescaped(c, language).then_some((c, end))
}

// The string whose opening mark stands before `at`: where it ends, and whether it has no escape.
pub fn scan(text: &[u8], at: usize, language: Language) -> Option<(usize, bool)>
    ensures { ScanTold language text.now at result }
{
    let mut end = at;
    let mut plain = true;
    while let Some(byte) = text.get(end) {
        if *byte == b'"' {
            return Some((end + 1, plain));
        }
        plain &= *byte != b'\\';
        let (_, after) = next(text, end, language)?;
        end = after;
    }
    None
}

// Adds the UTF-8 of a character.
fn put(c: char, out: &mut Vec<u8>) -> Result<(), Fault>
    ensures { PutTold c out.old.items out.new.items result }
{
    // One byte, as most characters are, needs no buffer.
    if c < '\u{80}' {
        out.push(c as u8)?;
        return Ok(());
    }
    let mut bytes = [0; 4];
    let text = c.encode_utf8(&mut bytes);
    out.extend_from_slice(text.as_bytes())?;
    Ok(())
}

// Adds the characters of a string, up to the first that cannot be read.
fn add(raw: &[u8], language: Language, out: &mut Vec<u8>) -> Result<(), Fault>
    ensures { AddTold language raw.now out.old.items out.new.items result }
{
    let mut at = 0;
    while at < raw.len() {
        let (c, end) = next(raw, at, language).ok_or(Fault::BadText(at))?;
        put(c, out)?;
        at = end;
    }
    Ok(())
}

// Adds the UTF-8 of what the bytes between the marks of a string write, or nothing.
// Not inlined, since few strings have escapes.
#[inline(never)]
pub fn decode(raw: &[u8], language: Language, out: &mut Vec<u8>) -> Result<(), Fault>
    ensures { DecodeTold language raw.now out.old.items out.new.items result }
{
    let start = out.len();
    let added = add(raw, language, out);
    if added.is_err() {
        out.truncate(start);
    }
    added
}
