// The lines of a table of cases.
ghost use Rattle.std.specs.Prelude.{◌<◌, ◌≤◌, length, IfSome, IfOk};

use hex::FromHex;
use std::alloc::{AllocError, AllocFailed, Global};
use std::str;

// A request: its schema and its operation are made, and its variables, read so, are loaded into a sheet of that capacity.
#[derive(Drop)]
pub struct Case {
    pub schema: Vec<u8>,
    pub operation: Vec<u8>,
    pub capacity: usize,
    pub reading: Reading,
    pub variables: Vec<u8>,
}

// What a text is read as.
#[derive(Clone, Copy)]
pub enum Reading {
    Json,
    Literal,
    Sheet,
}

#[derive(Drop)]
pub enum Asked {
    Request(Case),
    Text(Reading, Vec<u8>),
}

// A case, and its title.
#[derive(Drop)]
pub struct Line {
    pub title: Vec<u8>,
    pub asked: Asked,
}

#[derive(Clone, Copy)]
pub enum Misread {
    Wrong,
    NoMemory,
}

impl From<AllocError> for Misread {
    fn from(_error: AllocError) -> Misread {
        Misread::NoMemory
    }
}

impl<T: Drop> From<AllocFailed<T>> for Misread {
    fn from(_error: AllocFailed<T>) -> Misread {
        Misread::NoMemory
    }
}

// What stands before the first such mark, and what stands after it.
fn cut(text: &[u8], mark: u8) -> Result<(&[u8], &[u8]), Misread>
    ensures { IfOk result (λ p. length p.1.now < length text.now) }
{
    let at = text.iter().position(|b| *b == mark).ok_or(Misread::Wrong)?;
    Ok((&text[..at], &text[at + 1..]))
}

// A number in decimal digits, with no sign.
fn number(digits: &[u8]) -> Option<usize> {
    let text = str::from_utf8(digits)
        .ok()
        .filter(|text| !text.starts_with('+'))?;
    text.parse().ok()
}

// The byte that `\` and the text after it write first, as `\xHH` or as `\` itself, and the text after that.
#[inline(always)]
fn byte(after: &[u8]) -> (u8, &[u8])
    ensures { length result.1.now ≤ length after.now }
{
    if let [b'x', high, low, rest @ ..] = after
        && let Ok(bytes) = <[u8; 1]>::from_hex([*high, *low])
    {
        return (bytes[0], rest);
    }
    (b'\\', after)
}

// Adds the number of a turn; apart, so that the loop over a turn's bytes stays small.
#[inline(never)]
fn add_turn(heap: Global, turn: usize, out: &mut Vec<u8>) -> Result<(), Misread> {
    out.extend_from_slice(format!(in heap; "{turn}")?.as_bytes())?;
    Ok(())
}

// Adds the bytes that a repeated text writes in a turn, which is the number that `\i` stands for.
fn add(heap: Global, text: &[u8], turn: usize, out: &mut Vec<u8>) -> Result<(), Misread> {
    let mut rest = text;
    while let [first, after @ ..] = rest {
        rest = if *first != b'\\' {
            out.push(*first)?;
            after
        } else if let [b'i', after @ ..] = after {
            add_turn(heap, turn, out)?;
            after
        } else {
            let (b, after) = byte(after);
            out.push(b)?;
            after
        };
    }
    Ok(())
}

// Adds what `N^text^` writes that begins a text, and tells what comes after it.
#[inline(never)]
fn repeat<'t>(heap: Global, text: &'t [u8], out: &mut Vec<u8>) -> Result<&'t [u8], Misread>
    ensures { IfOk result (λ rest. length rest.now < length text.now) }
{
    let (count, rest) = cut(text, b'^')?;
    let (repeated, rest) = cut(rest, b'^')?;
    for turn in 0..number(count).ok_or(Misread::Wrong)? {
        add(heap, repeated, turn, out)?;
    }
    Ok(rest)
}

// The bytes that a field writes.
fn field(heap: Global, text: &[u8]) -> Result<Vec<u8>, Misread> {
    let mut out = Vec::new(heap);
    let mut rest = text;
    while let [first, after @ ..] = rest {
        rest = match *first {
            b'^' => repeat(heap, after, &mut out)?,
            b'\\' => {
                let (b, after) = byte(after);
                out.push(b)?;
                after
            }
            b => {
                out.push(b)?;
                after
            }
        };
    }
    Ok(out)
}

// What a word says that a text is read as.
fn read_as(word: &[u8]) -> Result<Reading, Misread> {
    match word {
        b"json" => Ok(Reading::Json),
        b"literal" => Ok(Reading::Literal),
        b"sheet" => Ok(Reading::Sheet),
        _ => Err(Misread::Wrong),
    }
}

// What the variables are read as, and their text: all that is left is JSON where no word says it.
fn cut_reading(rest: &[u8]) -> (Reading, &[u8]) {
    if let Some(text) = rest.strip_prefix(b"json\t") {
        (Reading::Json, text)
    } else if let Some(text) = rest.strip_prefix(b"literal\t") {
        (Reading::Literal, text)
    } else if let Some(text) = rest.strip_prefix(b"sheet\t") {
        (Reading::Sheet, text)
    } else {
        (Reading::Json, rest)
    }
}

// The request that the fields after a title write.
fn request(heap: Global, fields: &[u8]) -> Result<Case, Misread> {
    let (schema, rest) = cut(fields, b'\t')?;
    let (operation, rest) = cut(rest, b'\t')?;
    let (capacity, rest) = cut(rest, b'\t')?;
    let capacity = number(capacity).ok_or(Misread::Wrong)?;
    let (reading, variables) = cut_reading(rest);
    Ok(Case {
        schema: field(heap, schema)?,
        operation: field(heap, operation)?,
        capacity,
        reading,
        variables: field(heap, variables)?,
    })
}

// The case that a line writes.
pub(crate) fn read(heap: Global, line: &[u8]) -> Result<Line, Misread> {
    let (title, fields) = cut(line, b'\t')?;
    let (first, rest) = cut(fields, b'\t')?;
    let asked = if rest.contains(&b'\t') {
        Asked::Request(request(heap, fields)?)
    } else {
        Asked::Text(read_as(first)?, field(heap, rest)?)
    };
    let title = title.to_vec(heap)?;
    Ok(Line { title, asked })
}
