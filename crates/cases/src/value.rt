// A value that was read, as a line shows it: what it is, and after each value `@` and its place.
use source::raw::{Kind, Source};
use std::alloc::AllocError;
use std::fmt::Write;

// Adds bytes as characters: quotation marks, backslashes and what is no visible ASCII as `\xHH`.
fn add_bytes(bytes: &[u8], out: &mut String) -> Result<(), AllocError> {
    for byte in bytes {
        match *byte {
            b' ' | b'!' | b'#'..=b'[' | b']'..=b'~' => out.push(char::from(*byte))?,
            byte => write!(out, "\\x{byte:02x}")?,
        }
    }
    Ok(())
}

// Adds a decimal: its sign, its digits, and its exponent after an `e`.
fn add_decimal<S: Source>(source: &S, at: usize, out: &mut String) -> Result<(), AllocError> {
    let scale = source.scale(at);
    if scale.negative {
        out.push('-')?;
    }
    add_bytes(source.text(at), out)?;
    write!(out, "e{}", scale.exponent)?;
    Ok(())
}

// Adds the value at the cursor, with `levels` left for it and what is inside it: a source has no more than these.
pub(crate) fn add<S: Source>(
    source: &S,
    at: usize,
    levels: usize,
    out: &mut String,
) -> Result<(), AllocError> {
    if levels == 0 {
        return Ok(());
    }
    match source.kind(at) {
        Kind::Null => out.push_str("null")?,
        Kind::Boolean if source.boolean(at) => out.push_str("true")?,
        Kind::Boolean => out.push_str("false")?,
        Kind::Whole | Kind::Enum => add_bytes(source.text(at), out)?,
        Kind::Decimal => add_decimal(source, at, out)?,
        Kind::String => {
            out.push('"')?;
            add_bytes(source.text(at), out)?;
            out.push('"')?;
        }
        Kind::Variable => {
            out.push('$')?;
            add_bytes(source.text(at), out)?;
        }
        Kind::List => {
            out.push('[')?;
            for (index, item) in source.values(at).enumerate() {
                if index > 0 {
                    out.push_str(", ")?;
                }
                add(source, item, levels - 1, out)?;
            }
            out.push(']')?;
        }
        Kind::Object => {
            out.push('{')?;
            for (index, member) in source.values(at).enumerate() {
                if index > 0 {
                    out.push_str(", ")?;
                }
                out.push('"')?;
                add_bytes(source.name(member), out)?;
                out.push_str("\": ")?;
                add(source, member, levels - 1, out)?;
            }
            out.push('}')?;
        }
    }
    write!(out, "@{}", source.place(at))?;
    Ok(())
}
