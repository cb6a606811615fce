//! The bytes that lines of text stand for.
use crate::line::Piece;
use anyhow::{Result, bail};
use std::alloc::Global;

/// Appends the bytes of a piece, as often as it stands there. Each is a line with its line feed, or without it where
/// the text ends with `\`. In the text `\xFF` is a byte, and `\#` the number of the repetition, from 0.
pub fn append(bytes: &mut Vec<u8>, piece: Piece<'_>) -> Result<()> {
    for number in 0..piece.times {
        append_once(bytes, piece.text, number)?;
    }
    Ok(())
}

fn append_once(bytes: &mut Vec<u8>, text: &str, number: u32) -> Result<()> {
    match text.strip_suffix('\\') {
        Some(text) => append_unescaped(bytes, text, number),
        None => {
            append_unescaped(bytes, text, number)?;
            bytes.push(b'\n')?;
            Ok(())
        }
    }
}

/// The bytes of a text that stands once, with `\xFF` for a byte.
pub fn unescaped(alloc: Global, text: &str) -> Result<Vec<u8>> {
    let mut bytes = Vec::new(alloc);
    append_unescaped(&mut bytes, text, 0)?;
    Ok(bytes)
}

/// Appends the bytes of a text, with `\xFF` for a byte and `\#` for the number.
fn append_unescaped(bytes: &mut Vec<u8>, text: &str, number: u32) -> Result<()> {
    let mut parts = text.split('\\');
    if let Some(plain) = parts.next() {
        bytes.extend_from_slice(plain.as_bytes())?;
    }
    for part in parts {
        append_escaped(bytes, part, number)?;
    }
    Ok(())
}

/// The same of a text that stands after a `\`.
fn append_escaped(bytes: &mut Vec<u8>, part: &str, number: u32) -> Result<()> {
    let plain = match part.split_at_checked(3) {
        Some((escape, plain)) if escape.starts_with('x') => {
            bytes.push(hex(escape)?)?;
            plain
        }
        _ => match part.strip_prefix('#') {
            Some(plain) => {
                append_number(bytes, number)?;
                plain
            }
            None => bail!("no such escape as \\{part}"),
        },
    };
    bytes.extend_from_slice(plain.as_bytes())?;
    Ok(())
}

fn append_number(bytes: &mut Vec<u8>, number: u32) -> Result<()> {
    let digits = format!(in *bytes.allocator(); "{number}")?;
    bytes.extend_from_slice(digits.as_bytes())?;
    Ok(())
}

/// The byte of an escape like `xFF`.
fn hex(escape: &str) -> Result<u8> {
    match escape.strip_prefix('x') {
        Some(digits) if !digits.starts_with('+') => Ok(u8::from_str_radix(digits, 16)?),
        _ => bail!("no such escape as \\{escape}"),
    }
}
