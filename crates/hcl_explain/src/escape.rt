//! The sentence of a `\` with which no escape begins.

use std::alloc::AllocError;
use std::fmt::Write;

/// What is said of a `\` that ends a line.
const NEXT_LINE: &str =
    "a string ends on its line, with a `\"`; text of several lines is a heredoc";

/// Adds that an escape is unknown, with its character if that can be seen, and what to write.
pub fn push_escape(out: &mut String, rest: &[u8]) -> Result<(), AllocError> {
    out.push_str("unknown escape")?;
    if let Some(byte) = rest.get(1) {
        let c = char::from(*byte);
        if c.is_ascii_graphic() {
            write!(out, " `\\{c}`")?;
        }
    }
    out.push_str(": ")?;
    push_advice(out, rest)
}

/// Adds what is written in place of the escape with which a text begins.
fn push_advice(out: &mut String, rest: &[u8]) -> Result<(), AllocError> {
    match rest {
        [_, b'\n', ..] | [_, b'\r', b'\n', ..] => out.push_str(NEXT_LINE),
        [_, b'$', b'{', ..] => out.push_str("`${` as text is written `$${`"),
        [_, b'%', b'{', ..] => out.push_str("`%{` as text is written `%%{`"),
        [_, b'\'' | b'/' | b'`' | b'$', ..] => push_unescaped(out, rest),
        [_, b'u' | b'U', next, ..] if is_number(*next) => {
            out.push_str("`\\u` has four hexadecimal digits, `\\U` eight")
        }
        [_, b'x', high, low, ..] if is_hexadecimal(*high, *low) => push_code(out, *high, *low),
        _ => out.push_str("a backslash is written `\\\\`"),
    }
}

/// Adds that a character needs no backslash.
fn push_unescaped(out: &mut String, rest: &[u8]) -> Result<(), AllocError> {
    match rest.get(1) {
        Some(byte) => {
            let c = char::from(*byte);
            write!(out, "`{c}` needs no backslash")
        }
        None => Ok(()),
    }
}

/// Adds the escape of a character that was written with these two digits.
fn push_code(out: &mut String, high: u8, low: u8) -> Result<(), AllocError> {
    let (high, low) = (char::from(high), char::from(low));
    write!(out, "write `\\u00{high}{low}`")
}

/// Whether the number of a character may begin with a byte.
fn is_number(byte: u8) -> bool {
    byte == b'{' || byte.is_ascii_hexdigit()
}

fn is_hexadecimal(high: u8, low: u8) -> bool {
    high.is_ascii_hexdigit() && low.is_ascii_hexdigit()
}
