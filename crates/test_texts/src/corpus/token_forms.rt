//! The kinds of tokens, and the forms of some.

use crate::corpus::coverage::Coverage;
use hcl_scan::{Kind, Scanned};

/// Notes the tokens of a text.
pub fn see(scanned: &Scanned<'_>, seen: &mut Coverage) {
    for i in 0..scanned.len() {
        see_token(scanned.kind(i), scanned.spelling(i), seen);
    }
    if let Some(last) = scanned.len().checked_sub(1) {
        let kind = scanned.kind(last);
        seen.form_if(
            kind == Kind::LineComment,
            "a comment at the end of the text",
        );
        seen.form_if(kind != Kind::LineEnd, "a last line without an end");
    }
}

fn see_token(kind: Kind, spelling: &[u8], seen: &mut Coverage) {
    seen.kind(kind);
    if let Some(form) = form_of(kind, spelling) {
        seen.form(form);
    }
    if !spelling.is_ascii() {
        see_letters(kind, seen);
    }
}

/// The form of a token of a kind that has two.
fn form_of(kind: Kind, spelling: &[u8]) -> Option<&'static str> {
    let (is_first, first, second) = match kind {
        Kind::LineEnd => (spelling == b"\n".as_slice(), "LF", "CR LF"),
        Kind::LineComment => (spelling.starts_with(b"#"), "# comment", "// comment"),
        Kind::HereOpen => (spelling.starts_with(b"<<-"), "<<-MARKER", "<<MARKER"),
        Kind::InterpOpen => (spelling == b"${".as_slice(), "${", "${~"),
        Kind::DirectiveOpen => (spelling == b"%{".as_slice(), "%{", "%{~"),
        Kind::SeqClose => (spelling == b"}".as_slice(), "}", "~}"),
        _ => return None,
    };
    Some(if is_first { first } else { second })
}

/// Notes where letters that are not ASCII occur; the byte order mark is none.
fn see_letters(kind: Kind, seen: &mut Coverage) {
    match kind {
        Kind::Identifier => seen.form("a name with letters that are not ASCII"),
        Kind::LineComment | Kind::InlineComment => {
            seen.form("a comment with letters that are not ASCII")
        }
        Kind::QuoteLit | Kind::HereLit => {
            seen.form("literal text with letters that are not ASCII")
        }
        _ => {}
    }
}
