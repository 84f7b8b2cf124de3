//! Types that are written as in other languages.

use crate::advice::Advice;
use crate::near::{is_adjacent, is_kind, is_word, last_before};
use hcl_scan::{Kind, Scanned};

/// Returns the advice for the token after a type that is written as in other languages:
/// `list<string>`, or `map<string` before a `,`, or `string?`.
pub fn in_type(scanned: &Scanned<'_>, kind: Kind, found: usize) -> Option<Advice> {
    match last_before(scanned, found, false) {
        Some(last) if is_kind(scanned, last, Kind::Question) => {
            if is_type_name(scanned, last.saturating_sub(1)) && is_adjacent(scanned, last) {
                Some(Advice::OptionalType)
            } else {
                None
            }
        }
        Some(last) => {
            let inner = match kind {
                Kind::Comma => last,
                _ if is_kind(scanned, last, Kind::Greater) => last.saturating_sub(1),
                _ => return None,
            };
            if is_type_name(scanned, inner) && is_after_collection(scanned, inner) {
                Some(Advice::ElementType)
            } else {
                None
            }
        }
        None => None,
    }
}

/// Whether token `i` is the name of a simple type.
pub fn is_type_name(scanned: &Scanned<'_>, i: usize) -> bool {
    is_word(scanned, i, b"string")
        || is_word(scanned, i, b"number")
        || is_word(scanned, i, b"bool")
        || is_word(scanned, i, b"any")
}

/// Whether the name of a type of collections and a `<` are before token `i`.
fn is_after_collection(scanned: &Scanned<'_>, i: usize) -> bool {
    let name = i.saturating_sub(2);
    i > 1
        && is_kind(scanned, i - 1, Kind::Less)
        && (is_word(scanned, name, b"list")
            || is_word(scanned, name, b"set")
            || is_word(scanned, name, b"map"))
}
