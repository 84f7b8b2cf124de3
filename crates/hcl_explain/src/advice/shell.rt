//! A `${` that is for a shell.

use crate::near::{is_kind, is_next, last_before};
use hcl_scan::{Kind, Scanned};

/// Whether this token of a template sequence is where only a shell has it: `${*`, `${?`, or after a
/// name `:`, `,,` or `%`.
pub fn is_of_shell(scanned: &Scanned<'_>, kind: Kind, found: usize) -> bool {
    match kind {
        Kind::Star | Kind::Question => {
            found > 0 && is_kind(scanned, found - 1, Kind::InterpOpen)
        }
        Kind::Colon => is_only_name(scanned, found),
        Kind::Comma => is_only_name(scanned, found) && is_next(scanned, kind, found),
        Kind::Dot | Kind::Percent | Kind::SeqClose => is_after_percent(scanned, kind, found),
        _ => false,
    }
}

/// Whether `${`, a name and `%` are before token `found`: right before it, or before a comment if
/// it is the `}`.
fn is_after_percent(scanned: &Scanned<'_>, kind: Kind, found: usize) -> bool {
    match last_before(scanned, found, false) {
        Some(last) => {
            is_kind(scanned, last, Kind::Percent)
                && is_only_name(scanned, last)
                && (kind != Kind::SeqClose || found > last.saturating_add(1))
        }
        None => false,
    }
}

/// Whether `${` and a name are right before token `found`.
fn is_only_name(scanned: &Scanned<'_>, found: usize) -> bool {
    found > 1
        && is_kind(scanned, found - 1, Kind::Identifier)
        && is_kind(scanned, found - 2, Kind::InterpOpen)
}
