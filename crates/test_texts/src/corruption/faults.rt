//! Why a text is not read, and what is at the reported place.

use crate::report::Report;
use hcl_scan::{Scanned, scan};
use hcl_tree::parse;
use std::str::from_utf8;
use tf_session::{Fault, ParseFault, ScanFault};

/// Why no command reads a text; none if it parses. The error is compared with the text.
pub fn refusal(text: &[u8], report: &mut Report) -> Option<Fault> {
    match scan(report.alloc, text) {
        Ok(scanned) => {
            has_exact_tokens(&scanned, text, report);
            no_tree(&scanned, report)
        }
        Err(fault) => {
            report.hold(is_at(fault, text), "another place has that fault");
            Some(Fault::Scan(fault))
        }
    }
}

/// Whether gaps and tokens are the text, which is UTF-8.
fn has_exact_tokens(scanned: &Scanned<'_>, text: &[u8], report: &mut Report) {
    let mut at = 0usize;
    for i in 0..scanned.len() {
        at = past(text, at, scanned.gap(i), report);
        at = past(text, at, scanned.spelling(i), report);
    }
    at = past(text, at, scanned.last_gap(), report);
    let is_whole = at == text.len() && from_utf8(text).is_ok();
    report.hold(is_whole, "the tokens make another text");
}

/// The place after these bytes, which are at this place of the text.
fn past(text: &[u8], at: usize, bytes: &[u8], report: &mut Report) -> usize {
    report.hold(is_there(text, at, bytes), "the tokens make another text");
    at.saturating_add(bytes.len())
}

fn no_tree(scanned: &Scanned<'_>, report: &mut Report) -> Option<Fault> {
    match parse(report.alloc, scanned) {
        Ok(_) => None,
        Err(fault) => {
            report.hold(is_at_token(fault, scanned), "no token has that fault");
            Some(Fault::Parse(fault))
        }
    }
}

/// Whether a token begins at the error, or the text ends there.
fn is_at_token(fault: ParseFault, scanned: &Scanned<'_>) -> bool {
    match fault {
        ParseFault::Syntax { at } | ParseFault::TooDeep { at } => {
            at == scanned.text().len() || (0..scanned.len()).any(|i| starts_at(scanned, i, at))
        }
        ParseFault::Memory => false,
    }
}

fn starts_at(scanned: &Scanned<'_>, i: usize, at: usize) -> bool {
    i < scanned.len() && scanned.item(i).start as usize == at
}

/// Whether what is at the place can have this error.
fn is_at(fault: ScanFault, text: &[u8]) -> bool {
    let is_utf8 = from_utf8(text).is_ok();
    match fault {
        ScanFault::NotUtf8 { at } => !is_utf8 && is_first_ill_formed(text, at),
        ScanFault::BadCharacter { at } => is_utf8 && at < text.len(),
        ScanFault::BadEscape { at } => is_utf8 && is_there(text, at, b"\\"),
        ScanFault::OpenString { at } => is_utf8 && is_there(text, at, b"\""),
        ScanFault::OpenTemplate { at } => {
            is_utf8 && (is_there(text, at, b"${") || is_there(text, at, b"%{"))
        }
        ScanFault::OpenHeredoc { at } => is_utf8 && is_there(text, at, b"<<"),
        ScanFault::OpenComment { at } => is_utf8 && is_there(text, at, b"/*"),
        ScanFault::TooLong | ScanFault::Memory => false,
    }
}

/// Whether the text is UTF-8 up to this place, and no longer with the next byte and its
/// continuation bytes.
fn is_first_ill_formed(text: &[u8], at: usize) -> bool {
    let Some((prefix, rest)) = text.split_at_checked(at) else {
        return false;
    };
    from_utf8(prefix).is_ok()
        && (1..5).all(|len| len > rest.len() || from_utf8(&rest[..len]).is_err())
}

fn is_there(text: &[u8], at: usize, opening: &[u8]) -> bool {
    match text.split_at_checked(at) {
        Some((_, rest)) => rest.starts_with(opening),
        None => false,
    }
}
