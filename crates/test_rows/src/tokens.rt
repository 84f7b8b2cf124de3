//! Tokens of texts, places, and what joins.

use crate::actual::Answer;
use crate::journals::with_byte;
use crate::rescan;
use crate::row::Row;
use hcl_scan::laws::{
    gaps_of, no_tokenization_with_fault, one_fault, one_tokenization, other_gaps,
    tokenization_follows_modes, writes_back,
};
use hcl_scan::{Kind, ScanFault, Scanned, scan};
use hcl_token::{clusters, joins};
use std::fmt::Write;

pub fn answer(row: &Row, out: &mut Answer) {
    match row.word(0) {
        "joins" => {
            let (first, second) = (kind_of(row.word(1), out), kind_of(row.word(3), out));
            yes_or_no(joins(first, row.text(2), second, row.text(4)), out);
        }
        "clusters" => out.show(&clusters(row.word(1).as_bytes())),
        "fronts" => check_prefixes(row.text(1), out),
        "kept" | "again" | "same" => rescan::answer(row, out),
        "others" => others(row.text(1), row.text(2), out),
        "laws" => laws(out),
        "memory" => out.show(&ScanFault::Memory),
        _ => match scan(out.alloc, row.text(1)) {
            Ok(scanned) => write_tokens(row, &scanned, out),
            Err(fault) => out.refuse(&fault),
        },
    }
}

pub fn yes_or_no(yes: bool, out: &mut Answer) {
    out.put(if yes { "yes" } else { "no" });
}

fn write_tokens(row: &Row, scanned: &Scanned<'_>, out: &mut Answer) {
    match row.word(0) {
        "cut" => write_each_token(scanned, out),
        "gaps" => gaps(scanned, out),
        "places" => places(scanned, out),
        "count" => count(scanned, row.text(1), out),
        "token" => token(scanned, row.number(2), out),
        _ => joined(scanned, row.number(2), row.number(3), out),
    }
}

/// The tokens of a text, each with its kind.
pub fn write_each_token(scanned: &Scanned<'_>, out: &mut Answer) {
    for i in 0..scanned.len() {
        let kind = scanned.kind(i);
        let _ = write!(out, "{kind:?}(");
        out.put_bytes(scanned.spelling(i));
        out.put(") ");
    }
}

/// The gaps, the last one too.
fn gaps(scanned: &Scanned<'_>, out: &mut Answer) {
    for i in 0..scanned.len() {
        gap(scanned.gap(i), out);
    }
    gap(scanned.last_gap(), out);
}

fn gap(gap: &[u8], out: &mut Answer) {
    out.put("(");
    out.put_bytes(gap);
    out.put(")");
}

/// The line and the column of each token, on which all calls have to agree.
fn places(scanned: &Scanned<'_>, out: &mut Answer) {
    let mut places = scanned.places();
    let mut lines = scanned.lines();
    for i in 0..scanned.len() {
        let place = places.of(i);
        let (line, column) = (place.line, place.column);
        let _ = write!(out, "{line}:{column} ");
        out.hold(lines.of(i) == line, "another line");
    }
    if !scanned.is_empty() {
        let first = scanned.place_of(0);
        out.hold(places.of(0) == first, "another place of the first token");
        out.hold(lines.of(0) == first.line, "another line of the first token");
    }
}

/// How many tokens there are, of the whole text.
fn count(scanned: &Scanned<'_>, text: &[u8], out: &mut Answer) {
    out.show(&scanned.len());
    out.hold(scanned.text() == text, "another text");
    let is_said = scanned.is_empty() == (scanned.len() == 0);
    out.hold(is_said, "`is_empty` is wrong");
}

/// The place of a token, how many clusters it has, and its gap.
fn token(scanned: &Scanned<'_>, i: usize, out: &mut Answer) {
    if i >= scanned.len() {
        return out.put("no such token");
    }
    let item = scanned.item(i);
    let (kind, gap_at, start, stop) = (item.kind, item.gap_at, item.start, item.stop);
    let clusters = scanned.clusters(i);
    let _ = write!(
        out,
        "{kind:?} {gap_at} {start} {stop}, {clusters} clusters after "
    );
    gap(scanned.gap(i), out);
}

fn joined(scanned: &Scanned<'_>, i: usize, j: usize, out: &mut Answer) {
    if i >= scanned.len() || j >= scanned.len() {
        return out.put("no such token");
    }
    yes_or_no(scanned.joins(i, j), out);
}

/// Whether the text has tokens that make it up, or an error other than `Memory`.
fn has_tokens_or_fault(text: &[u8], out: &Answer) -> bool {
    match scan(out.alloc, text) {
        Ok(scanned) => is_whole(&scanned, text, Answer::new(out.alloc)),
        Err(fault) => fault != ScanFault::Memory,
    }
}

/// Whether gaps and tokens are the text.
fn is_whole(scanned: &Scanned<'_>, text: &[u8], whole: Answer) -> bool {
    let mut whole = whole;
    for i in 0..scanned.len() {
        whole.put_bytes(scanned.gap(i));
        whole.put_bytes(scanned.spelling(i));
    }
    whole.put_bytes(scanned.last_gap());
    whole.text() == text
}

/// Tests each prefix of the text, and writes the lengths of those that have neither.
fn check_prefixes(text: &[u8], out: &mut Answer) {
    for len in 0..=text.len() {
        if !has_tokens_or_fault(&text[..len], out) {
            let _ = write!(out, "{len} bytes, ");
        }
    }
    out.put("cuts and faults");
}

/// The text with each of these bytes at each place; where it has neither.
fn others(text: &[u8], bytes: &[u8], out: &mut Answer) {
    for at in 0..text.len() {
        for byte in bytes {
            let changed = with_byte(text, at, *byte, out);
            if !has_tokens_or_fault(&changed, out) {
                let _ = write!(out, "{byte} at {at}, ");
            }
        }
    }
    out.put("cuts and faults");
}

fn laws(out: &mut Answer) {
    one_tokenization();
    no_tokenization_with_fault();
    one_fault();
    writes_back();
    tokenization_follows_modes();
    gaps_of();
    other_gaps();
    out.put("hold");
}

/// The kinds that tokens join in, and some that they do not.
const KINDS: [Kind; 29] = [
    Kind::LineComment,
    Kind::InlineComment,
    Kind::Identifier,
    Kind::Number,
    Kind::DotIndex,
    Kind::Plus,
    Kind::Minus,
    Kind::Star,
    Kind::Slash,
    Kind::Percent,
    Kind::Bang,
    Kind::DoubleEqual,
    Kind::NotEqual,
    Kind::Less,
    Kind::Greater,
    Kind::LessEqual,
    Kind::GreaterEqual,
    Kind::Colon,
    Kind::DoubleColon,
    Kind::Equal,
    Kind::FatArrow,
    Kind::Dot,
    Kind::Ellipsis,
    Kind::QuoteOpen,
    Kind::SeqClose,
    Kind::InterpOpen,
    Kind::DirectiveOpen,
    Kind::QuoteLit,
    Kind::HereLit,
];

fn kind_of(name: &str, out: &mut Answer) -> Kind {
    for kind in KINDS {
        let mut written = Answer::new(out.alloc);
        let _ = write!(written, "{kind:?}");
        if written.text() == name.as_bytes() {
            return kind;
        }
    }
    out.hold(false, "no such kind");
    Kind::Mark
}
