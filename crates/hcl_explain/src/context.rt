//! In which construct a place is, and how far that has been read.

use crate::near::{
    ends_line, ends_value, first_from, is_keyword, is_kind, is_word, kind_at, last_before,
};
use crate::openings::{closes, opens};
use hcl_scan::{Kind, Scanned};

/// A construct, by its innermost opening that is not closed.
#[derive(Clone, Copy)]
pub enum Context {
    /// A body: of the file, if there is no opening; else of a block.
    File,
    Block,
    /// The braces of a block on one line.
    OneLineBlock,
    /// A label of a block.
    Label,
    Object,
    ObjectFor,
    Tuple,
    TupleFor,
    Index,
    Arguments,
    Parens,
    Interpolation,
    Directive,
    /// A quoted template or a heredoc.
    Template,
}

/// The last token of a construct that says what part of it a place is in.
#[derive(Clone, Copy)]
pub enum Sign {
    /// There is none but the opening.
    Start,
    Newline,
    Comma,
    Equal,
    /// `:`, but not of a conditional.
    Colon,
    Arrow,
    Ellipsis,
    /// `?` whose `:` is missing.
    Question,
    For,
    In,
    If,
    /// It is none.
    Other,
}

/// Whether line ends are dropped in the construct.
pub fn drops_lines(context: Context) -> bool {
    !matches!(
        context,
        Context::File
            | Context::Block
            | Context::OneLineBlock
            | Context::Label
            | Context::Object
            | Context::Template
    )
}

/// Whether `for`, `in` and `if` have a meaning in the construct.
pub fn has_keywords(context: Context) -> bool {
    matches!(
        context,
        Context::TupleFor | Context::ObjectFor | Context::Directive
    )
}

/// Returns the construct of this opening.
pub fn context_of(scanned: &Scanned<'_>, open: Option<usize>) -> Context {
    match open {
        Some(open) => match kind_at(scanned, open) {
            Some(kind) => context_in(scanned, open, kind),
            None => Context::File,
        },
        None => Context::File,
    }
}

/// Returns the construct of this opening, which has this kind.
fn context_in(scanned: &Scanned<'_>, open: usize, kind: Kind) -> Context {
    match kind {
        Kind::OpenBrace => in_braces(scanned, open),
        Kind::OpenBracket => in_brackets(scanned, open),
        Kind::OpenParen => {
            if follows_value(scanned, open) {
                Context::Arguments
            } else {
                Context::Parens
            }
        }
        Kind::InterpOpen => Context::Interpolation,
        Kind::DirectiveOpen => Context::Directive,
        _ => {
            if follows_value(scanned, open) {
                Context::Label
            } else {
                Context::Template
            }
        }
    }
}

/// Returns the construct of this `{`.
fn in_braces(scanned: &Scanned<'_>, open: usize) -> Context {
    if follows_value(scanned, open) {
        match kind_at(scanned, first_from(scanned, open.saturating_add(1), false)) {
            Some(kind) if !ends_line(kind) => Context::OneLineBlock,
            _ => Context::Block,
        }
    } else if is_for(scanned, open) {
        Context::ObjectFor
    } else {
        Context::Object
    }
}

/// Returns the construct of this `[`.
fn in_brackets(scanned: &Scanned<'_>, open: usize) -> Context {
    if follows_value(scanned, open) {
        Context::Index
    } else if is_for(scanned, open) {
        Context::TupleFor
    } else {
        Context::Tuple
    }
}

/// Whether `for` follows this bracket.
fn is_for(scanned: &Scanned<'_>, open: usize) -> bool {
    let next = first_from(scanned, open.saturating_add(1), true);
    is_word(scanned, next, b"for")
}

/// Whether a value, or the name or a label of a block, is right before token `i`.
fn follows_value(scanned: &Scanned<'_>, i: usize) -> bool {
    match last_before(scanned, i, false) {
        Some(k) => ends_value(scanned, k) && !is_keyword(scanned, k),
        None => false,
    }
}

/// Returns the last sign of a construct before token `until`. It is one pass back over its tokens,
/// of which token `from` is the first.
pub fn last_sign(scanned: &Scanned<'_>, context: Context, from: usize, until: usize) -> Sign {
    let mut closed = 0usize;
    let mut colons = 0usize;
    for i in (from..until).rev() {
        match kind_at(scanned, i) {
            Some(kind) => {
                if opens(kind) {
                    closed = closed.saturating_sub(1);
                } else if closes(kind) {
                    closed = closed.saturating_add(1);
                } else if closed == 0 {
                    match sign_of(scanned, context, i, kind) {
                        Sign::Other => {}
                        Sign::Colon => colons = colons.saturating_add(1),
                        Sign::Question if colons > 0 => colons = colons.saturating_sub(1),
                        sign => return if colons > 0 { Sign::Colon } else { sign },
                    }
                }
            }
            None => {}
        }
    }
    if colons > 0 { Sign::Colon } else { Sign::Start }
}

/// Returns the sign that token `i`, of this kind, is.
fn sign_of(scanned: &Scanned<'_>, context: Context, i: usize, kind: Kind) -> Sign {
    match kind {
        Kind::LineEnd if !drops_lines(context) => Sign::Newline,
        Kind::Comma => Sign::Comma,
        Kind::Equal => Sign::Equal,
        Kind::Colon => Sign::Colon,
        Kind::FatArrow => Sign::Arrow,
        Kind::Ellipsis => Sign::Ellipsis,
        Kind::Question => Sign::Question,
        Kind::Identifier if has_keywords(context) => keyword_of(scanned, i),
        _ => Sign::Other,
    }
}

/// Returns the sign that token `i`, a word, is in a `for` or a directive.
pub fn keyword_of(scanned: &Scanned<'_>, i: usize) -> Sign {
    if is_name_of_for(scanned, i) {
        Sign::Other
    } else if is_word(scanned, i, b"for") {
        Sign::For
    } else if is_word(scanned, i, b"in") {
        Sign::In
    } else if is_word(scanned, i, b"if") {
        Sign::If
    } else {
        Sign::Other
    }
}

/// Whether token `i` is where a `for` has a name: these may be any words.
fn is_name_of_for(scanned: &Scanned<'_>, i: usize) -> bool {
    match last_before(scanned, i, true) {
        Some(last) => is_kind(scanned, last, Kind::Comma) || is_word(scanned, last, b"for"),
        None => false,
    }
}
