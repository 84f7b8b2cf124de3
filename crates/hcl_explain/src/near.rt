//! The tokens next to a token.

ghost use Rattle.std.specs.Prelude.{◌≡◌, Some, true};
ghost use Rattle.hcl_token.specs.TokenizedText.{kind_of, spelling_of};
ghost use Rattle.hcl_token.specs.declared.kind.Kind.TheVariants.{Star};
ghost use Rattle.hcl_explain.specs.Sequences as spec;

use hcl_grammar::operators::operator_between;
use hcl_scan::{Kind, Scanned};

/// Returns the kind of token `i`, if there is one.
pub fn kind_at(scanned: &Scanned<'_>, i: usize) -> Option<Kind>
    ensures { result ≡ kind_of scanned.now.pairs i }
{
    if i < scanned.len() {
        Some(scanned.kind(i))
    } else {
        None
    }
}

/// Whether token `i` has this kind.
pub fn is_kind(scanned: &Scanned<'_>, i: usize, kind: Kind) -> bool
    ensures { result ≡ true → kind_of scanned.now.pairs i ≡ Some kind }
{
    match kind_at(scanned, i) {
        Some(other) => other == kind,
        None => false,
    }
}

/// Whether token `i` is this word.
pub fn is_word(scanned: &Scanned<'_>, i: usize, word: &[u8]) -> bool
    ensures { result
        ≡ spec.is_word (kind_of scanned.now.pairs i) (spelling_of scanned.now.pairs i) word.now }
{
    match kind_at(scanned, i) {
        Some(Kind::Identifier) => scanned.spelling(i) == word,
        _ => false,
    }
}

/// Whether token `i` is one of the words of a `for`.
pub fn is_keyword(scanned: &Scanned<'_>, i: usize) -> bool
    ensures { result ≡ spec.is_keyword scanned.now.pairs i }
{
    is_word(scanned, i, b"for") || is_word(scanned, i, b"in") || is_word(scanned, i, b"if")
}

/// Whether token `i` follows token `i - 1` with no gap.
pub fn is_adjacent(scanned: &Scanned<'_>, i: usize) -> bool {
    i < scanned.len() && scanned.gap(i).is_empty()
}

/// Whether a token of this kind follows token `i` with no gap.
pub fn is_next(scanned: &Scanned<'_>, kind: Kind, i: usize) -> bool {
    let next = i.saturating_add(1);
    is_kind(scanned, next, kind) && is_adjacent(scanned, next)
}

/// Whether token `found` follows token `last`, of this kind, with no gap.
pub fn is_after(scanned: &Scanned<'_>, kind: Kind, last: usize, found: usize) -> bool {
    is_kind(scanned, last, kind) && is_adjacent(scanned, found)
}

/// Whether the kind is one that ends a line.
pub fn ends_line(kind: Kind) -> bool {
    matches!(kind, Kind::LineEnd | Kind::LineComment)
}

/// Whether the kind is an operator between values.
pub fn is_operator(kind: Kind) -> bool {
    matches!(kind, Kind::Question | Kind::Colon) || operator_between(kind).is_some()
}

/// Whether the grammar drops a token of the kind, where it drops line ends or not.
fn is_skipped(kind: Kind, lines: bool) -> bool
    ensures { result ≡ spec.is_skipped (Some kind) lines }
{
    match kind {
        Kind::InlineComment => true,
        Kind::LineEnd | Kind::LineComment => lines,
        _ => false,
    }
}

/// Returns the number of the last token before number `i`, without those that are dropped.
pub fn last_before(scanned: &Scanned<'_>, i: usize, lines: bool) -> Option<usize>
    ensures { result ≡ spec.last_before scanned.now.pairs lines i }
{
    let mut k = i;
    while k > 0 {
        k -= 1;
        if let Some(kind) = kind_at(scanned, k) {
            if !is_skipped(kind, lines) {
                return Some(k);
            }
        }
    }
    None
}

/// Returns the number of the first token from number `i` on, without those that are dropped; how
/// many tokens there are, if there is none.
pub fn first_from(scanned: &Scanned<'_>, i: usize, lines: bool) -> usize {
    for k in i..scanned.len() {
        if let Some(kind) = kind_at(scanned, k) {
            if !is_skipped(kind, lines) {
                return k;
            }
        }
    }
    scanned.len()
}

/// Whether token `i` is the first of its line or of the text.
pub fn is_line_start(scanned: &Scanned<'_>, i: usize) -> bool {
    match last_before(scanned, i, false) {
        Some(k) => match kind_at(scanned, k) {
            Some(kind) => ends_line(kind) || kind == Kind::Mark,
            None => false,
        },
        None => true,
    }
}

/// Whether token `i` ends a line or the text.
pub fn is_line_end(scanned: &Scanned<'_>, i: usize) -> bool {
    match kind_at(scanned, i) {
        Some(kind) => ends_line(kind),
        None => true,
    }
}

/// Returns the number of the first token from number `from` on that is no word.
pub fn after_words(scanned: &Scanned<'_>, from: usize) -> usize {
    for i in from..scanned.len() {
        match scanned.kind(i) {
            Kind::Identifier => {}
            _ => return i,
        }
    }
    scanned.len()
}

/// Whether a value can end with token `i`.
pub fn ends_value(scanned: &Scanned<'_>, i: usize) -> bool
    ensures { result ≡ spec.ends_value scanned.now.pairs i }
{
    match kind_at(scanned, i) {
        Some(Kind::Star) => i > 0 && is_before_splat(scanned, i - 1),
        Some(kind) => matches!(
            kind,
            Kind::Identifier
                | Kind::Number
                | Kind::DotIndex
                | Kind::CloseBracket
                | Kind::CloseParen
                | Kind::CloseBrace
                | Kind::QuoteClose
                | Kind::HereClose
        ),
        None => false,
    }
}

/// Whether a `*` after token `i` is a splat.
fn is_before_splat(scanned: &Scanned<'_>, i: usize) -> bool
    ensures { result ≡ spec.is_splat (kind_of scanned.now.pairs i) (Some Star) }
{
    matches!(kind_at(scanned, i), Some(Kind::Dot | Kind::OpenBracket))
}
