//! Template directives: `if` and `for` with their ends.

ghost use Rattle.std.specs.Prelude.{◌≡◌, ◌<◌, Some, IfSome};
ghost use Rattle.hcl_token.specs.TokenizedText.{kind_of};
ghost use Rattle.hcl_token.specs.declared.kind.Kind.TheVariants as k;

use crate::advice::Advice;
use crate::expected::Expected;
use crate::near::{first_from, is_kind, is_word};
use hcl_scan::{Kind, Scanned};

/// Returns the number of the first token in the directive that token `i` opens.
pub fn word_of(scanned: &Scanned<'_>, i: usize) -> usize {
    first_from(scanned, i.saturating_add(1), true)
}

/// Returns what is said of a directive that begins with token `found`, where none is open.
pub fn directive_advice(scanned: &Scanned<'_>, found: usize) -> Advice {
    let word = word_of(scanned, found);
    if is_word(scanned, word, b"else") || is_end_word(scanned, word) {
        Advice::DirectiveAlone
    } else {
        Advice::DirectiveWord
    }
}

/// Returns the word that was expected after the opening of a directive, where another one is open.
pub fn end_word(scanned: &Scanned<'_>, from: usize) -> Expected {
    match open_directive(scanned, 0, from.saturating_sub(1)) {
        Some(token) if is_word(scanned, word_of(scanned, token), b"for") => Expected::Endfor,
        _ => Expected::Endif,
    }
}

fn is_end_word(scanned: &Scanned<'_>, i: usize) -> bool {
    is_word(scanned, i, b"endif") || is_word(scanned, i, b"endfor")
}

fn is_begin_word(scanned: &Scanned<'_>, i: usize) -> bool {
    is_word(scanned, i, b"if") || is_word(scanned, i, b"for")
}

/// Returns the number of the last directive `if` or `for` that has no end between these tokens.
pub fn open_directive(scanned: &Scanned<'_>, from: usize, until: usize) -> Option<usize>
    ensures kind { IfSome result (λ i. kind_of scanned.now.pairs i ≡ Some k.DirectiveOpen) }
    ensures before { IfSome result (λ i. i < until) }
{
    let mut ends = 0usize;
    for i in (from..until).rev() {
        if is_kind(scanned, i, Kind::DirectiveOpen) {
            let word = word_of(scanned, i);
            if is_end_word(scanned, word) {
                ends = ends.saturating_add(1);
            } else if is_begin_word(scanned, word) {
                if ends == 0 {
                    return Some(i);
                }
                ends -= 1;
            }
        }
    }
    None
}

/// Whether token `found` is the `if` of `else if`, or a word for it.
pub fn is_else_if(scanned: &Scanned<'_>, found: usize) -> bool {
    is_word(scanned, found, b"elseif")
        || is_word(scanned, found, b"elsif")
        || is_word(scanned, found, b"elif")
        || (found > 0 && is_word(scanned, found, b"if") && is_word(scanned, found - 1, b"else"))
}
