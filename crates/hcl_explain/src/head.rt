//! A line of a body that has no `=` or no `{` yet: a name, and words or strings after it.

use crate::advice::Advice;
use crate::context::Context;
use crate::near::{
    first_from, is_kind, is_line_end, is_line_start, is_next, is_operator, is_word, last_before,
};
use crate::openings::{closing_after, innermost_open};
use hcl_scan::{Kind, Scanned};

/// A mistake in such a line, by what is written in its place.
#[derive(Clone, Copy)]
pub enum HeadAdvice {
    /// A name that begins with a digit.
    NameDigit,
    /// A name in quotes.
    NameQuoted,
    /// A name in quotes in a block, which may be meant as a map.
    MapEqual,
    /// A name that begins with `$`.
    NameDollar,
    /// A name with a space.
    NameSpace,
    /// A value after a name, with no `=` between.
    NoEqual,
    /// A name and one word or string, which may be a value or a label.
    EqualOrBrace,
    /// `=` before the `{` of a block.
    BlockEqual,
    /// The `{` of a block, in a line after its name.
    BraceOnNextLine,
    /// A word that declares a name in other languages.
    Local,
    /// `+=` and the like after a name.
    SetOnce,
}

impl HeadAdvice {
    /// Returns the sentence.
    pub fn sentence(self) -> &'static str {
        match self {
            HeadAdvice::NameDigit => "a name can't begin with a digit",
            HeadAdvice::NameQuoted => "the name of an attribute or of a block has no quotes",
            HeadAdvice::MapEqual => {
                "a name in a block has no quotes; a map has an `=` before its `{`"
            }
            HeadAdvice::NameDollar => "the name of an attribute or of a block has no `$`",
            HeadAdvice::NameSpace => "a name can't have a space",
            HeadAdvice::NoEqual => "an attribute is written `NAME = VALUE`",
            HeadAdvice::EqualOrBrace => "expected `=` after the name or `{` after the label",
            HeadAdvice::BlockEqual => "a block has no `=` before its `{`",
            HeadAdvice::BraceOnNextLine => "the `{` of a block has to be on the line of its name",
            HeadAdvice::Local => "a value gets its name in a `locals` block, as `NAME = VALUE`",
            HeadAdvice::SetOnce => "an attribute is set once, with `=`",
        }
    }
}

/// Whether a name, with which the line begins, and one word or string are before token `i`.
fn is_after_first_label(scanned: &Scanned<'_>, i: usize) -> bool {
    match last_before(scanned, i, false) {
        Some(last) => is_after_name(scanned, label_start(scanned, last)),
        None => false,
    }
}

/// Returns the number of the first token of the word or string that ends with token `last`.
fn label_start(scanned: &Scanned<'_>, last: usize) -> usize {
    let before = last.saturating_sub(1);
    if !is_kind(scanned, last, Kind::QuoteClose) {
        last
    } else if is_kind(scanned, before, Kind::QuoteLit) {
        before.saturating_sub(1)
    } else {
        before
    }
}

/// Whether the token before token `i` is a name with which a line begins.
pub fn is_after_name(scanned: &Scanned<'_>, i: usize) -> bool {
    match last_before(scanned, i, false) {
        Some(last) => is_kind(scanned, last, Kind::Identifier) && is_line_start(scanned, last),
        None => false,
    }
}

/// Returns the advice for token `found`, of this kind, which can't follow in such a line.
pub fn in_head(
    scanned: &Scanned<'_>,
    context: Context,
    kind: Kind,
    found: usize,
) -> Option<Advice> {
    match kind {
        Kind::LineEnd | Kind::LineComment => at_head_end(scanned, found),
        Kind::Equal => at_equal(scanned, context, found),
        _ if is_set_again(scanned, kind, found) => Some(Advice::Head(HeadAdvice::SetOnce)),
        _ if is_value_after(scanned, kind, found) => Some(Advice::Head(HeadAdvice::NoEqual)),
        _ => None,
    }
}

/// Whether an operator and a `=` right after it are after the name with which the line begins.
fn is_set_again(scanned: &Scanned<'_>, kind: Kind, found: usize) -> bool {
    matches!(
        kind,
        Kind::Plus
            | Kind::Minus
            | Kind::Star
            | Kind::Slash
            | Kind::Percent
            | Kind::Question
            | Kind::And
            | Kind::Or
    ) && is_next(scanned, Kind::Equal, found)
        && is_after_name(scanned, found)
}

/// Returns the advice where token `found`, or the end of the text, ends such a line.
pub fn at_head_end(scanned: &Scanned<'_>, found: usize) -> Option<Advice> {
    if is_brace_next(scanned, found) {
        Some(Advice::Head(HeadAdvice::BraceOnNextLine))
    } else if is_after_first_label(scanned, found) {
        Some(Advice::Head(HeadAdvice::EqualOrBrace))
    } else {
        None
    }
}

/// Whether the first token after line ends, from number `i` on, is a `{`.
fn is_brace_next(scanned: &Scanned<'_>, i: usize) -> bool {
    is_kind(scanned, first_from(scanned, i, true), Kind::OpenBrace)
}

/// Returns the advice for the `=` after a name and words or strings. With nothing but words before
/// it, a `{` after it is that of a block at top level, and in a block that of an object.
fn at_equal(scanned: &Scanned<'_>, context: Context, found: usize) -> Option<Advice> {
    let next = first_from(scanned, found.saturating_add(1), false);
    let is_before_brace = is_kind(scanned, next, Kind::OpenBrace);
    let is_name = are_words_before(scanned, found);
    if is_before_brace && (!is_name || matches!(context, Context::File)) {
        Some(Advice::Head(HeadAdvice::BlockEqual))
    } else if is_name {
        after_words_before(scanned, context, found)
    } else {
        None
    }
}

/// Returns the advice for the `=` after words: none if these are the head of a block of Terraform.
fn after_words_before(scanned: &Scanned<'_>, context: Context, found: usize) -> Option<Advice> {
    let first = first_word(scanned, found);
    if !matches!(context, Context::File) {
        Some(Advice::Head(HeadAdvice::NameSpace))
    } else if is_block_type(scanned, first) {
        None
    } else if is_declaring(scanned, first) {
        Some(Advice::Head(HeadAdvice::Local))
    } else {
        Some(Advice::Head(HeadAdvice::NameSpace))
    }
}

/// Whether token `i` is the type of a block that Terraform has at top level, with labels.
fn is_block_type(scanned: &Scanned<'_>, i: usize) -> bool {
    is_word(scanned, i, b"variable")
        || is_word(scanned, i, b"output")
        || is_word(scanned, i, b"module")
        || is_word(scanned, i, b"provider")
        || is_word(scanned, i, b"resource")
        || is_word(scanned, i, b"data")
        || is_word(scanned, i, b"check")
        || is_word(scanned, i, b"ephemeral")
}

/// Whether token `i` is a word that declares a name in other languages.
fn is_declaring(scanned: &Scanned<'_>, i: usize) -> bool {
    is_word(scanned, i, b"local")
        || is_word(scanned, i, b"let")
        || is_word(scanned, i, b"const")
        || is_word(scanned, i, b"var")
}

/// Returns the number of the first of the words before token `i`.
fn first_word(scanned: &Scanned<'_>, i: usize) -> usize {
    for k in (0..i).rev() {
        if !is_kind(scanned, k, Kind::Identifier) {
            return k.saturating_add(1);
        }
    }
    0
}

/// Whether the line of token `i` has nothing but words before it.
fn are_words_before(scanned: &Scanned<'_>, i: usize) -> bool {
    for k in (0..i).rev() {
        if !is_kind(scanned, k, Kind::Identifier) {
            return is_line_start(scanned, k.saturating_add(1));
        }
    }
    true
}

/// Whether the word or string after a name begins a value, which token `found` continues: a `(`, or
/// an operator in a line without the `{` of a block.
fn is_value_after(scanned: &Scanned<'_>, kind: Kind, found: usize) -> bool {
    let continues = match kind {
        Kind::OpenParen => true,
        Kind::Dot | Kind::DotIndex | Kind::OpenBracket => !has_brace(scanned, found),
        _ => is_operator(kind) && !has_brace(scanned, found),
    };
    continues && is_after_first_label(scanned, found)
}

/// Whether a `{` is in the line of token `i`, from there on.
fn has_brace(scanned: &Scanned<'_>, i: usize) -> bool {
    for k in i..scanned.len() {
        match scanned.kind(k) {
            Kind::OpenBrace => return true,
            Kind::LineEnd | Kind::LineComment => return false,
            _ => {}
        }
    }
    false
}

/// Returns the advice for a string with which a line of a body begins.
pub fn quoted_name(scanned: &Scanned<'_>, found: usize) -> HeadAdvice {
    if is_in_map_like_block(scanned, found) && is_before_sign(scanned, found) {
        HeadAdvice::MapEqual
    } else {
        HeadAdvice::NameQuoted
    }
}

/// Whether token `found` is in a block that has no labels and is no `locals`.
fn is_in_map_like_block(scanned: &Scanned<'_>, found: usize) -> bool {
    if found >= scanned.len() {
        return false;
    }
    match innermost_open(scanned, found) {
        Some(open) => {
            is_after_name(scanned, open) && !is_word(scanned, open.saturating_sub(1), b"locals")
        }
        None => false,
    }
}

/// Whether `=` or `:` follows the string that begins with token `found`.
fn is_before_sign(scanned: &Scanned<'_>, found: usize) -> bool {
    let next = after_string(scanned, found);
    is_kind(scanned, next, Kind::Equal) || is_kind(scanned, next, Kind::Colon)
}

/// Returns the number of the token after the string that begins with token `found`.
pub fn after_string(scanned: &Scanned<'_>, found: usize) -> usize {
    let end = closing_after(scanned, found.saturating_add(1));
    first_from(scanned, end.saturating_add(1), false)
}

/// Returns the advice for a template in a string after the name of a block or an attribute, whose
/// text begins with token `from`.
pub fn label_advice(scanned: &Scanned<'_>, from: usize) -> Advice {
    let next = first_from(
        scanned,
        closing_after(scanned, from).saturating_add(1),
        false,
    );
    if is_line_end(scanned, next)
        && !is_brace_next(scanned, next)
        && is_after_name(scanned, from.saturating_sub(1))
    {
        Advice::Head(HeadAdvice::NoEqual)
    } else {
        Advice::LabelTemplate
    }
}
