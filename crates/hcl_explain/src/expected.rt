//! What the grammar has at a place.

use crate::context::{Context, Sign, drops_lines, has_keywords, keyword_of, last_sign};
use crate::near::{ends_value, is_kind, is_line_start, kind_at, last_before};
use hcl_scan::{Kind, Scanned};

/// What was expected at a place.
#[derive(Clone, Copy)]
pub enum Expected {
    /// An attribute or a block, at the start of a line of the file.
    Member,
    /// One of these, or the end of the block.
    MemberOrBrace,
    /// After the name of an attribute or of a block.
    EqualOrBlock,
    /// After the name of a block and a label.
    LabelOrBrace,
    /// In the braces of a block on one line, in order.
    OneLineMember,
    OneLineEqual,
    OneLineEnd,
    Value,
    ValueEnd,
    BlockEnd,
    /// The `:` of a conditional.
    Else,
    /// After a `.`.
    AttributeName,
    /// After a `::`, and after the name that follows it.
    FunctionName,
    FunctionCall,
    ItemOrBracket,
    CommaOrBracket,
    ArgumentOrParen,
    CommaOrParen,
    Bracket,
    Paren,
    Brace,
    KeyOrBrace,
    KeySign,
    ElementEnd,
    /// The parts of a `for`, in order.
    ForName,
    ForComma,
    ForIn,
    ForColon,
    ForArrow,
    ForBracket,
    ForEllipsis,
    ForBrace,
    /// The `}` of `${` or of `%{`.
    SequenceEnd,
    /// The word of the directive that ends an `if` or a `for`.
    Endif,
    Endfor,
}

impl Expected {
    /// Returns its name, for a sentence.
    pub fn name(self) -> &'static str {
        match self {
            Expected::Member => "an attribute or a block",
            Expected::MemberOrBrace => "an attribute, a block or `}`",
            Expected::EqualOrBlock => "`=` or a block",
            Expected::LabelOrBrace => "a label or `{`",
            Expected::OneLineMember => "an attribute, a newline or `}`",
            Expected::OneLineEqual => "`=` in this block on one line",
            Expected::OneLineEnd => "`}` after the one attribute of a block on one line",
            Expected::Value => "a value",
            Expected::ValueEnd => "a newline after this attribute's value",
            Expected::BlockEnd => "a newline after this block's `}`",
            Expected::Else => "`:` for the `?` before it",
            Expected::AttributeName => "a name or `*` after `.`",
            Expected::FunctionName => "a name after `::`",
            Expected::FunctionCall => "`(` after the name of this function",
            Expected::ItemOrBracket => "a value or `]`",
            Expected::CommaOrBracket => "`,` or `]`",
            Expected::ArgumentOrParen => "a value or `)`",
            Expected::CommaOrParen => "`,` or `)`",
            Expected::Bracket => "`]`",
            Expected::Paren => "`)`",
            Expected::Brace => "`}`",
            Expected::KeyOrBrace => "a key or `}`",
            Expected::KeySign => "`=` or `:` after this key",
            Expected::ElementEnd => "a newline, `,` or `}`",
            Expected::ForName => "a name in this `for`",
            Expected::ForComma => "`,` or `in` in this `for`",
            Expected::ForIn => "`in` in this `for`",
            Expected::ForColon => "`:` in this `for`",
            Expected::ForArrow => "`=>` after the key in this `for`",
            Expected::ForBracket => "`if` or `]`",
            Expected::ForEllipsis => "`...`, `if` or `}`",
            Expected::ForBrace => "`if` or `}`",
            Expected::SequenceEnd => "`}` of this template sequence",
            Expected::Endif => "`endif` of the `%{ if }` before it",
            Expected::Endfor => "`endfor` of the `%{ for }` before it",
        }
    }
}

/// The part of a construct that is before the token which was found.
#[derive(Clone, Copy)]
struct Part {
    context: Context,
    sign: Sign,
    /// Whether a value may end with the last token.
    has_ended: bool,
    /// The number of the last token.
    last: usize,
}

/// Returns what was expected in this construct, whose tokens begin with number `from`. `until` is
/// the number of the token that was found.
pub fn expected_after(
    scanned: &Scanned<'_>,
    context: Context,
    from: usize,
    until: usize,
) -> Expected {
    let last = last_before(scanned, until, drops_lines(context));
    match last {
        Some(last) if last >= from => {
            if is_kind(scanned, last, Kind::Dot) {
                return Expected::AttributeName;
            }
            if is_kind(scanned, last, Kind::DoubleColon) {
                return Expected::FunctionName;
            }
            if last > 0 && is_kind(scanned, last - 1, Kind::DoubleColon) {
                return Expected::FunctionCall;
            }
            let part = Part {
                context,
                sign: last_sign(scanned, context, from, until),
                has_ended: ends_value(scanned, last) && !is_sign(scanned, context, last),
                last,
            };
            expected_in(scanned, part)
        }
        _ => at_start(context),
    }
}

/// Whether token `i` is a word that has a meaning in the construct.
fn is_sign(scanned: &Scanned<'_>, context: Context, i: usize) -> bool {
    has_keywords(context) && !matches!(keyword_of(scanned, i), Sign::Other)
}

/// Returns what was expected right after the opening of a construct.
fn at_start(context: Context) -> Expected {
    match context {
        Context::File => Expected::Member,
        Context::Block => Expected::MemberOrBrace,
        Context::OneLineBlock => Expected::OneLineMember,
        Context::Object | Context::ObjectFor => Expected::KeyOrBrace,
        Context::Tuple | Context::TupleFor => Expected::ItemOrBracket,
        Context::Arguments => Expected::ArgumentOrParen,
        Context::Directive => Expected::Endif,
        _ => Expected::Value,
    }
}

/// Returns what was expected after this part of a construct.
fn expected_in(scanned: &Scanned<'_>, part: Part) -> Expected {
    match part.context {
        _ if part.has_ended && matches!(part.sign, Sign::Question) => Expected::Else,
        Context::File | Context::Block | Context::OneLineBlock => in_body(scanned, part),
        Context::Object => in_object(scanned, part),
        Context::TupleFor | Context::ObjectFor | Context::Directive => in_for(part),
        _ => in_values(part),
    }
}

fn in_body(scanned: &Scanned<'_>, part: Part) -> Expected {
    match part.sign {
        Sign::Start | Sign::Newline => in_head(scanned, part),
        _ if !part.has_ended => Expected::Value,
        _ => match part.context {
            Context::OneLineBlock => Expected::OneLineEnd,
            _ => Expected::ValueEnd,
        },
    }
}

/// Returns what was expected in a line of a body that has no `=` yet.
fn in_head(scanned: &Scanned<'_>, part: Part) -> Expected {
    match kind_at(scanned, part.last) {
        Some(Kind::LineEnd) | Some(Kind::LineComment) | Some(Kind::Mark) => at_start(part.context),
        Some(Kind::CloseBrace) => Expected::BlockEnd,
        _ => match part.context {
            Context::OneLineBlock => Expected::OneLineEqual,
            _ => {
                if is_line_start(scanned, part.last) {
                    Expected::EqualOrBlock
                } else {
                    Expected::LabelOrBrace
                }
            }
        },
    }
}

fn in_object(scanned: &Scanned<'_>, part: Part) -> Expected {
    match part.sign {
        Sign::Start | Sign::Newline | Sign::Comma => match kind_at(scanned, part.last) {
            Some(Kind::LineEnd) | Some(Kind::LineComment) | Some(Kind::Comma) => {
                Expected::KeyOrBrace
            }
            _ if part.has_ended => Expected::KeySign,
            _ => Expected::Value,
        },
        _ if part.has_ended => Expected::ElementEnd,
        _ => Expected::Value,
    }
}

/// Returns what was expected in brackets of values.
fn in_values(part: Part) -> Expected {
    match part.sign {
        Sign::Ellipsis => Expected::Paren,
        Sign::Comma if !part.has_ended => at_start(part.context),
        _ if !part.has_ended => Expected::Value,
        _ => match part.context {
            Context::Tuple => Expected::CommaOrBracket,
            Context::Arguments => Expected::CommaOrParen,
            Context::Index => Expected::Bracket,
            Context::Parens => Expected::Paren,
            _ => Expected::SequenceEnd,
        },
    }
}

/// Returns what was expected in a `for`, or in a directive.
fn in_for(part: Part) -> Expected {
    match part.sign {
        Sign::For if part.has_ended => Expected::ForComma,
        Sign::For => Expected::ForName,
        Sign::Comma if part.has_ended => Expected::ForIn,
        Sign::Comma => Expected::ForName,
        Sign::Ellipsis => Expected::ForBrace,
        _ if !part.has_ended => Expected::Value,
        Sign::If => match part.context {
            Context::TupleFor => Expected::Bracket,
            Context::ObjectFor => Expected::Brace,
            _ => Expected::SequenceEnd,
        },
        Sign::In => match part.context {
            Context::Directive => Expected::SequenceEnd,
            _ => Expected::ForColon,
        },
        Sign::Colon => match part.context {
            Context::ObjectFor => Expected::ForArrow,
            _ => Expected::ForBracket,
        },
        Sign::Arrow => Expected::ForEllipsis,
        _ => Expected::SequenceEnd,
    }
}
