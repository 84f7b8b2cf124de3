//! What to write in place of mistakes that are often made.

mod line_starts;
mod shell;
pub mod types;
mod value_ends;
mod values;
mod words;

use crate::advice::line_starts::at_line_start;
use crate::advice::shell::is_of_shell;
use crate::advice::types::in_type;
use crate::advice::values::in_value;
use crate::context::Context;
use crate::directives::is_else_if;
use crate::expected::Expected;
use crate::head::{HeadAdvice, at_head_end, in_head, quoted_name};
use crate::near::{after_words, is_adjacent, is_kind, is_line_start, is_next, is_word, kind_at};
use hcl_scan::{Kind, Scanned};

/// A mistake, by what is written in its place.
#[derive(Clone, Copy)]
pub enum Advice {
    /// A line that git writes into a file where a merge has a conflict.
    ConflictMarker,
    /// An operator at the start of a line.
    OperatorFirst,
    /// A mistake before the `=` of an attribute or the `{` of a block.
    Head(HeadAdvice),
    /// A text that begins with `{`, or with `[` and `{`.
    Json,
    /// A space in a key.
    KeySpace,
    /// A comma after the value of an attribute.
    AttributeComma,
    /// `and`, `or` and `not`.
    And,
    Or,
    Not,
    /// `if`, `then` or `else` in a value.
    Conditional,
    /// `then` after a condition in a `for` or a directive.
    NoThen,
    /// A name right after a number, as in `0x1F` or `1_000`.
    Digits,
    /// Text after the marker of a heredoc.
    HeredocLine,
    /// A `${` or `%{` in a label.
    LabelTemplate,
    /// `else`, `endif` or `endfor` with no `if` or `for` before it.
    DirectiveAlone,
    /// A `%{` without one of the words of directives.
    DirectiveWord,
    /// `else if`, `elseif` or `elif` in a directive.
    ElseIf,
    /// `${` and a name with `:` after it, as in a shell.
    OtherLanguage,
    /// The marker of a heredoc in quotes, after a space, or after `<<~`.
    HeredocQuotes,
    HeredocSpace,
    HeredocTilde,
    /// A heredoc that begins with one `<`.
    HeredocSign,
    /// A `${` where a key of an object begins.
    ComputedKey,
    /// A quote with a backslash outside of a string.
    EscapedQuote,
    /// Text without quotes, as a path.
    BareText,
    /// A number that begins with its `.`.
    NumberDot,
    /// `=`, `<>`, `=!`, `=<` and `=>` for the operators that compare.
    Equal,
    NotEqual,
    AtMost,
    AtLeast,
    /// `if` before the `:` of a `for`.
    ForIf,
    /// A quote in a string.
    QuoteInString,
    /// `*/` where no comment is open.
    CommentEnd,
    /// A comment of another language.
    CommentSign,
    /// What can't be in a `${`, or in a `%{`.
    OpenHere,
    DirectiveHere,
    /// `|` and `|>` before a function.
    Pipe,
    /// Types with `|` between them.
    OneType,
    /// A type in `<` and `>`.
    ElementType,
    /// A type with `?` after it.
    OptionalType,
    /// A key with a `:`.
    KeyColon,
    /// A function after a `.`.
    Method,
    /// `\` at the end of a line: in brackets, and elsewhere.
    DroppedNewline,
    NoContinuation,
    /// `=~`, `!~` and `~=`.
    Match,
    /// `xor`, `??`, `**` and `++`.
    Xor,
    Coalesce,
    Power,
    Increment,
    /// A number after a `$`, and a reference after a `&`.
    DollarNumber,
    Reference,
    /// A `{` right after a string that ends in `$`.
    SequenceOutside,
    /// A string between words, with no gap.
    BetweenWords,
    /// Text and a value, one after the other.
    Joined,
    /// A `for` without brackets, and one after its value.
    ForBrackets,
    ForFirst,
    /// `name = value` in the arguments of a function.
    NamedArgument,
    /// A function called with `[`.
    CallBracket,
}

impl Advice {
    /// Returns the sentence.
    pub fn sentence(self) -> &'static str {
        match self {
            Advice::ConflictMarker => "this line is a conflict marker of a merge",
            Advice::OperatorFirst => {
                "a line can't begin with an operator: put the value in parentheses"
            }
            Advice::Head(advice) => advice.sentence(),
            Advice::Json =>
                "this is JSON, not HCL's native syntax: terraform reads it from .tf.json",
            Advice::KeySpace => "a key with a space is in double quotes, `\"`",
            Advice::AttributeComma => "a newline ends an attribute, not a `,`",
            Advice::And => "`and` is written `&&`",
            Advice::Or => "`or` is written `||`",
            Advice::Not => "`not` is written `!`",
            Advice::Conditional => "a conditional is written `CONDITION ? VALUE : VALUE`",
            Advice::Digits => "a number has only decimal digits, `.` and an exponent",
            Advice::HeredocLine => "the line has to end after the marker of a heredoc",
            Advice::LabelTemplate => "the label of a block can't have `${` or `%{`",
            Advice::DirectiveAlone => "no `%{ if }` or `%{ for }` is open here",
            Advice::DirectiveWord =>
                "a `%{` is followed by `if`, `for`, `else`, `endif` or `endfor`; as text it is written `%%{`",
            Advice::ElseIf => "there is no `else if`: write `%{ if }` after `%{ else }`",
            Advice::OtherLanguage => "a `${` that is not for Terraform is written `$${`",
            Advice::HeredocQuotes => "the marker of a heredoc has no quotes",
            Advice::HeredocSpace => "the marker of a heredoc is right after `<<` or `<<-`",
            Advice::HeredocTilde => "an indented heredoc begins with `<<-`",
            Advice::ComputedKey => "a computed key is in parentheses, `(x)`",
            Advice::EscapedQuote => "the quotes of a string have no backslash",
            Advice::BareText => "text is in double quotes, `\"`",
            Advice::NumberDot => "a number begins with a digit, as in `0.5`",
            Advice::Equal => "equal is written `==`",
            Advice::NotEqual => "not equal is written `!=`",
            Advice::AtMost => "less or equal is written `<=`",
            Advice::AtLeast => "greater or equal is written `>=`",
            Advice::ForIf => "the `if` of a `for` is after its value",
            Advice::QuoteInString => "a quote in a string is written `\\\"`",
            Advice::CommentEnd => "no `/*` is open here",
            Advice::CommentSign => "a comment begins with `#`",
            Advice::NoThen => "there is no `then`",
            Advice::OpenHere => "a `${` before it is open here",
            Advice::DirectiveHere => "a `%{` before it is open here",
            Advice::Pipe => "a function is called as `f(x)`; `or` is written `||`",
            Advice::OneType => "a type is a single one, or `any`",
            Advice::ElementType => "the type of elements is in parentheses, as in `list(string)`",
            Advice::OptionalType =>
                "a type has no `?`; an attribute that may be missing is `optional(TYPE)`",
            Advice::KeyColon => "a key with a `:` is in double quotes, `\"`",
            Advice::Method => "there are no methods: a function is called as `f(x)`",
            Advice::DroppedNewline => "a newline here needs no `\\`",
            Advice::NoContinuation =>
                "it continues no line; a value in parentheses can have several",
            Advice::HeredocSign => "a heredoc begins with `<<` or `<<-`",
            Advice::Match => "a match is written `can(regex(PATTERN, TEXT))`",
            Advice::Xor => "`xor` is written `!=`",
            Advice::Coalesce => "a value in place of null is written `coalesce(x, y)`",
            Advice::Power => "a power is written `pow(x, y)`",
            Advice::Increment => "there is no `++`: one more is written `x + 1`",
            Advice::DollarNumber => "a number has no `$`; text is in double quotes, `\"`",
            Advice::Reference => "a reference has no `&`",
            Advice::SequenceOutside => "a `${ }` is inside of the quotes",
            Advice::BetweenWords => "text has a `\"` before it and one after it",
            Advice::Joined => "text and a value are joined as in `\"a-${var.x}\"`",
            Advice::ForBrackets => "a `for` is in brackets of its own, `[for ..]` or `{for ..}`",
            Advice::ForFirst => "a `for` is before its value, as in `[for x in y : x]`",
            Advice::NamedArgument => "a function has no named arguments; equal is written `==`",
            Advice::CallBracket => "a function is called as `f(x)`",
        }
    }
}

/// Returns the advice for token `found`, where something else was expected, if it is one of these
/// mistakes.
pub fn advice_for(
    scanned: &Scanned<'_>,
    context: Context,
    expected: Expected,
    found: usize,
) -> Option<Advice> {
    match kind_at(scanned, found) {
        Some(kind) if is_in_marker(scanned, kind, found) => Some(Advice::ConflictMarker),
        Some(kind) if is_comment_end(scanned, kind, found) => Some(Advice::CommentEnd),
        Some(kind)
            if matches!(context, Context::Interpolation) && is_of_shell(scanned, kind, found) => {
            Some(Advice::OtherLanguage)
        }
        Some(kind) => match expected {
            Expected::Member | Expected::MemberOrBrace => at_line_start(scanned, kind, found),
            Expected::EqualOrBlock | Expected::LabelOrBrace => {
                in_head(scanned, context, kind, found)
            }
            Expected::OneLineEqual => None,
            Expected::OneLineMember if kind == Kind::QuoteOpen => {
                Some(Advice::Head(quoted_name(scanned, found)))
            }
            Expected::KeySign if is_key_with_space(scanned, found) => Some(Advice::KeySpace),
            Expected::ForColon if is_word(scanned, found, b"if") => Some(Advice::ForIf),
            Expected::SequenceEnd => at_sequence_end(scanned, kind, found, context),
            _ => match in_type(scanned, kind, found) {
                Some(advice) => Some(advice),
                None => in_value(scanned, kind, found, context, expected),
            },
        },
        None if matches!(expected, Expected::LabelOrBrace) => at_head_end(scanned, found),
        None => None,
    }
}

/// Whether words follow the word before token `found`, in its line, and then the sign of a key.
fn is_key_with_space(scanned: &Scanned<'_>, found: usize) -> bool {
    let sign = after_words(scanned, found);
    found > 0
        && is_kind(scanned, found - 1, Kind::Identifier)
        && is_kind(scanned, found, Kind::Identifier)
        && (is_kind(scanned, sign, Kind::Equal) || is_kind(scanned, sign, Kind::Colon))
}

/// Whether `*/` is here: with this token, or with the one before it.
fn is_comment_end(scanned: &Scanned<'_>, kind: Kind, found: usize) -> bool {
    match kind {
        Kind::Star => is_next(scanned, Kind::Slash, found),
        Kind::Slash => found > 0
            && is_adjacent(scanned, found)
            && is_kind(scanned, found - 1, Kind::Star),
        _ => false,
    }
}

/// Whether a line begins as conflict markers do: with this token, or with the one before it, which
/// continues a value where lines don't end it.
fn is_in_marker(scanned: &Scanned<'_>, kind: Kind, found: usize) -> bool {
    is_marker(scanned, kind, found)
        || (found > 0 && is_kind(scanned, found - 1, kind) && is_marker(scanned, kind, found - 1))
}

/// Whether a line begins here as conflict markers do.
fn is_marker(scanned: &Scanned<'_>, kind: Kind, found: usize) -> bool {
    match kind {
        Kind::Less | Kind::Greater | Kind::DoubleEqual => {
            is_line_start(scanned, found)
                && is_next(scanned, kind, found)
                && is_next(scanned, kind, found.saturating_add(1))
        }
        _ => false,
    }
}

/// Returns the advice for a token where a template sequence should end.
fn at_sequence_end(
    scanned: &Scanned<'_>,
    kind: Kind,
    found: usize,
    context: Context,
) -> Option<Advice> {
    match kind {
        Kind::Identifier if is_else_if(scanned, found) => Some(Advice::ElseIf),
        _ => in_value(scanned, kind, found, context, Expected::SequenceEnd),
    }
}
