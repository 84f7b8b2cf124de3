//! Which tokens join.

ghost use Rattle.std.specs.Prelude.{◌≡◌, ℕ};
ghost use Rattle.hcl_token.specs.Joins.{joins_with, starts_with, ends_with, is_digits, joins_after_number};
ghost use Rattle.hcl_token.specs.Joins.{joins_after_opening};

use crate::kind::Kind;

/// Whether a spelling starts with a byte; an empty one does not.
fn starts_with(spelling: &[u8], byte: u8) -> bool
    ensures { result ≡ starts_with byte spelling.now }
{
    match spelling.first() {
        Some(first) => *first == byte,
        None => false,
    }
}

/// Whether a spelling ends with a byte; an empty one does not.
fn ends_with(spelling: &[u8], byte: u8) -> bool
    ensures { result ≡ ends_with byte spelling.now }
{
    match spelling.last() {
        Some(last) => *last == byte,
        None => false,
    }
}

/// Whether each byte of a spelling is a digit.
fn is_digits(spelling: &[u8]) -> bool
    ensures { result ≡ is_digits spelling.now }
{
    spelling.iter().all(|b| (48 <= *b) & (*b <= 57))
}

/// Whether a number joins with a token of this kind and spelling: with a number, with a name that
/// begins with `e` or `E`, and, if it is digits alone, with a `.` and digits.
fn joins_after_number(number: &[u8], kind: Kind, next: &[u8]) -> bool
    ensures { result ≡ joins_after_number number.now kind next.now }
{
    match kind {
        Kind::Number => true,
        Kind::Identifier => starts_with(next, b'e') | starts_with(next, b'E'),
        Kind::DotIndex => is_digits(number),
        _ => false,
    }
}

/// Whether the opening of a template sequence joins with a token of this kind and spelling: one
/// without `~` does with `~}`.
fn joins_after_opening(opening: &[u8], kind: Kind, next: &[u8]) -> bool
    ensures { result ≡ joins_after_opening opening.now kind next.now }
{
    match kind {
        Kind::SeqClose => !ends_with(opening, b'~') & starts_with(next, b'~'),
        _ => false,
    }
}

/// Whether two adjacent tokens join: with an empty gap between them, the two and what follows could
/// be read as other tokens.
///
/// The table is this project's own; the tokens are those of the HCL native syntax specification,
/// Lexical Elements.
pub fn joins(first: Kind, first_spelling: &[u8], second: Kind, second_spelling: &[u8]) -> bool
    ensures { result ≡ joins_with first first_spelling.now second second_spelling.now }
{
    match first {
        Kind::Identifier => matches!(second, Kind::Identifier | Kind::Number | Kind::Minus),
        Kind::Number => joins_after_number(first_spelling, second, second_spelling),
        Kind::DotIndex => matches!(second, Kind::Number),
        Kind::Less => matches!(second, Kind::Less) || starts_with(second_spelling, b'='),
        Kind::Greater | Kind::Bang => starts_with(second_spelling, b'='),
        Kind::Equal => starts_with(second_spelling, b'=') | starts_with(second_spelling, b'>'),
        Kind::Colon => starts_with(second_spelling, b':'),
        Kind::Dot => matches!(
            second,
            Kind::Number | Kind::Dot | Kind::Ellipsis | Kind::DotIndex
        ),
        Kind::Slash => matches!(second, Kind::Star) || starts_with(second_spelling, b'/'),
        Kind::InterpOpen | Kind::DirectiveOpen => {
            joins_after_opening(first_spelling, second, second_spelling)
        }
        _ => false,
    }
}
