//! Names in snake_case.

ghost use Rattle.std.specs.Prelude.{◌≡◌, ◌≤◌, ◌==◌, drop, length, slice_index};
ghost use Rattle.tf_rules.specs.SnakeCase.{is_lower, is_lower_or_digit, is_snake_case};
ghost use Rattle.tf_rules.specs.Inner.SnakeCaseRest.{is_valid_next, is_valid_rest};

use crate::snake_units::past_units;

/// Whether a byte is a lower-case ASCII letter.
fn is_lower(c: u8) -> bool
    ensures { result ≡ is_lower c }
{
    c >= b'a' && c <= b'z'
}

/// Whether a byte is a lower-case ASCII letter or a digit.
fn is_lower_or_digit(c: u8) -> bool
    ensures { result ≡ is_lower_or_digit c }
{
    is_lower(c) || (c >= b'0' && c <= b'9')
}

/// Returns whether a byte may come next in a name, after an underscore or not.
fn is_valid_next(after_underscore: bool, c: u8) -> bool
    ensures { result ≡ is_valid_next after_underscore c }
{
    is_lower_or_digit(c) || (c == b'_' && !after_underscore)
}

/// Whether these bytes may end a name. `after_first` says that an underscore is before them.
fn is_valid_rest(after_first: bool, rest: &[u8]) -> bool
    ensures { result ≡ is_valid_rest after_first rest.now }
{
    let mut after_underscore = after_first;
    for c in rest {
        // most are letters
        if is_lower(*c) {
            after_underscore = false;
            continue;
        }
        if !is_valid_next(after_underscore, *c) {
            return false;
        }
        after_underscore = *c == b'_';
    }
    !after_underscore
}

/// Returns whether the bytes after the first may be in a name that begins with it.
fn is_valid_after_first(name: &[u8]) -> bool
    requires { 1 ≤ length name.now }
    ensures { result ≡ is_valid_rest (slice_index name.now 0 == 95) (drop 1 name.now) }
{
    let at = past_units(name);
    is_valid_rest(name[at - 1] == b'_', &name[at..])
}

/// Returns whether a name begins with a lower-case letter, and consists of lower-case letters and
/// digits with single underscores between them.
pub fn is_snake_case(name: &[u8]) -> bool
    ensures { result ≡ is_snake_case name.now }
{
    match name.split_first() {
        Some((c, _rest)) => is_lower(*c) && is_valid_after_first(name),
        None => false,
    }
}
