//! The token at which an error is.

ghost use Rattle.std.specs.Prelude.{◌≡◌, ◌≢◌, ◌≤◌, ℕ, IfSome, IfNone, length};
ghost use Rattle.hcl_text_laws.specs.Faults.{byte_offset};

use hcl_scan::Scanned;

/// Returns the byte where a token begins; the length of the text, if there is none.
pub fn byte_of(scanned: &Scanned<'_>, number: usize) -> usize
    ensures { result ≡ byte_offset scanned.now number }
{
    if number < scanned.len() {
        scanned.item(number).start as usize
    } else {
        scanned.text().len()
    }
}

/// Returns the number of the token that begins at a byte; how many tokens there are, if the byte
/// is the end of the text. There may be none.
pub fn token_at(scanned: &Scanned<'_>, at: usize) -> Option<usize>
    ensures place { IfSome result (λ number. byte_offset scanned.now number ≡ at) }
    ensures within { IfSome result (λ number. number ≤ length scanned.now.pairs) }
    ensures none { IfNone result ((number : ℕ) → byte_offset scanned.now number ≢ at) }
{
    let count = scanned.len();
    for number in 0..count {
        if byte_of(scanned, number) == at {
            return Some(number);
        }
    }
    if byte_of(scanned, count) == at {
        Some(count)
    } else {
        None
    }
}

/// Whether the text of these tokens ends with token `last`.
pub fn ends_at_token(scanned: &Scanned<'_>, last: usize) -> bool {
    last < scanned.len()
        && byte_of(scanned, last).saturating_add(scanned.spelling(last).len())
            == scanned.text().len()
}
