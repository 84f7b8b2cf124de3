//! Places between the gaps and tokens of a text.

ghost use Rattle.std.specs.Prelude.{◌≡◌, ◌≤◌, ◌+◌, ◌*◌, ◌<◌, ◌↔◌, length, take, IsTrue, slice_range};
ghost use Rattle.tf_fix.specs.Edits.Parts.{parts, text_of_parts, boundary_index};

use hcl_scan::Scanned;

/// A place in a text.
#[derive(Clone, Copy)]
pub enum Boundary {
    /// Right before the gap of this token, or before the last gap.
    Gap(u32),
    /// Directly before this token, after its gap.
    Token(u32),
}

/// Returns whether token `i` is before the place.
pub fn is_after(boundary: Boundary, i: u32) -> bool
    ensures { IsTrue result ↔ (2 * i + 2 ≤ boundary_index boundary) }
{
    match boundary {
        Boundary::Gap(j) => i < j,
        Boundary::Token(j) => i < j,
    }
}

/// Whether the place is the one before gap `i`.
pub fn is_before_gap(boundary: Boundary, i: u32) -> bool
    ensures { IsTrue result ↔ (boundary_index boundary ≡ 2 * i) }
{
    match boundary {
        Boundary::Gap(j) => i == j,
        Boundary::Token(_) => false,
    }
}

/// Whether the place is the one before token `i`.
pub fn is_before_token(boundary: Boundary, i: u32) -> bool
    ensures { IsTrue result ↔ (boundary_index boundary ≡ 2 * i + 1) }
{
    match boundary {
        Boundary::Gap(_) => false,
        Boundary::Token(j) => i == j,
    }
}

/// Returns how many bytes are before the place.
pub fn offset(scanned: &Scanned<'_>, boundary: Boundary) -> usize
    requires { boundary_index boundary ≤ 2 * length scanned.now.pairs }
    ensures { result ≡ length (text_of_parts (take (boundary_index boundary) (parts scanned.now))) }
{
    match boundary {
        Boundary::Gap(i) => {
            if i == 0 {
                0
            } else {
                scanned.item((i - 1) as usize).stop as usize
            }
        }
        Boundary::Token(i) => scanned.item(i as usize).start as usize,
    }
}

/// Returns the bytes of a text from one place to another.
fn slice(text: &[u8], from: usize, to: usize) -> &[u8]
    requires ordered { from ≤ to }
    requires within { to ≤ length text.now }
    ensures { result.now ≡ slice_range text.now from to }
{
    &text[from..to]
}

/// Returns the text from one place to another.
pub fn text_between<'t>(scanned: &Scanned<'t>, from: Boundary, to: Boundary) -> &'t [u8]
    requires order { boundary_index from ≤ boundary_index to }
    requires within { boundary_index to ≤ 2 * length scanned.now.pairs }
    ensures { result.now
        ≡ text_of_parts
        (slice_range (parts scanned.now) (boundary_index from) (boundary_index to)) }
{
    slice(scanned.text(), offset(scanned, from), offset(scanned, to))
}
