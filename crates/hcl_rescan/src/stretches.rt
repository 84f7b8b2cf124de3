//! Stretches of a text and of its tokens.

ghost use Rattle.std.specs.Prelude.{◌≡◌, ◌≤◌, length, slice_range};

use hcl_scan::Span;

/// Returns the bytes of a text between two places.
pub(crate) fn slice(text: &[u8], from: usize, to: usize) -> &[u8]
    requires ordered { from ≤ to }
    requires within { to ≤ length text.now }
    ensures { result.now ≡ slice_range text.now from to }
{
    &text[from..to]
}

/// Returns the tokens from one number on, up to another.
pub(crate) fn span_range(spans: &[Span], from: usize, to: usize) -> &[Span]
    requires ordered { from ≤ to }
    requires within { to ≤ length spans.now }
    ensures { result.now ≡ slice_range spans.now from to }
{
    &spans[from..to]
}
