//! Two lists of edits that are gone over together.
ghost use Rattle.std.specs.Prelude.{◌↔◌, ◌+◌, ◌<◌, length, IsTrue};

use crate::lists::Edit;

/// Returns whether one of the lists has an edit left.
pub(crate) fn has_more(xs: &[Edit], ys: &[Edit]) -> bool
    ensures { IsTrue result ↔ (0 < length xs.now + length ys.now) }
{
    !xs.is_empty() || !ys.is_empty()
}
