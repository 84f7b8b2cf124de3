//! What the flags of a line say of its cells. For speed alone: `cells` finds in its tokens whether
//! it has a cell, and `indent::count_brackets` whether it closes what it opens.

ghost use Rattle.std.specs.Prelude.{◌≡◌, ◌&&◌, ◌<◌, ◌≤◌, length, slice_range};
ghost use Rattle.std.specs.List.{list_any};
ghost use Rattle.hcl_scan.specs.Tokenization.{MAX_TEXT};
ghost use Rattle.hcl_token.specs.Place.{is_lf};
ghost use Rattle.hcl_token.specs.Tokens.{Pair};
ghost use Rattle.hcl_layout.specs.Gaps.Kinds.{is_inline_comment};
ghost use Rattle.hcl_layout.specs.Gaps.Cells.{is_balanced};
ghost use Rattle.hcl_layout.specs.Gaps.Inner.CodeViews.{can_have_cell, HasFlags};

use crate::gaps::cells::{Cell, has_multiline_comment};
use crate::gaps::indent::count_brackets;
use crate::gaps::lines::LineSpan;
use hcl_scan::Scanned;

/// Returns whether a line can have a token that begins such a cell.
pub(crate) fn can_have_cell(cell: Cell, line: LineSpan) -> bool
    ensures { result ≡ can_have_cell cell line }
{
    match cell {
        Cell::Assignment => line.has_equals,
        Cell::ClosingComment => line.has_comment,
    }
}

/// Returns whether a line has an inline comment with a line end; it has none if it has no comment.
pub(crate) fn is_broken_by_comment(scanned: &Scanned<'_>, at: usize, line: LineSpan) -> bool
    requires ordered { at < line.past }
    requires within { line.past ≤ length scanned.now.pairs }
    requires flags { HasFlags scanned.now.pairs at line }
    ensures { result ≡ list_any
        (λ (p : Pair). is_inline_comment p.kind && list_any is_lf p.spelling)
        (slice_range scanned.now.pairs at line.past) }
{
    if !line.has_comment {
        return false;
    }
    has_multiline_comment(scanned, at, line.past as usize)
}

/// Returns whether what begins at token `i` of a line closes what it opens. What is before, mostly
/// one token, is counted: if it is balanced, the rest is as the line is.
pub(crate) fn is_balanced(scanned: &Scanned<'_>, at: usize, i: usize, line: LineSpan) -> bool
    requires later { at ≤ i }
    requires ordered { i ≤ line.past }
    requires within { line.past ≤ length scanned.now.pairs }
    requires within_limit { length scanned.now.pairs ≤ MAX_TEXT }
    requires flags { HasFlags scanned.now.pairs at line }
    ensures { result ≡ is_balanced (slice_range scanned.now.pairs i line.past) }
{
    let (opened_before, closed_before) = count_brackets(scanned, at, i);
    if opened_before == closed_before {
        return line.is_balanced;
    }
    let (opened, closed) = count_brackets(scanned, i, line.past as usize);
    opened == closed
}
