//! Lines in turn that can have no cell, as one span. For speed and memory alone: a span for each
//! line says the same, in 8 bytes for each line end of a text.

ghost use Rattle.std.specs.Prelude.{true, Bool, ◌≡◌, ◌&&◌, ◌<◌, ◌≤◌, length, slice_range, OnOk};
ghost use Rattle.hcl_layout.specs.Gaps.Inner.CodeViews.{IsLine};
ghost use Rattle.hcl_layout.specs.Gaps.Inner.LineSpans.{is_comment_alone, can_be_joined, can_last_be_joined};
ghost use Rattle.hcl_layout.specs.Gaps.Inner.LineSpans.{add_span, IsSpan};

use crate::gaps::kinds::{is_line_comment, is_line_end};
use crate::gaps::lines::LineSpan;
use hcl_scan::Scanned;
use std::alloc::AllocError;

/// Returns whether the tokens `at..past` are a comment and its line end, and nothing else.
fn is_comment_alone(scanned: &Scanned<'_>, at: usize, past: usize) -> bool
    requires ordered { at < past }
    requires within { past ≤ length scanned.now.pairs }
    ensures { result ≡ is_comment_alone (slice_range scanned.now.pairs at past) }
{
    let token_count = past - at;
    if token_count != 2 {
        return false;
    }
    let a = scanned.kind(at);
    let b = scanned.kind(at + 1);
    is_line_comment(a) & is_line_end(b)
}

/// Returns whether a line is a comment and its line end, and nothing else. A line without a comment
/// is not looked at.
fn is_comment_line(scanned: &Scanned<'_>, at: usize, line: LineSpan) -> bool
    requires ordered { at < line.past }
    requires within { line.past ≤ length scanned.now.pairs }
    ensures { result
        ≡ (line.has_comment && is_comment_alone (slice_range scanned.now.pairs at line.past)) }
{
    line.has_comment && is_comment_alone(scanned, at, line.past as usize)
}

/// Returns the span of a line. A comment and its line end are no cells, so the flags of a line of
/// these alone are false.
pub(crate) fn span_of_line(scanned: &Scanned<'_>, at: usize, line: LineSpan) -> LineSpan
    requires ordered { at < line.past }
    requires within { line.past ≤ length scanned.now.pairs }
    ensures span { (frozen : Bool) → IsLine scanned.now.pairs at frozen line
        → IsSpan scanned.now.pairs at frozen result }
    ensures past { result.past ≡ line.past }
    ensures next_frozen { result.next_frozen ≡ line.next_frozen }
{
    if is_comment_line(scanned, at, line) {
        return LineSpan {
            past: line.past,
            next_frozen: line.next_frozen,
            is_balanced: false,
            has_comment: false,
            has_equals: false,
        };
    }
    line
}

/// Returns whether the flags of a span say that it has no cell of either sort.
fn can_be_joined(span: LineSpan) -> bool
    ensures { result ≡ can_be_joined span }
{
    !(span.has_comment | span.has_equals)
}

/// Returns whether there are spans, and the flags of the last say that it has no cell.
fn can_last_be_joined(spans: &[LineSpan]) -> bool
    ensures { result ≡ can_last_be_joined spans.now }
{
    let count = spans.len();
    if count == 0 {
        return false;
    }
    can_be_joined(spans[count - 1])
}

/// Returns whether neither a span nor the last before it can have a cell; false if there is none
/// before it.
fn joins_last(spans: &[LineSpan], span: LineSpan) -> bool
    ensures { result ≡ (can_be_joined span && can_last_be_joined spans.now) }
{
    can_be_joined(span) && can_last_be_joined(spans)
}

/// Adds a span; if neither it nor the one before it can have a cell, the two become one.
pub(crate) fn add_span(spans: &mut Vec<LineSpan>, span: LineSpan) -> Result<(), AllocError>
    ensures { OnOk result (spans.new.items ≡ add_span spans.old.items span) }
{
    if joins_last(spans, span) {
        let end = spans.len() - 1;
        spans[end] = span;
        return Ok(());
    }
    spans.push(span)?;
    Ok(())
}
