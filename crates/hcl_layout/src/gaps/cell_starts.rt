//! The cells of lines, in order. For speed alone: `cells::cell_start` finds the cell of each line,
//! but lines that can have none by their flags are passed at once, and of several lines without a
//! cell one is kept.

ghost use Rattle.std.specs.Prelude.{false, [], ◌∷◌, ◌≡◌, ◌<◌, ◌≤◌, ◌++◌, length, drop, OnOk, IfOk};
ghost use Rattle.hcl_scan.specs.Tokenization.{MAX_TEXT};
ghost use Rattle.hcl_layout.specs.Gaps.Inner.Stages.{widths, lines_from, with_gaps, AreAtMost, MAX_WIDTH};
ghost use Rattle.hcl_layout.specs.Gaps.Inner.CodeViews.{cell_of, is_cell, without_repeats, AreStarts};
ghost use Rattle.hcl_layout.specs.Gaps.Inner.CodeViews.{LackCell, CanHaveCell, AreByteClusters};
ghost use Rattle.hcl_layout.specs.Gaps.Inner.LineSpans.{AreSpans};

use crate::gaps::cells::{Cell, CellStart, cell_start};
use crate::gaps::line_flags::can_have_cell;
use crate::gaps::lines::LineSpan;
use hcl_scan::Scanned;
use std::alloc::{AllocError, Global};

/// Returns the first span from number `from` on that can have such a cell, or the number of spans.
fn next_with_cell(cell: Cell, spans: &[LineSpan], from: usize) -> usize
    requires { from ≤ length spans.now }
    ensures later { from ≤ result }
    ensures within { result ≤ length spans.now }
    ensures lacking { LackCell cell spans.now from result }
    ensures found { result < length spans.now → CanHaveCell cell spans.now result }
{
    for i in from..spans.len() {
        if can_have_cell(cell, spans[i]) {
            return i;
        }
    }
    spans.len()
}

/// Whether a line has a cell.
fn is_cell(start: Option<CellStart>) -> bool
    ensures { result ≡ is_cell start }
{
    start.is_some()
}

/// Pushes the cell of a line, if it has one or the line before it had one.
fn push_start(
    starts: &mut Vec<Option<CellStart>>,
    in_run: bool,
    start: Option<CellStart>,
) -> Result<(), AllocError>
    ensures { OnOk result
        (starts.new.items ≡ starts.old.items ++ without_repeats in_run (start ∷ [])) }
{
    if in_run | is_cell(start) {
        starts.push(start)?;
    }
    Ok(())
}

/// Returns the cells of the lines in these spans, the first of which begins at token `first`. Of
/// several lines without a cell there is one, or none before the first cell.
pub(crate) fn cell_starts(
    alloc: Global,
    scanned: &Scanned<'_>,
    cell: Cell,
    gaps: &[u32],
    spans: &[LineSpan],
    first: usize,
    byte_clusters: bool,
) -> Result<Vec<Option<CellStart>>, AllocError>
    requires same { length gaps.now ≡ length scanned.now.pairs }
    requires bytes { AreByteClusters byte_clusters scanned.now.pairs }
    requires within_limit { length scanned.now.pairs ≤ MAX_TEXT }
    requires within { first ≤ length scanned.now.pairs }
    requires spans { AreSpans scanned.now.pairs first false spans.now }
    requires bounded { AreAtMost MAX_WIDTH
        (widths (cell_of cell) (lines_from 0 (drop first (with_gaps gaps.now scanned.now.pairs)))) }
    ensures { IfOk result (λ starts.
        AreStarts cell gaps.now scanned.now.pairs first starts.items) }
{
    let mut starts = Vec::with_capacity(alloc, spans.len())?;
    let mut in_run = false;
    let mut at = first;
    let mut frozen = false;
    let mut i = 0;
    while i < spans.len() {
        // often several spans in turn have no such cell
        let next = next_with_cell(cell, spans, i);
        if i < next {
            push_start(&mut starts, in_run, None)?;
            in_run = false;
            i = next;
        } else {
            let start = cell_start(scanned, cell, gaps, at, frozen, spans[i], byte_clusters);
            push_start(&mut starts, in_run, start)?;
            in_run = is_cell(start);
            i += 1;
        }
        let before = spans[i - 1];
        at = before.past as usize;
        frozen = before.next_frozen;
    }
    Ok(starts)
}
