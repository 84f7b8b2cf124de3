//! Alignment: the cells of a run of lines in one column.

ghost use Rattle.std.specs.Prelude.{take, false, [], ◌∷◌, Some, slice_get, ◌≡◌, ◌&&◌, ◌+◌, ◌<◌, ◌≤◌, ◌^◌};
ghost use Rattle.std.specs.Prelude.{length, drop, slice_range, option_map, OnOk, IfSome};
ghost use Rattle.hcl_scan.specs.Tokenization.{MAX_TEXT};
ghost use Rattle.std.specs.List.{list_any};
ghost use Rattle.hcl_token.specs.Place.{is_lf};
ghost use Rattle.hcl_token.specs.Tokens.{Pair};
ghost use Rattle.hcl_layout.specs.Gaps.Kinds.{is_inline_comment};
ghost use Rattle.hcl_layout.specs.Gaps.Lines.{pairs_in};
ghost use Rattle.hcl_layout.specs.Gaps.Cells.{index_after_first, width, width_before, aligned};
ghost use Rattle.hcl_layout.specs.Gaps.Inner.Stages.{widths, greatest, lines_from, with_gaps, AreAtMost};
ghost use Rattle.hcl_layout.specs.Gaps.Inner.Stages.{MAX_WIDTH, set_cell_gaps, cell_gaps_from_width};
ghost use Rattle.hcl_layout.specs.Gaps.Inner.CodeViews.{starts_cell, cell_of, is_valid_cell, widths_of};
ghost use Rattle.hcl_layout.specs.Gaps.Inner.CodeViews.{tokens_in, width_in, token_in, HasFlags, AreInside};
ghost use Rattle.hcl_layout.specs.Gaps.Inner.CodeViews.{AreByteClusters};
ghost use Rattle.hcl_layout.specs.Gaps.Inner.LineSpans.{AreSpans};

use crate::gaps::cell_starts::cell_starts;
use crate::gaps::gap_numbers::current_gap_len;
use crate::gaps::kinds::{is_equal, is_inline_comment, is_line_comment};
use crate::gaps::line_flags::{is_balanced, is_broken_by_comment};
use crate::gaps::lines::LineSpan;
use crate::gaps::text_bytes::cluster_count;
use hcl_scan::Scanned;
use hcl_token::Kind;
use std::alloc::{AllocError, Global};

/// Which cells are aligned.
#[derive(Clone, Copy)]
pub(crate) enum Cell {
    /// What begins with the first `=` of a line.
    Assignment,
    /// The comment that closes a line.
    ClosingComment,
}

/// The first token of a line's cell, and the width of what is before it.
#[derive(Clone, Copy)]
pub(crate) struct CellStart {
    pub token: u32,
    pub width: u32,
}

/// Whether there is a line feed among the bytes.
fn has_lf(bytes: &[u8]) -> bool
    ensures { result ≡ list_any is_lf bytes.now }
{
    bytes.iter().any(|b| *b == 10)
}

/// Returns whether token `i` is an inline comment with a line end. Only the spelling of an inline
/// comment is searched.
fn is_multiline_comment_at(scanned: &Scanned<'_>, i: usize) -> bool
    requires { i < length scanned.now.pairs }
    ensures { Some result ≡ option_map (λ (p : Pair).
        is_inline_comment p.kind && list_any is_lf p.spelling) (slice_get scanned.now.pairs i) }
{
    if is_inline_comment(scanned.kind(i)) {
        return has_lf(scanned.spelling(i));
    }
    false
}

/// Returns whether a line has an inline comment with a line end.
pub(crate) fn has_multiline_comment(scanned: &Scanned<'_>, at: usize, past: usize) -> bool
    requires ordered { at ≤ past }
    requires within { past ≤ length scanned.now.pairs }
    ensures { result ≡ list_any
        (λ (p : Pair). is_inline_comment p.kind && list_any is_lf p.spelling)
        (slice_range scanned.now.pairs at past) }
{
    for i in at..past {
        if is_multiline_comment_at(scanned, i) {
            return true;
        }
    }
    false
}

/// Whether a token of this kind begins such a cell.
fn starts_cell(cell: Cell, kind: Kind) -> bool
    ensures { result ≡ starts_cell cell kind }
{
    match cell {
        Cell::Assignment => is_equal(kind),
        Cell::ClosingComment => is_line_comment(kind),
    }
}

/// Returns the first token after token `at` that begins such a cell.
fn cell_token_after_first(
    scanned: &Scanned<'_>,
    cell: Cell,
    at: usize,
    past: usize,
) -> Option<usize>
    requires ordered { at < past }
    requires within { past ≤ length scanned.now.pairs }
    ensures found { result
        ≡ option_map (λ n. at + n)
        (index_after_first (λ (p : Pair). starts_cell cell p.kind) (slice_range scanned.now.pairs at past)) }
    ensures inside { IfSome result (λ i. (at < i) × (i < past)) }
{
    for i in at + 1..past {
        if starts_cell(cell, scanned.kind(i)) {
            return Some(i);
        }
    }
    None
}

/// Returns whether a cell that begins at token `i` of a line counts.
fn is_valid_cell(scanned: &Scanned<'_>, cell: Cell, at: usize, i: usize, line: LineSpan) -> bool
    requires later { at ≤ i }
    requires ordered { i ≤ line.past }
    requires within { line.past ≤ length scanned.now.pairs }
    requires within_limit { length scanned.now.pairs ≤ MAX_TEXT }
    requires flags { HasFlags scanned.now.pairs at line }
    ensures { result ≡ is_valid_cell cell (slice_range scanned.now.pairs i line.past) }
{
    match cell {
        Cell::Assignment => is_balanced(scanned, at, i, line),
        Cell::ClosingComment => true,
    }
}

/// Returns the first token of the line's cell, if it has one.
fn cell_of(
    scanned: &Scanned<'_>,
    cell: Cell,
    at: usize,
    frozen: bool,
    line: LineSpan,
) -> Option<usize>
    requires ordered { at < line.past }
    requires within { line.past ≤ length scanned.now.pairs }
    requires flags { frozen ≡ false → HasFlags scanned.now.pairs at line }
    requires within_limit { length scanned.now.pairs ≤ MAX_TEXT }
    ensures cell { result
        ≡ option_map (λ n. at + n)
        (cell_of cell (record {
          frozen = frozen;
          pairs = slice_range scanned.now.pairs at line.past;
        })) }
    ensures inside { IfSome result (λ i. (at < i) × (i < line.past)) }
{
    if frozen {
        return None;
    }
    let i = cell_token_after_first(scanned, cell, at, line.past as usize)?;
    if is_broken_by_comment(scanned, at, line) {
        return None;
    }
    if is_valid_cell(scanned, cell, at, i, line) {
        return Some(i);
    }
    None
}

/// Returns the width of the tokens `at..to`.
fn width(scanned: &Scanned<'_>, gaps: &[u32], at: usize, to: usize, byte_clusters: bool) -> u32
    requires same { length gaps.now ≡ length scanned.now.pairs }
    requires ordered { at ≤ to }
    requires within { to ≤ length scanned.now.pairs }
    requires bytes { AreByteClusters byte_clusters scanned.now.pairs }
    requires bounded { width (slice_range (with_gaps gaps.now scanned.now.pairs) at to) < 2 ^ 31 }
    ensures { result ≡ width (slice_range (with_gaps gaps.now scanned.now.pairs) at to) }
{
    let mut width = 0;
    for i in at..to {
        width += current_gap_len(scanned, gaps, i) + cluster_count(scanned, i, byte_clusters);
    }
    width as u32
}

/// Returns the cell of a line, if it has one.
pub(crate) fn cell_start(
    scanned: &Scanned<'_>,
    cell: Cell,
    gaps: &[u32],
    at: usize,
    frozen: bool,
    line: LineSpan,
    byte_clusters: bool,
) -> Option<CellStart>
    requires same { length gaps.now ≡ length scanned.now.pairs }
    requires bytes { AreByteClusters byte_clusters scanned.now.pairs }
    requires ordered { at < line.past }
    requires within { line.past ≤ length scanned.now.pairs }
    requires flags { frozen ≡ false → HasFlags scanned.now.pairs at line }
    requires within_limit { length scanned.now.pairs ≤ MAX_TEXT }
    requires bounded { AreAtMost MAX_WIDTH
        (width_before (cell_of cell)
        (record {
          frozen = frozen;
          pairs = slice_range (with_gaps gaps.now scanned.now.pairs) at line.past;
        }) ∷ []) }
    ensures width { width_in result
        ≡ width_before (cell_of cell)
        (record {
          frozen = frozen;
          pairs = slice_range (with_gaps gaps.now scanned.now.pairs) at line.past;
        }) }
    ensures token { token_in result
        ≡ option_map (λ n. at + n)
        (cell_of cell (record {
          frozen = frozen;
          pairs = slice_range (with_gaps gaps.now scanned.now.pairs) at line.past;
        })) }
    ensures inside { IfSome result (λ p. p.token < length scanned.now.pairs) }
{
    match cell_of(scanned, cell, at, frozen, line) {
        None => None,
        Some(i) => Some(CellStart {
            token: i as u32,
            width: width(scanned, gaps, at, i, byte_clusters),
        }),
    }
}

/// Returns the greatest width up to the first line without a cell.
fn greatest(starts: &[Option<CellStart>]) -> u32
    ensures { result ≡ greatest (widths_of starts.now) }
{
    let mut greatest = 0;
    for start in starts {
        match start {
            Some(start) => greatest = greatest.max(start.width),
            None => return greatest,
        }
    }
    greatest
}

/// Returns where the cell of line `i` begins, if it has one.
fn start_at(starts: &[Option<CellStart>], i: usize) -> Option<CellStart>
    requires { i < length starts.now }
    ensures { Some result ≡ slice_get starts.now i }
{
    starts[i]
}

/// Returns where the cells of the lines from line `i` on begin.
fn starts_from(starts: &[Option<CellStart>], i: usize) -> &[Option<CellStart>]
    requires { i ≤ length starts.now }
    ensures { result.now ≡ drop i starts.now }
{
    &starts[i..]
}

/// Sets the gap before a cell, if there is one, and returns the greatest width of the run that the
/// next line is in.
fn set_cell_gap(gaps: &mut Vec<u32>, starts: &[Option<CellStart>], i: usize, run_width: u32) -> u32
    requires within { i < length starts.now }
    requires inside { AreInside (length gaps.old.items) starts.now }
    requires bounded { AreAtMost MAX_WIDTH (widths_of starts.now) }
    requires run_width { run_width ≤ MAX_WIDTH }
    ensures filled { set_cell_gaps gaps.new.items (tokens_in (drop (i + 1) starts.now))
        (cell_gaps_from_width result (widths_of (drop (i + 1) starts.now)))
        ≡ set_cell_gaps gaps.old.items (tokens_in (drop i starts.now))
        (cell_gaps_from_width run_width (widths_of (drop i starts.now))) }
    ensures run_width { result ≤ MAX_WIDTH }
    ensures same { length gaps.new.items ≡ length gaps.old.items }
{
    match start_at(starts, i) {
        Some(start) => {
            gaps[start.token as usize] = 1 + run_width.saturating_sub(start.width);
            run_width
        }
        None => greatest(starts_from(starts, i + 1)),
    }
}

/// Sets the gaps before cells, from the greatest width of each run.
fn set_cell_gaps(gaps: &mut Vec<u32>, starts: &[Option<CellStart>])
    requires inside { AreInside (length gaps.old.items) starts.now }
    requires bounded { AreAtMost MAX_WIDTH (widths_of starts.now) }
    ensures filled { gaps.new.items
        ≡ set_cell_gaps gaps.old.items (tokens_in starts.now)
        (cell_gaps_from_width (greatest (widths_of starts.now)) (widths_of starts.now)) }
    ensures same { length gaps.new.items ≡ length gaps.old.items }
{
    let mut run_width = greatest(starts);
    for i in 0..starts.len() {
        run_width = set_cell_gap(gaps, starts, i, run_width);
    }
}

/// Aligns the cells of a text, from token `first` on.
pub(crate) fn align(
    alloc: Global,
    scanned: &Scanned<'_>,
    cell: Cell,
    spans: &[LineSpan],
    gaps: &mut Vec<u32>,
    first: usize,
    byte_clusters: bool,
) -> Result<(), AllocError>
    requires same { length gaps.old.items ≡ length scanned.now.pairs }
    requires bytes { AreByteClusters byte_clusters scanned.now.pairs }
    requires within_limit { length scanned.now.pairs ≤ MAX_TEXT }
    requires within { first ≤ length scanned.now.pairs }
    requires spans { AreSpans scanned.now.pairs first false spans.now }
    requires bounded { AreAtMost MAX_WIDTH
        (widths (cell_of cell)
        (lines_from 0 (drop first (with_gaps gaps.old.items scanned.now.pairs)))) }
    ensures aligned { OnOk result
        (drop first (with_gaps gaps.new.items scanned.now.pairs)
        ≡ pairs_in (aligned (cell_of cell)
        (lines_from 0 (drop first (with_gaps gaps.old.items scanned.now.pairs))))) }
    ensures prefix { OnOk result
        (take first (with_gaps gaps.new.items scanned.now.pairs)
        ≡ take first (with_gaps gaps.old.items scanned.now.pairs)) }
    ensures same { OnOk result (length gaps.new.items ≡ length scanned.now.pairs) }
{
    let starts = cell_starts(alloc, scanned, cell, gaps, spans, first, byte_clusters)?;
    set_cell_gaps(gaps, &starts);
    Ok(())
}
