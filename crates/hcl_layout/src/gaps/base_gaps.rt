//! Indents and spaces: the gaps of the lines before alignment.

ghost use Rattle.std.specs.Prelude.{◌≡◌, ◌+◌, ◌-◌, ◌*◌, ◌<◌, ◌≤◌, ◌++◌, [], true, false, drop, length};
ghost use Rattle.std.specs.Prelude.{replicate, take, if◌then◌else◌, OnOk, IfOk};
ghost use Rattle.hcl_scan.specs.Tokenization.{MAX_TEXT};
ghost use Rattle.hcl_token.specs.Kinds.{is_line_end};
ghost use Rattle.hcl_layout.specs.Gaps.Inner.CodeViews.{IsLine, gaps_left};
ghost use Rattle.hcl_layout.specs.Gaps.Inner.LineSpans.{AreSpans};
ghost use Rattle.hcl_layout.specs.Gaps.Inner.Stages.{lines_from, KEEP_GAP, all_gap_lens};

use crate::gaps::gap_numbers::KEEP_GAP;
use crate::gaps::indent::{close_earlier, count_brackets, push_opened};
use crate::gaps::kinds::is_line_end;
use crate::gaps::line_pass::fill_line;
use crate::gaps::line_spans::{add_span, span_of_line};
use crate::gaps::lines::{LineSpan, line_at};
use hcl_scan::Scanned;
use hcl_token::Kind;
use std::alloc::{AllocError, Global};

/// Sets the gaps of the tokens `from..to` of a frozen line. For the proof: `kept_gaps` made them so
/// already, but no contract says what the list has after the lines that were passed.
fn fill_kept(gaps: &mut Vec<u32>, from: usize, to: usize)
    requires ordered { from ≤ to }
    requires within { to ≤ length gaps.old.items }
    ensures filled { take to gaps.new.items
        ≡ take from gaps.old.items ++ replicate (to - from) KEEP_GAP }
    ensures same { length gaps.new.items ≡ length gaps.old.items }
{
    for i in from..to {
        gaps[i] = KEEP_GAP;
    }
}

/// Returns the width of the indentation before the first token of a line: 0 before its line end.
fn indent_len(kind: Kind, level: u32) -> u32
    requires { level ≤ MAX_TEXT }
    ensures { result ≡ (if is_line_end kind then 0 else 2 * level) }
{
    if is_line_end(kind) { 0 } else { 2 * level }
}

/// Sets the gaps of the line that begins at token `at` in a heredoc.
fn fill_frozen_line(
    scanned: &Scanned<'_>,
    gaps: &mut Vec<u32>,
    surplus: &mut Vec<u32>,
    first: usize,
    at: usize,
) -> Result<LineSpan, AllocError>
    requires not_before_first { first ≤ at }
    requires within { at < length scanned.now.pairs }
    requires within_limit { length scanned.now.pairs ≤ MAX_TEXT }
    requires small { length surplus.old.items ≤ at }
    requires same { length gaps.old.items ≡ length scanned.now.pairs }
    ensures line { IfOk result (λ line. IsLine scanned.now.pairs at true line) }
    ensures gaps { IfOk result (λ line.
        gaps_left scanned.now.pairs first line.past line.next_frozen
        (take line.past gaps.new.items) surplus.new.items
        ≡ gaps_left scanned.now.pairs first at true (take at gaps.old.items) surplus.old.items) }
    ensures small { IfOk result (λ line. length surplus.new.items ≤ line.past) }
    ensures same { length gaps.new.items ≡ length gaps.old.items }
{
    let line = line_at(scanned, at);
    let past = line.past as usize;
    let (opened, closed) = count_brackets(scanned, at, past);
    close_earlier(surplus, opened, closed);
    fill_kept(gaps, at, past);
    push_opened(surplus, opened, closed)?;
    Ok(line)
}

/// Sets the gaps of the line that begins at token `at` in no heredoc.
fn fill_spaced_line(
    scanned: &Scanned<'_>,
    gaps: &mut Vec<u32>,
    surplus: &mut Vec<u32>,
    first: usize,
    at: usize,
) -> Result<LineSpan, AllocError>
    requires not_before_first { first ≤ at }
    requires within { at < length scanned.now.pairs }
    requires within_limit { length scanned.now.pairs ≤ MAX_TEXT }
    requires small { length surplus.old.items ≤ at }
    requires same { length gaps.old.items ≡ length scanned.now.pairs }
    ensures line { IfOk result (λ line. IsLine scanned.now.pairs at false line) }
    ensures gaps { IfOk result (λ line.
        gaps_left scanned.now.pairs first line.past line.next_frozen
        (take line.past gaps.new.items) surplus.new.items
        ≡ gaps_left scanned.now.pairs first at false (take at gaps.old.items) surplus.old.items) }
    ensures small { IfOk result (λ line. length surplus.new.items ≤ line.past) }
    ensures same { length gaps.new.items ≡ length gaps.old.items }
{
    let passed = fill_line(scanned, gaps, first, at);
    close_earlier(surplus, passed.opened, passed.closed);
    gaps[at] = indent_len(scanned.kind(at), surplus.len() as u32);
    push_opened(surplus, passed.opened, passed.closed)?;
    Ok(passed.line)
}

/// Sets the gaps of the line that begins at token `at`, in a heredoc or not, in a text whose lines
/// begin at token `first`.
fn fill_line_gaps(
    scanned: &Scanned<'_>,
    gaps: &mut Vec<u32>,
    surplus: &mut Vec<u32>,
    first: usize,
    at: usize,
    frozen: bool,
) -> Result<LineSpan, AllocError>
    requires not_before_first { first ≤ at }
    requires within { at < length scanned.now.pairs }
    requires within_limit { length scanned.now.pairs ≤ MAX_TEXT }
    requires small { length surplus.old.items ≤ at }
    requires same { length gaps.old.items ≡ length scanned.now.pairs }
    ensures line { IfOk result (λ line. IsLine scanned.now.pairs at frozen line) }
    ensures gaps { IfOk result (λ line.
        gaps_left scanned.now.pairs first line.past line.next_frozen
        (take line.past gaps.new.items) surplus.new.items
        ≡ gaps_left scanned.now.pairs first at frozen (take at gaps.old.items) surplus.old.items) }
    ensures small { IfOk result (λ line. length surplus.new.items ≤ line.past) }
    ensures same { length gaps.new.items ≡ length gaps.old.items }
{
    if frozen {
        fill_frozen_line(scanned, gaps, surplus, first, at)
    } else {
        fill_spaced_line(scanned, gaps, surplus, first, at)
    }
}

/// Sets the gaps of a text, indented and spaced, whose first line begins at token `first`, and
/// returns its lines, of which those in turn that can have no cell are one span.
pub(crate) fn fill_base_gaps(
    alloc: Global,
    scanned: &Scanned<'_>,
    gaps: &mut Vec<u32>,
    first: usize,
) -> Result<Vec<LineSpan>, AllocError>
    requires within_limit { length scanned.now.pairs ≤ MAX_TEXT }
    requires within { first ≤ length scanned.now.pairs }
    requires same { length gaps.old.items ≡ length scanned.now.pairs }
    ensures spans { IfOk result (λ spans. AreSpans scanned.now.pairs first false spans.items) }
    ensures gaps { OnOk result
        (gaps.new.items ≡ take first gaps.old.items
        ++ all_gap_lens [] [] (lines_from 0 (drop first scanned.now.pairs))) }
{
    let mut spans = Vec::new(alloc);
    let mut surplus: Vec<u32> = Vec::new(alloc);
    let mut frozen = false;
    let mut at = first;
    while at < scanned.len() {
        let line = fill_line_gaps(scanned, gaps, &mut surplus, first, at, frozen)?;
        let span = span_of_line(scanned, at, line);
        add_span(&mut spans, span)?;
        frozen = line.next_frozen;
        at = line.past as usize;
    }
    Ok(spans)
}
