//! A line in one pass: its end, its flags, its brackets and the gaps inside it. For speed alone: it
//! counts what `indent::count_brackets` counts, and sets what `spacing_flags::gap_len` returns.

ghost use Rattle.std.specs.Prelude.{◌≡◌, ◌==◌, ◌+◌, ◌*◌, ◌/◌, ◌%◌, ◌<◌, ◌≤◌, ◌++◌, not, [], ◌∷◌, false};
ghost use Rattle.std.specs.Prelude.{length, slice_range, take, if◌then◌else◌};
ghost use Rattle.hcl_scan.specs.Tokenization.{MAX_TEXT};
ghost use Rattle.hcl_layout.specs.Gaps.Indent.{openings, closings};
ghost use Rattle.hcl_layout.specs.Gaps.Kinds.{is_equal};
ghost use Rattle.hcl_layout.specs.Gaps.Lines.{ends_line};
ghost use Rattle.hcl_layout.specs.Gaps.Space.{prev_after_all};
ghost use Rattle.hcl_token.specs.Kinds.{is_comment};
ghost use Rattle.hcl_layout.specs.Gaps.Inner.CodeViews.{IsLine};
ghost use Rattle.hcl_layout.specs.Gaps.Inner.Stages.{spaces_from};

use crate::gaps::indent::{CLOSING, bracket_number};
use crate::gaps::kinds::is_here_open;
use crate::gaps::lines::LineSpan;
use crate::gaps::spacing_flags::gap_len;
use hcl_scan::Scanned;
use hcl_token::Kind;

/// What a `=` adds to the marks of a line; a comment adds 1.
const EQUALS: u64 = 1_073_741_824;

/// What the end of a line adds to its marks: more than all comments and `=` of a text.
const LINE_END: u64 = 9_223_372_036_854_775_808;

/// A line, and its brackets.
#[derive(Clone, Copy)]
pub(crate) struct PassedLine {
    pub line: LineSpan,
    pub opened: u32,
    pub closed: u32,
}

/// Returns what a token counts among the marks of a line: comments, `EQUALS` times the `=`, and
/// `LINE_END` for its end are one number.
fn mark_number(kind: Kind) -> u64
    ensures { result ≡ (if is_comment kind then 1 else 0) + EQUALS * (if is_equal kind then 1 else 0)
        + LINE_END * (if ends_line 0 kind then 1 else 0) }
{
    match kind {
        Kind::LineComment | Kind::InlineComment => 1,
        Kind::Equal => EQUALS,
        Kind::LineEnd | Kind::HereOpen => LINE_END,
        _ => 0,
    }
}

/// Returns the line that ends before token `past`, by what its tokens add up to.
fn passed_line(brackets: u64, marks: u64, past: usize, next_frozen: bool) -> PassedLine
    requires { past ≤ MAX_TEXT }
    ensures past { result.line.past ≡ past }
    ensures next_frozen { result.line.next_frozen ≡ next_frozen }
    ensures is_balanced { result.line.is_balanced ≡ (brackets % CLOSING == brackets / CLOSING) }
    ensures has_comment { result.line.has_comment ≡ not (marks % EQUALS == 0) }
    ensures has_equals { result.line.has_equals ≡ not (marks / EQUALS % EQUALS == 0) }
    ensures opened { result.opened ≡ brackets % CLOSING }
    ensures closed { result.closed ≡ brackets / CLOSING }
{
    PassedLine {
        line: LineSpan {
            past: past as u32,
            next_frozen,
            is_balanced: brackets % CLOSING == brackets / CLOSING,
            has_comment: marks % EQUALS != 0,
            has_equals: marks / EQUALS % EQUALS != 0,
        },
        opened: (brackets % CLOSING) as u32,
        closed: (brackets / CLOSING) as u32,
    }
}

/// Sets the number of each token of the line that begins at token `at` in no heredoc: 0 for the
/// first, and those of the gaps inside the line.
pub(crate) fn fill_line(
    scanned: &Scanned<'_>,
    gaps: &mut Vec<u32>,
    first: usize,
    at: usize,
) -> PassedLine
    requires same { length gaps.old.items ≡ length scanned.now.pairs }
    requires not_before_first { first ≤ at }
    requires within { at < length scanned.now.pairs }
    requires within_limit { length scanned.now.pairs ≤ MAX_TEXT }
    ensures line { IsLine scanned.now.pairs at false result.line }
    ensures opened { result.opened ≡ openings (slice_range scanned.now.pairs at result.line.past) }
    ensures closed { result.closed ≡ closings (slice_range scanned.now.pairs at result.line.past) }
    ensures gaps { take result.line.past gaps.new.items ≡ take at gaps.old.items
        ++ 0 ∷ spaces_from (prev_after_all (slice_range scanned.now.pairs first at) [])
        (slice_range scanned.now.pairs at result.line.past) }
    ensures same { length gaps.new.items ≡ length gaps.old.items }
{
    let mut brackets: u64 = 0;
    let mut marks: u64 = 0;
    let mut a = scanned.kind(at);
    gaps[at] = 0;
    for i in at + 1..scanned.len() {
        brackets += bracket_number(a);
        marks += mark_number(a);
        if marks >= LINE_END {
            return passed_line(brackets, marks, i, is_here_open(a));
        }
        let b = scanned.kind(i);
        gaps[i] = gap_len(scanned, first, a, b, i);
        a = b;
    }
    brackets += bracket_number(a);
    marks += mark_number(a);
    passed_line(brackets, marks, scanned.len(), is_here_open(a))
}
