//! The lines of a text.

ghost use Rattle.std.specs.Prelude.{true, ◌≡◌, ◌<◌, ◌≤◌, length};
ghost use Rattle.hcl_scan.specs.Tokenization.{MAX_TEXT};
ghost use Rattle.hcl_layout.specs.Gaps.Lines.{heredocs_after, ends_line};
ghost use Rattle.hcl_layout.specs.Gaps.Inner.CodeViews.{IsLine};

use crate::gaps::kinds::is_here_open;
use hcl_scan::Scanned;
use hcl_token::Kind;

/// A line, or several in turn that have no cell. It begins where the one before it ends.
#[derive(Clone, Copy)]
pub(crate) struct LineSpan {
    /// The number after that of its last token.
    pub past: u32,
    /// Whether the next line begins in a heredoc.
    pub next_frozen: bool,
    /// Whether its brackets and template sequences close as often as they open.
    pub is_balanced: bool,
    /// Whether it has a comment.
    pub has_comment: bool,
    /// Whether it has a `=`.
    pub has_equals: bool,
}

/// Returns how many heredocs are open after a token of this kind.
fn heredocs_after(open_heredocs: usize, kind: Kind) -> usize
    requires { open_heredocs ≤ MAX_TEXT }
    ensures { result ≡ heredocs_after open_heredocs kind }
{
    match kind {
        Kind::HereOpen => open_heredocs + 1,
        Kind::HereClose => open_heredocs.saturating_sub(1),
        _ => open_heredocs,
    }
}

/// Whether a token of this kind ends its line, with `open_heredocs` heredocs open before it.
fn ends_line(open_heredocs: usize, kind: Kind) -> bool
    ensures { result ≡ ends_line open_heredocs kind }
{
    match kind {
        Kind::LineEnd => open_heredocs == 0,
        Kind::HereOpen => open_heredocs == 0,
        _ => false,
    }
}

/// Returns the line that begins at token `at` in a heredoc. Its flags are false, so that no cell is
/// looked for in it: a line of a heredoc has none.
pub(crate) fn line_at(scanned: &Scanned<'_>, at: usize) -> LineSpan
    requires within { at < length scanned.now.pairs }
    requires within_limit { length scanned.now.pairs ≤ MAX_TEXT }
    ensures { IsLine scanned.now.pairs at true result }
{
    let mut open_heredocs = 1;
    for i in at..scanned.len() {
        let kind = scanned.kind(i);
        if ends_line(open_heredocs, kind) {
            return LineSpan {
                past: (i + 1) as u32,
                next_frozen: is_here_open(kind),
                is_balanced: false,
                has_comment: false,
                has_equals: false,
            };
        }
        open_heredocs = heredocs_after(open_heredocs, kind);
    }
    LineSpan {
        past: scanned.len() as u32,
        next_frozen: false,
        is_balanced: false,
        has_comment: false,
        has_equals: false,
    }
}
