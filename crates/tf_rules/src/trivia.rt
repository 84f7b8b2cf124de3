//! Some of a text's tokens.

ghost use Rattle.std.specs.Prelude.{◌≡◌, ◌==◌, ◌&&◌, ◌<◌, ◌≤◌, ◌+◌, ◌^◌};
ghost use Rattle.hcl_token.specs.Kinds.{is_opening, is_closing};
ghost use Rattle.tf_rules.specs.Trivia.{token_range, is_line_break, is_trivia, depth_after, has_line_break};
ghost use Rattle.tf_rules.specs.Trivia.{has_trivia, is_here_close};

use hcl_scan::Scanned;
use hcl_token::Kind;

/// Whether the kind is a line end or, with `count_comments`, a line comment.
pub fn is_line_break(count_comments: bool, kind: Kind) -> bool
    ensures { result ≡ is_line_break count_comments kind }
{
    match kind {
        Kind::LineEnd => true,
        Kind::LineComment => count_comments,
        _ => false,
    }
}

/// Whether the kind is a line end or a comment.
fn is_trivia(kind: Kind) -> bool
    ensures { result ≡ is_trivia kind }
{
    match kind {
        Kind::LineEnd | Kind::LineComment | Kind::InlineComment => true,
        _ => false,
    }
}

/// Whether the kind opens a bracket or a template sequence.
fn is_opening(kind: Kind) -> bool
    ensures { result ≡ is_opening kind }
{
    match kind {
        Kind::OpenParen
        | Kind::OpenBracket
        | Kind::OpenBrace
        | Kind::InterpOpen
        | Kind::DirectiveOpen => true,
        _ => false,
    }
}

/// Whether the kind closes a bracket or a template sequence.
fn is_closing(kind: Kind) -> bool
    ensures { result ≡ is_closing kind }
{
    match kind {
        Kind::CloseParen | Kind::CloseBracket | Kind::CloseBrace | Kind::SeqClose => true,
        _ => false,
    }
}

/// Whether the kind breaks a line outside of brackets, where `depth` of them are open.
fn is_outer_line_break(count_comments: bool, depth: usize, kind: Kind) -> bool
    ensures { result ≡ (depth == 0 && is_line_break count_comments kind) }
{
    depth == 0 && is_line_break(count_comments, kind)
}

/// Returns how many brackets and sequences are open after a token, if `depth` are before it.
fn depth_after(kind: Kind, depth: usize) -> usize
    requires { depth + 1 < 2 ^ 64 }
    ensures value { result ≡ depth_after kind depth }
    ensures bound { result ≤ depth + 1 }
{
    if is_opening(kind) {
        return depth + 1;
    }
    if is_closing(kind) {
        return depth.saturating_sub(1);
    }
    depth
}

/// Returns whether a comment or a line end is among the tokens.
pub fn has_trivia(scanned: &Scanned<'_>, first: u32, past: u32) -> bool
    ensures { result ≡ has_trivia (token_range scanned.now.pairs first past) }
{
    for i in first..past.min(scanned.count()) {
        if is_trivia(scanned.kind(i as usize)) {
            return true;
        }
    }
    false
}

/// Returns whether the tokens contain a line end, or, with `count_comments`, a line comment,
/// outside of brackets and template sequences that open among them.
pub fn has_line_break(scanned: &Scanned<'_>, count_comments: bool, first: u32, past: u32) -> bool
    ensures { result ≡ has_line_break count_comments 0 (token_range scanned.now.pairs first past) }
{
    let mut depth = 0usize;
    for i in first..past.min(scanned.count()) {
        let kind = scanned.kind(i as usize);
        if is_outer_line_break(count_comments, depth, kind) {
            return true;
        }
        depth = depth_after(kind, depth);
    }
    false
}

/// Whether token `i` is the closing line of a heredoc.
pub fn is_here_close(scanned: &Scanned<'_>, i: u32) -> bool
    ensures { result ≡ is_here_close scanned.now.pairs i }
{
    if i >= scanned.count() {
        return false;
    }
    match scanned.kind(i as usize) {
        Kind::HereClose => true,
        _ => false,
    }
}
