//! Indentation: the levels of lines.

ghost use Rattle.std.specs.Prelude.{◌≡◌, ◌∷◌, ◌+◌, ◌-◌, ◌*◌, nat_lt, if◌then◌else◌, OnOk, ◌<◌, ◌≤◌, length};
ghost use Rattle.std.specs.Prelude.{reverse, slice_range};
ghost use Rattle.hcl_scan.specs.Tokenization.{MAX_TEXT};
ghost use Rattle.hcl_token.specs.Kinds.{is_opening, is_closing};
ghost use Rattle.hcl_layout.specs.Gaps.Indent.{openings, closings};
ghost use Rattle.hcl_layout.specs.Gaps.Inner.Stages.{close_brackets, close_earlier};

use hcl_scan::Scanned;
use hcl_token::Kind;
use std::alloc::AllocError;

/// What a closing bracket or template sequence adds to the brackets of a line; an opening one adds
/// 1.
pub(crate) const CLOSING: u64 = 4_294_967_296;

/// Returns what a token counts among brackets and template sequences: those that open, and
/// `CLOSING` times those that close, are one number.
pub(crate) fn bracket_number(kind: Kind) -> u64
    ensures { result ≡ (if is_opening kind then 1 else 0)
        + CLOSING * (if is_closing kind then 1 else 0) }
{
    match kind {
        Kind::OpenParen
        | Kind::OpenBracket
        | Kind::OpenBrace
        | Kind::InterpOpen
        | Kind::DirectiveOpen => 1,
        Kind::CloseParen | Kind::CloseBracket | Kind::CloseBrace | Kind::SeqClose => CLOSING,
        _ => 0,
    }
}

/// Returns how many brackets and template sequences open among the tokens `from..to`, and how many
/// close.
pub(crate) fn count_brackets(scanned: &Scanned<'_>, from: usize, to: usize) -> (u32, u32)
    requires ordered { from ≤ to }
    requires within { to ≤ length scanned.now.pairs }
    requires within_limit { length scanned.now.pairs ≤ MAX_TEXT }
    ensures opened { result.0 ≡ openings (slice_range scanned.now.pairs from to) }
    ensures closed { result.1 ≡ closings (slice_range scanned.now.pairs from to) }
{
    let mut brackets: u64 = 0;
    for i in from..to {
        brackets += bracket_number(scanned.kind(i));
    }
    ((brackets % CLOSING) as u32, (brackets / CLOSING) as u32)
}

/// Removes `closed` brackets from `surplus`, from its end on. Of each line that is still open
/// `surplus` has how many openings it has beyond those of the open line before it, in order.
pub(crate) fn close_brackets(surplus: &mut Vec<u32>, closed: u32)
    ensures remaining { reverse surplus.new.items ≡ close_brackets closed (reverse surplus.old.items) }
    ensures shorter { length surplus.new.items ≤ length surplus.old.items }
{
    let mut remaining = closed;
    while !surplus.is_empty() {
        let end = surplus.len() - 1;
        let top = surplus[end];
        if remaining < top {
            surplus[end] = top - remaining;
            return;
        }
        remaining -= top;
        surplus.pop();
    }
}

/// Removes what a line with these numbers of brackets closes of earlier lines.
pub(crate) fn close_earlier(surplus: &mut Vec<u32>, opened: u32, closed: u32)
    ensures open { reverse surplus.new.items ≡ close_earlier opened closed (reverse surplus.old.items) }
    ensures shorter { length surplus.new.items ≤ length surplus.old.items }
{
    if opened < closed {
        close_brackets(surplus, closed - opened);
    }
}

/// Pushes what a line with these numbers of brackets leaves open.
pub(crate) fn push_opened(
    surplus: &mut Vec<u32>,
    opened: u32,
    closed: u32,
) -> Result<(), AllocError>
    ensures open { OnOk result
        (reverse surplus.new.items
        ≡ (if nat_lt closed opened then (opened - closed) ∷ reverse surplus.old.items
        else reverse surplus.old.items)) }
    ensures longer { OnOk result (length surplus.new.items ≤ length surplus.old.items + 1) }
{
    if closed < opened {
        surplus.push(opened - closed)?;
    }
    Ok(())
}
