//! A `}` that is indented as if it closed another `{` than the one that it closes: a `}` may be
//! missing before it, or it may be one too many.

ghost use Rattle.std.specs.Prelude.{◌≡◌, IfOk, IfSome};
ghost use Rattle.hcl_explain.specs.Openings.{AreBraces};

use crate::explanation::Explanation;
use crate::near::{ends_line, is_kind, is_line_start};
use crate::openings::{closes, innermost_open, opens};
use hcl_scan::{Kind, Scanned};
use std::alloc::{AllocError, Global};

/// A `{` and the `}` that closes it.
#[derive(Clone, Copy)]
pub struct Braces {
    pub opening: usize,
    pub closing: usize,
}

/// Returns the braces of a `}` that may be meant for the opening which is not closed at the end of
/// the text, or for another one after it.
pub fn early_braces(
    alloc: Global,
    scanned: &Scanned<'_>,
    explanation: Explanation,
) -> Result<Option<Braces>, AllocError>
    ensures { IfOk result
        (λ o. IfSome o (λ braces. AreBraces scanned.now.pairs braces.opening braces.closing)) }
{
    let closing = early_closing(alloc, scanned, explanation)?;
    Ok(braces_of(scanned, closing))
}

/// Returns the braces of a `}` that may be too many, before token `found`, which closes nothing.
pub fn late_braces(
    alloc: Global,
    scanned: &Scanned<'_>,
    found: usize,
) -> Result<Option<Braces>, AllocError>
    ensures { IfOk result
        (λ o. IfSome o (λ braces. AreBraces scanned.now.pairs braces.opening braces.closing)) }
{
    let closing = late_closing(alloc, scanned, found)?;
    Ok(braces_of(scanned, closing))
}

/// Returns this `}` with the `{` that it closes.
fn braces_of(scanned: &Scanned<'_>, closing: Option<usize>) -> Option<Braces>
    ensures { IfSome result
        (λ braces. AreBraces scanned.now.pairs braces.opening braces.closing) }
{
    match closing {
        Some(closing) => braces_at(scanned, closing),
        None => None,
    }
}

/// Returns token `closing` with the `{` that it closes, if it is a `}`.
fn braces_at(scanned: &Scanned<'_>, closing: usize) -> Option<Braces>
    ensures { IfSome result
        (λ braces. AreBraces scanned.now.pairs braces.opening braces.closing) }
{
    if closing >= scanned.len() {
        return None;
    }
    match innermost_open(scanned, closing) {
        Some(opening) => {
            if !is_kind(scanned, closing, Kind::CloseBrace) {
                return None;
            }
            if !is_kind(scanned, opening, Kind::OpenBrace) {
                return None;
            }
            Some(Braces { opening, closing })
        }
        None => None,
    }
}

/// Returns the first `}` that closes a `{` after the opening which is not closed at the end of the
/// text, if the line of that `{` is indented more than the one of what is around it, and the `}` is
/// not. There is none after a line right in that opening that is indented no more than its own.
fn early_closing(
    alloc: Global,
    scanned: &Scanned<'_>,
    explanation: Explanation,
) -> Result<Option<usize>, AllocError> {
    if explanation.found < scanned.len() {
        return Ok(None);
    }
    let mut walk = Walk::new(alloc);
    for i in 0..scanned.len() {
        let closed = walk.step(scanned, i)?;
        if walk.is_outside(scanned, i, explanation.token) {
            return Ok(None);
        }
        if walk.is_early(scanned, i, closed, explanation.token) {
            return Ok(Some(i));
        }
    }
    Ok(None)
}

/// Returns the first `}` which closes a `{` of a line that is indented less, or after which a name
/// in no brackets begins a line that is indented more than token `found`. Only what follows the
/// last construct counts that begins in no brackets, in a line not indented more than that token.
fn late_closing(
    alloc: Global,
    scanned: &Scanned<'_>,
    found: usize,
) -> Result<Option<usize>, AllocError> {
    if !is_kind(scanned, found, Kind::CloseBrace) || !is_line_start(scanned, found) {
        return Ok(None);
    }
    let indent = indent_of(scanned, found);
    let mut walk = Walk::new(alloc);
    let mut late = None;
    for i in 0..found.min(scanned.len()) {
        let closed = walk.step(scanned, i)?;
        if walk.is_outermost(i) && walk.indent <= indent {
            late = None;
        } else if late.is_none() {
            late = walk.late(scanned, i, closed, indent);
        }
    }
    Ok(late)
}

/// Returns how many bytes are before token `i` and after the token before it.
fn indent_of(scanned: &Scanned<'_>, i: usize) -> usize {
    if i < scanned.len() {
        scanned.gap(i).len()
    } else {
        0
    }
}

/// An opening, and the indentation of its line in bytes.
#[derive(Clone, Copy)]
struct Open {
    token: usize,
    indent: usize,
}

/// A walk over the tokens of a text.
#[derive(Drop)]
struct Walk {
    /// The openings that are not closed.
    open: Vec<Open>,
    /// The indentation of the line; if it begins with what closes something, that of the line of
    /// the opening, since `}, {` may be indented more.
    indent: usize,
    /// Whether the token is the first of its line.
    is_first: bool,
    /// Whether a line ends with it.
    is_last: bool,
    /// The last token that left nothing open.
    outermost: Option<usize>,
}

impl Walk {
    fn new(alloc: Global) -> Walk {
        Walk {
            open: Vec::new(alloc),
            indent: 0,
            is_first: false,
            is_last: true,
            outermost: None,
        }
    }

    /// Goes to token `i`, the next one. Returns the opening that it closes.
    fn step(&mut self, scanned: &Scanned<'_>, i: usize) -> Result<Option<Open>, AllocError> {
        if i >= scanned.len() {
            return Ok(None);
        }
        let kind = scanned.kind(i);
        self.look(scanned, kind, i);
        if opens(kind) {
            self.open.push(Open {
                token: i,
                indent: self.indent,
            })?;
            Ok(None)
        } else if closes(kind) {
            let closed = self.open.pop();
            self.note(i, closed);
            Ok(closed)
        } else {
            Ok(None)
        }
    }

    /// Notes where token `i`, of this kind, is in its line.
    fn look(&mut self, scanned: &Scanned<'_>, kind: Kind, i: usize) {
        self.is_first = self.is_last;
        self.is_last = ends_line(kind) || kind == Kind::Mark;
        if self.is_first {
            self.indent = indent_of(scanned, i);
        }
    }

    /// Notes that token `i` closes this opening.
    fn note(&mut self, i: usize, closed: Option<Open>) {
        if let Some(closed) = closed {
            if self.is_first {
                self.indent = closed.indent;
            }
        }
        if self.open.is_empty() {
            self.outermost = Some(i);
        }
    }

    /// Whether token `i` is an opening that is in no other.
    fn is_outermost(&self, i: usize) -> bool {
        self.open.len() == 1
            && match self.open.last() {
                Some(open) => open.token == i,
                None => false,
            }
    }

    /// Whether token `i` is a name that begins a line right in the opening `from`, and that line is
    /// indented no more than the one of the opening: it may be outside of it.
    fn is_outside(&self, scanned: &Scanned<'_>, i: usize, from: usize) -> bool {
        match self.open.last() {
            Some(open) => {
                open.token == from
                    && self.is_first
                    && self.indent <= open.indent
                    && is_kind(scanned, i, Kind::Identifier)
            }
            None => false,
        }
    }

    /// Whether token `i`, which closes this opening, is a `}` that begins its line.
    fn is_brace(&self, scanned: &Scanned<'_>, i: usize, closed: Open) -> bool {
        self.is_first
            && is_kind(scanned, i, Kind::CloseBrace)
            && is_kind(scanned, closed.token, Kind::OpenBrace)
    }

    /// Whether token `i` closes this `{`, which is after token `from`, and is indented as what is
    /// around that, or less, while the `{` is indented more.
    fn is_early(&self, scanned: &Scanned<'_>, i: usize, closed: Option<Open>, from: usize) -> bool {
        match (closed, self.open.last()) {
            (Some(closed), Some(around)) => {
                closed.token > from
                    && indent_of(scanned, i) <= around.indent
                    && around.indent < closed.indent
                    && self.is_brace(scanned, i, closed)
            }
            _ => false,
        }
    }

    /// Returns token `i` if it closes this `{` and is indented more; or the last one that left
    /// nothing open, if token `i` is a name in no brackets in a line indented more than this.
    fn late(
        &self,
        scanned: &Scanned<'_>,
        i: usize,
        closed: Option<Open>,
        indent: usize,
    ) -> Option<usize> {
        match closed {
            Some(closed)
                if indent_of(scanned, i) > closed.indent && self.is_brace(scanned, i, closed) => {
                Some(i)
            }
            None if self.is_indented_name(scanned, i, indent) => self.outermost,
            _ => None,
        }
    }

    /// Whether token `i` is a name in no brackets that begins a line indented more than this.
    fn is_indented_name(&self, scanned: &Scanned<'_>, i: usize, indent: usize) -> bool {
        self.is_first
            && self.open.is_empty()
            && self.indent > indent
            && is_kind(scanned, i, Kind::Identifier)
    }
}
