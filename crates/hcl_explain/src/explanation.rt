//! The explanation of an error of a text that has tokens.

ghost use Rattle.std.specs.Prelude.{◌≡◌, ◌<◌, ◌≤◌, Some, IfSome, IfNone, true, length};
ghost use Rattle.hcl_token.specs.TokenizedText.{kind_of};
ghost use Rattle.hcl_token.specs.declared.kind.Kind.{Kind};
ghost use Rattle.hcl_text_laws.specs.Faults.{byte_offset};
ghost use Rattle.hcl_explain.specs.Openings.{closes, innermost_open, ClosesOuter};
ghost use Rattle.hcl_explain.specs.Explanations.{IsExplanation, IsSyntaxExplanation, IsAtNoToken};
ghost use Rattle.hcl_explain.specs.Explanations.{IsToken};
ghost use Rattle.hcl_explain.specs.Inner.Found.{IsOfFound, IsOtherExplanation};
ghost use Rattle.hcl_explain.specs.Explanations.{ClosesNothing};
ghost use Rattle.hcl_explain.specs.declared.explanation.Reason.TheVariants.{NotClosed, Before};

use crate::advice::{Advice, advice_for};
use crate::beginning::beginning_of;
use crate::context::{Context, context_of};
use crate::directives::{directive_advice, end_word, is_else_if, open_directive};
use crate::expected::{Expected, expected_after};
use crate::found::{byte_of, token_at};
use crate::head::label_advice;
use crate::near::kind_at;
use crate::openings::{closes, closes_any, innermost_open};
use crate::unclosed::is_not_closed;
use hcl_scan::Scanned;
use hcl_text_laws::ParseFault;

/// Why a text does not parse.
#[derive(Clone, Copy)]
pub enum Reason {
    /// An opening that is not closed.
    NotClosed,
    /// A directive `if` or `for` without its end.
    NoEnd,
    /// A construct that is nested too deep.
    TooDeep,
    /// Something was found where something else was expected.
    Expected(Expected),
    /// What was found closes nothing.
    ClosesNothing,
    /// A mistake that is often made.
    Advice(Advice),
    /// One that begins in the line before the token which was found.
    Before(Advice),
}

/// Why a text does not parse, and where that is to be printed. Tokens are numbered from 0.
#[derive(Clone, Copy)]
pub struct Explanation {
    /// The token whose place is to be printed.
    pub token: usize,
    /// The token at which the error is; how many tokens there are, if that is the end of the text.
    pub found: usize,
    pub reason: Reason,
}

/// Explains the error of a text that has tokens and does not parse. There is no explanation of an
/// allocation that failed, nor of an error that is at no token.
pub fn explain(scanned: &Scanned<'_>, fault: ParseFault) -> Option<Explanation>
    ensures said { IfSome result (IsExplanation scanned.now fault) }
    ensures all { IfNone result (IsAtNoToken scanned.now fault) }
{
    match fault {
        ParseFault::Syntax { at } => match token_at(scanned, at) {
            Some(found) => Some(explain_syntax(scanned, found)),
            None => None,
        },
        ParseFault::TooDeep { at } => match token_at(scanned, at) {
            Some(found) => Some(of_found(found, Reason::TooDeep)),
            None => None,
        },
        ParseFault::Memory => None,
    }
}

/// Returns an explanation that is printed at the token which was found.
fn of_found(found: usize, reason: Reason) -> Explanation
    ensures { result ≡ record { token = found; found = found; reason = reason } }
{
    Explanation {
        token: found,
        found,
        reason,
    }
}

/// Explains the syntax error at token `found`.
fn explain_syntax(scanned: &Scanned<'_>, found: usize) -> Explanation
    requires { found ≤ length scanned.now.pairs }
    ensures { IsSyntaxExplanation scanned.now found result }
{
    match innermost_open(scanned, found) {
        Some(opening) => explain_in(scanned, opening, found),
        None => explain_at(scanned, None, found),
    }
}

/// Explains the error at token `found`, before which this opening is the innermost.
fn explain_in(scanned: &Scanned<'_>, opening: usize, found: usize) -> Explanation
    requires innermost { innermost_open scanned.now.pairs found ≡ Some opening }
    requires before { opening < found }
    requires within { found ≤ length scanned.now.pairs }
    ensures found { result.found ≡ found }
    ensures token { IsToken scanned.now.pairs result.reason result.token found }
    ensures closing { (kind : Kind) → kind_of scanned.now.pairs found ≡ Some kind
        → closes kind ≡ true
        → (result.reason ≡ NotClosed → ClosesOuter scanned.now.pairs opening kind)
        × (ClosesOuter scanned.now.pairs opening kind → result.reason ≡ NotClosed) }
    ensures end_blamed { found ≡ length scanned.now.pairs → result.reason ≡ NotClosed }
{
    if is_not_closed(scanned, opening, found) {
        return Explanation {
            token: opening,
            found,
            reason: Reason::NotClosed,
        };
    }
    explain_at(scanned, Some(opening), found)
}

/// Explains the error at token `found` by what was expected there, in the construct of this
/// opening.
fn explain_at(scanned: &Scanned<'_>, opening: Option<usize>, found: usize) -> Explanation
    requires { found ≤ length scanned.now.pairs }
    ensures { IsOtherExplanation scanned.now.pairs found result }
{
    let context = context_of(scanned, opening);
    if matches!(context, Context::Template) {
        return in_template(scanned, first_in(opening), found);
    }
    let reason = reason_at(scanned, context, opening, found);
    match reason {
        Reason::Advice(advice) => advised(scanned, advice, found),
        _ => of_found(found, reason),
    }
}

/// Returns an explanation with this advice: at the token with which the mistake begins, or at the
/// one that was found.
fn advised(scanned: &Scanned<'_>, advice: Advice, found: usize) -> Explanation
    ensures { IsOtherExplanation scanned.now.pairs found result }
{
    match beginning_of(scanned, advice, found) {
        Some(token) => of_beginning(token, found, advice),
        None => of_found(found, Reason::Advice(advice)),
    }
}

/// Returns an explanation that is printed at the token with which the mistake begins.
fn of_beginning(token: usize, found: usize, advice: Advice) -> Explanation
    ensures { result ≡ record { token = token; found = found; reason = Before advice } }
{
    Explanation {
        token,
        found,
        reason: Reason::Before(advice),
    }
}

/// Returns the number of the first token after an opening, or of the text.
fn first_in(opening: Option<usize>) -> usize {
    match opening {
        Some(opening) => opening.saturating_add(1),
        None => 0,
    }
}

/// Returns why token `found` can't be in the construct of this opening.
fn reason_at(
    scanned: &Scanned<'_>,
    context: Context,
    opening: Option<usize>,
    found: usize,
) -> Reason
    requires { found ≤ length scanned.now.pairs }
    ensures { IsOfFound scanned.now.pairs result found }
{
    let from = first_in(opening);
    if matches!(context, Context::Label) {
        return Reason::Advice(label_advice(scanned, from));
    }
    if matches!(context, Context::Directive) && from == found {
        return at_directive_word(scanned, found);
    }
    let expected = expected_after(scanned, context, from, found);
    if closes_nothing(scanned, expected, found) {
        return Reason::ClosesNothing;
    }
    match advice_for(scanned, context, expected, found) {
        Some(advice) => Reason::Advice(advice),
        None => Reason::Expected(expected),
    }
}

/// Returns why token `found` can't be the word of a directive, in which another one is open.
fn at_directive_word(scanned: &Scanned<'_>, found: usize) -> Reason
    ensures { IsOfFound scanned.now.pairs result found }
{
    if is_else_if(scanned, found) {
        Reason::Advice(Advice::ElseIf)
    } else {
        Reason::Expected(end_word(scanned, found))
    }
}

/// Whether token `found` closes something, but nothing that is open, where a line of a body begins
/// or should end.
fn closes_nothing(scanned: &Scanned<'_>, expected: Expected, found: usize) -> bool
    requires { found ≤ length scanned.now.pairs }
    ensures { result ≡ true → ClosesNothing scanned.now.pairs found }
{
    match expected {
        Expected::Member | Expected::MemberOrBrace | Expected::ValueEnd | Expected::BlockEnd => {
            is_closing_nothing(scanned, found)
        }
        _ => false,
    }
}

/// Whether token `found` closes something, but nothing that is open before it.
fn is_closing_nothing(scanned: &Scanned<'_>, found: usize) -> bool
    requires { found ≤ length scanned.now.pairs }
    ensures { result ≡ true → ClosesNothing scanned.now.pairs found }
{
    match kind_at(scanned, found) {
        Some(kind) => {
            if !closes(kind) {
                return false;
            }
            if closes_any(scanned, found, kind) {
                return false;
            }
            true
        }
        None => false,
    }
}

/// Explains an error in literal text and directives, whose tokens begin with number `from`.
fn in_template(scanned: &Scanned<'_>, from: usize, found: usize) -> Explanation
    ensures { IsOtherExplanation scanned.now.pairs found result }
{
    match open_directive(scanned, from, found) {
        Some(token) => Explanation {
            token,
            found,
            reason: Reason::NoEnd,
        },
        None => of_found(found, Reason::Advice(directive_advice(scanned, found))),
    }
}

impl Explanation {
    /// Returns the byte to be printed.
    pub fn place(&self, scanned: &Scanned<'_>) -> usize
        ensures { result ≡ byte_offset scanned.now self.now.token }
    {
        byte_of(scanned, self.token)
    }
}
