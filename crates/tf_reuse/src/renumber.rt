//! Findings with other numbers.

ghost use Rattle.std.specs.Prelude.{◌≡◌, map, IfOk};
ghost use Rattle.std.specs.Option.{option_map};
ghost use Rattle.tf_reuse.specs.Renumbering as spec;
ghost use Rattle.tf_reuse.specs.Renumbering.{renumber_finding};

use std::alloc::{AllocError, Global};
use tf_rules::{Finding, Fix, KeptTokens, Message};

/// Returns the number of a token, if the tokens from number `from` on were moved to number `to`.
fn renumber(number: u32, from: u32, to: u32) -> u32
    ensures { result ≡ spec.renumber from to number }
{
    to.saturating_add(number.saturating_sub(from))
}

/// Returns the tokens that a fix keeps, if any, with their numbers moved as `renumber` moves them.
fn renumber_kept(kept: Option<KeptTokens>, from: u32, to: u32) -> Option<KeptTokens>
    ensures { result ≡ option_map (spec.renumber_kept from to) kept }
{
    match kept {
        None => None,
        Some(kept) => Some(KeptTokens {
            from: renumber(kept.from, from, to),
            to: renumber(kept.to, from, to),
            after: kept.after,
        }),
    }
}

/// Returns a fix with the numbers of the tokens that it keeps moved.
fn renumber_fix(fix: Fix, from: u32, to: u32) -> Fix
    ensures { result ≡ spec.renumber_fix from to fix }
{
    match fix {
        Fix::CommentMarker => Fix::CommentMarker,
        Fix::Tokens { before, kept } => Fix::Tokens {
            before,
            kept: kept.map(
                |one: Option<KeptTokens>| -> Option<KeptTokens>
                    ensures { result ≡ option_map (spec.renumber_kept from to) one }
                { renumber_kept(one, from, to) },
            ),
        },
    }
}

/// Returns a fix with its numbers moved, or `None` for `None`.
fn renumber_optional_fix(fix: Option<Fix>, from: u32, to: u32) -> Option<Fix>
    ensures { result ≡ option_map (spec.renumber_fix from to) fix }
{
    match fix {
        None => None,
        Some(fix) => Some(renumber_fix(fix, from, to)),
    }
}

/// Returns a message with the number of the token that it names, if any, moved.
fn renumber_message(message: Message, from: u32, to: u32) -> Message
    ensures { result ≡ spec.renumber_message from to message }
{
    let name = match message.name {
        Some(number) => Some(renumber(number, from, to)),
        None => None,
    };
    Message {
        kind: message.kind,
        name,
    }
}

/// Returns a finding with all its numbers of tokens moved: its own, its message's and its fix's.
fn renumber_finding(finding: &Finding, from: u32, to: u32) -> Finding
    ensures { result ≡ spec.renumber_finding from to finding.now }
{
    let first = renumber(finding.first(), from, to);
    let past = renumber(finding.past(), from, to);
    let message = renumber_message(finding.message(), from, to);
    let fix = renumber_optional_fix(finding.fix(), from, to);
    Finding::new(finding.rule(), first, past, message, fix)
}

/// Returns the findings in tokens that were moved from number `from` to number `to`.
///
/// # Errors
///
/// `AllocError` if memory runs out.
pub fn renumber_findings(
    alloc: Global,
    findings: &[Finding],
    from: u32,
    to: u32,
) -> Result<Vec<Finding>, AllocError>
    ensures { IfOk result (λ found. found.items ≡ map (renumber_finding from to) findings.now) }
{
    let mut all = Vec::with_capacity(alloc, findings.len())?;
    for finding in findings {
        all.push(renumber_finding(finding, from, to))?;
    }
    Ok(all)
}
