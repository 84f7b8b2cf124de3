//! All issues of a text.

ghost use Rattle.std.specs.Prelude.{◌≡◌, ◌++◌, [], ◌∷◌, ◌<◌, length, map, string_bytes, IfOk, IfErr};
ghost use Rattle.hcl_token.specs.Place.{place_of};
ghost use Rattle.tf_rules.specs.ValidFindings.{AreValidFindings};
ghost use Rattle.tf_lint.specs.Issues.{reports, AreIssues};
ghost use Rattle.tf_lint.specs.Reports.{report_of, report_lines};
ghost use Rattle.tf_fix.specs.declared.fault.LintFault.TheVariants.{Memory};

use crate::issue::Issue;
use crate::report_line::add_line;
use hcl_grammar::tree::Tree;
use hcl_scan::{Places, Scanned};
use hcl_token::Place;
use std::alloc::{AllocError, Global};
use tf_findings::findings;
use tf_fix::LintFault;
use tf_rules::{Finding, RuleSet};

/// Returns the issues of the rules in the set, by place, then by rule, then the longer first;
/// without what comments silence. The tree is that of the text.
///
/// # Errors
///
/// `Memory`.
pub fn issues(
    alloc: Global,
    scanned: &Scanned<'_>,
    tree: &Tree,
    rules: RuleSet,
) -> Result<Vec<Issue>, LintFault>
    ensures ok { IfOk result
        (λ issues. AreIssues rules scanned.now.pairs tree.now.body.members issues.items) }
    ensures err { IfErr result (λ fault. fault ≡ Memory) }
{
    let found = findings(alloc, scanned, tree, rules)?;
    let issues = issues_of(alloc, scanned, found.as_slice())?;
    Ok(issues)
}

/// Returns the issue of each of these findings in a text, in their order. For no findings nothing
/// is allocated.
///
/// # Errors
///
/// `Memory`.
pub fn issues_of(
    alloc: Global,
    scanned: &Scanned<'_>,
    found: &[Finding],
) -> Result<Vec<Issue>, LintFault>
    requires { AreValidFindings (length scanned.now.pairs) found.now }
    ensures ok { IfOk result
        (λ issues. reports issues.items ≡ map (report_of scanned.now.pairs) found.now) }
    ensures err { IfErr result (λ fault. fault ≡ Memory) }
    ensures allocates { IfErr result (λ _. 0 < length found.now) }
{
    if found.is_empty() {
        return Ok(Vec::new(alloc));
    }
    let mut issues = Vec::with_capacity(alloc, found.len())?;
    let mut places = scanned.places();
    for finding in found {
        let place = places.of(finding.first() as usize);
        let issue = Issue::of(alloc, scanned, finding, place)?;
        issues.push(issue)?;
    }
    Ok(issues)
}

/// A capacity for the line of an issue without the name of its file: enough for the longest words
/// of a rule and for any place, if the names that it quotes are short.
const LINE_CAPACITY: usize = 128;

/// Returns an empty text with capacity for the lines of `count` issues, since a text that grows
/// leaves smaller freed blocks. Longer lines make it grow.
fn with_line_capacity(alloc: Global, name: &str, count: usize) -> Result<String, AllocError>
    ensures { IfOk result (λ lines. string_bytes lines ≡ []) }
{
    let capacity = name
        .len()
        .saturating_add(LINE_CAPACITY)
        .saturating_mul(count);
    String::with_capacity(alloc, capacity)
}

/// Returns the place of token `first`, if `place` is that of token `last`: several findings may
/// begin at one token.
fn next_place(places: &mut Places<'_>, last: u32, place: Place, first: u32) -> Place
    requires place { place ≡ place_of places.old last }
    requires within { first < length places.old }
    ensures place { result ≡ place_of places.old first }
    ensures same { places.new ≡ places.old }
{
    if first == last {
        return place;
    }
    places.of(first as usize)
}

/// Returns a report on the file of this name: the line of the issue of each of these findings in a
/// text, in their order, each followed by LF. No issue is made for it, and for no findings nothing
/// is allocated.
///
/// # Errors
///
/// `AllocError` if memory runs out.
pub fn lines_of_findings(
    alloc: Global,
    name: &str,
    scanned: &Scanned<'_>,
    found: &[Finding],
) -> Result<String, AllocError>
    requires { AreValidFindings (length scanned.now.pairs) found.now }
    ensures lines { IfOk result
        (λ lines. string_bytes lines
        ≡ report_lines name.now (map (report_of scanned.now.pairs) found.now)) }
    ensures allocates { IfErr result (λ _. 0 < length found.now) }
{
    if found.is_empty() {
        return Ok(String::new(alloc));
    }
    let mut lines = with_line_capacity(alloc, name, found.len())?;
    let mut places = scanned.places();
    let mut last = found[0].first();
    let mut place = places.of(last as usize);
    for finding in found {
        let first = finding.first();
        place = next_place(&mut places, last, place, first);
        last = first;
        add_line(name, scanned, finding, place, &mut lines)?;
    }
    Ok(lines)
}
