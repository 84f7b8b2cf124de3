//! Rules, what they find, issues and the steps of fixes.

use crate::actual::Answer;
use crate::parses::read;
use crate::records::turned;
use crate::row::Row;
use edit_record::{Change, Edits};
use hcl_scan::{Scanned, scan};
use hcl_tree::{Tree, parse};
use std::alloc::Global;
use std::fmt::Write;
use tf_findings::findings;
use tf_lint::{
    Finding, FixResult, Issue, LintFault, Place, Rule, RuleSet, fix_step, fix_text, issues,
};

pub fn answer(row: &Row, out: &mut Answer) {
    match row.word(0) {
        "rule" => rule(row.word(1), out),
        "set" => names(set_of(row.word(1)), out),
        "line" => line(row, out),
        "issues" | "findings" => read(row, row.text(2), out),
        "fix" => fix(row, out),
        "step" => step(row, out),
        _ => out.show(&LintFault::Memory),
    }
}

/// The rule of this name, and the weight of its issues.
fn rule(name: &str, out: &mut Answer) {
    match Rule::by_name(name) {
        Some(rule) => {
            out.put(rule.name());
            out.put(": ");
            out.put(rule.severity().label());
        }
        None => out.put("no rule"),
    }
}

/// A set: `all`, `none`, `+RULE` (that one alone) or `-RULE` (all others); any other word is
/// none.
fn set_of(spelling: &str) -> RuleSet {
    if let Some(rule) = spelling.strip_prefix('+').and_then(Rule::by_name) {
        return RuleSet::none().with(rule);
    }
    if let Some(rule) = spelling.strip_prefix('-').and_then(Rule::by_name) {
        return RuleSet::all().without(rule);
    }
    if spelling == "all" {
        RuleSet::all()
    } else {
        RuleSet::none()
    }
}

fn names(set: RuleSet, out: &mut Answer) {
    for rule in Rule::ALL {
        if set.has(rule) {
            out.put(rule.name());
            out.put(" ");
        }
    }
}

fn line(row: &Row, out: &mut Answer) {
    let mut text = String::new(out.alloc);
    let is_put = text.push_str(row.word(4)).is_ok();
    out.hold(is_put, "a text is too long");
    let issue = Issue {
        rule: Rule::by_name(row.word(1)).unwrap_or(Rule::CommentSyntax),
        first: 0,
        past: 1,
        place: Place {
            line: row.number(2),
            column: row.number(3),
        },
        text,
        fixable: false,
    };
    write_line(&issue, row.word(5), out);
}

fn write_line(issue: &Issue, file: &str, out: &mut Answer) {
    match issue.line(out.alloc, file) {
        Ok(line) => out.put(line.as_str()),
        Err(fault) => out.refuse(&fault),
    }
}

/// The issues of a text, or what the rules find in it.
pub fn searched(row: &Row, scanned: &Scanned<'_>, tree: &Tree, out: &mut Answer) {
    let rules = set_of(row.word(1));
    if row.word(0) == "issues" {
        match issues(out.alloc, scanned, tree, rules) {
            Ok(issues) => write_issue_tokens(&issues, out),
            Err(fault) => out.refuse(&fault),
        }
    } else {
        match findings(out.alloc, scanned, tree, rules) {
            Ok(found) => write_findings(&found, scanned, out),
            Err(fault) => out.refuse(&fault),
        }
    }
}

fn write_findings(found: &[Finding], scanned: &Scanned<'_>, out: &mut Answer) {
    let mut places = scanned.places();
    for finding in found {
        let first = finding.first() as usize;
        if first >= scanned.len() {
            return out.put("no such token");
        }
        write_finding(finding, places.of(first), out);
        out.put("; ");
    }
}

/// Its place, its rule, its tokens, whether it is fixable, what its message names, and its fix.
fn write_finding(found: &Finding, place: Place, out: &mut Answer) {
    let (line, column, rule) = (place.line, place.column, found.rule().name());
    let (first, past, message, fix) = (found.first(), found.past(), found.message(), found.fix());
    let fixable = if found.is_fixable() {
        "fixable"
    } else {
        "not fixable"
    };
    let _ = write!(
        out,
        "{line}:{column} {rule} {first}..{past} {fixable} {message:?} {fix:?}"
    );
}

/// For each issue its tokens, whether it can be fixed, and its line.
fn write_issue_tokens(issues: &[Issue], out: &mut Answer) {
    for issue in issues {
        let (first, past, fixable) = (issue.first, issue.past, issue.fixable);
        let _ = write!(out, "{first} {past} {fixable} ");
        write_line(issue, "f", out);
        out.put("; ");
    }
}

/// What the fix of one rule makes of a text.
fn fix(row: &Row, out: &mut Answer) {
    let Some(rule) = Rule::by_name(row.word(1)) else {
        return out.put("no rule");
    };
    match fix_text(out.alloc, row.text(2), RuleSet::none().with(rule)) {
        Ok(fixed) => write_new_text(row, &fixed, out),
        Err(fault) => out.refuse(&fault),
    }
}

/// The new text, whose edits have to undo to the old one.
fn write_new_text(row: &Row, fixed: &FixResult, out: &mut Answer) {
    match &fixed.change {
        Some(change) => {
            turned(&change.edits, "both", row.text(2), out);
            out.hold(
                out.text() == change.text.as_slice(),
                "the edits make another text",
            );
        }
        None => out.put_bytes(row.text(2)),
    }
}

/// The step of one rule over a text with its tree.
fn step(row: &Row, out: &mut Answer) {
    let Some(rule) = Rule::by_name(row.word(1)) else {
        return out.put("no rule");
    };
    match scan(out.alloc, row.text(2)) {
        Ok(scanned) => match parse(out.alloc, &scanned) {
            Ok(tree) => match fix_step(out.alloc, &scanned, &tree, rule) {
                Ok(edits) => write_step(row, rule, &edits, out),
                Err(fault) => out.refuse(&fault),
            },
            Err(fault) => out.refuse(&fault),
        },
        Err(fault) => out.refuse(&fault),
    }
}

/// How many issues a fix by this rule alone resolves, and how many edits its step makes, which have
/// to make the text that the fix makes.
fn write_step(row: &Row, rule: Rule, edits: &Edits, out: &mut Answer) {
    match fix_text(out.alloc, row.text(2), RuleSet::none().with(rule)) {
        Ok(fixed) => {
            let (issues, count) = (fixed.fixed, edits.edits().len());
            let _ = write!(out, "{issues} {count}");
            let is_made = makes_fixed_text(out.alloc, edits, row.text(2), &fixed);
            out.hold(is_made, ", and the edits make another text");
        }
        Err(fault) => out.refuse(&fault),
    }
}

/// Whether the edits of a step make of a text what the fix makes of it.
fn makes_fixed_text(alloc: Global, edits: &Edits, text: &[u8], fixed: &FixResult) -> bool {
    match edits.apply(alloc, text) {
        Ok(new) => is_new_text(fixed, text, &new),
        Err(_) => false,
    }
}

/// Whether a fix makes this of a text.
fn is_new_text(fixed: &FixResult, text: &[u8], new: &[u8]) -> bool {
    match &fixed.change {
        Some(change) => change.text.as_slice() == new,
        None => text == new,
    }
}
