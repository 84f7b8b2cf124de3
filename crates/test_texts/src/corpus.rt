//! Terraform sources: what the rules find in each, and the result of fixing it, formatting it and
//! reverting that.
//!
//! The file `corpus/expected` has a line for each text: the name of its file, how many issues of
//! each rule it has, and how many are left once nothing can be fixed any more. What is printed are
//! the texts with another result, what occurs in none of them, and that no text is lost.

mod counts;
mod coverage;
mod fix_until_done;
mod sessions;
mod take_command;
mod token_forms;
mod walk;

use crate::report::{Report, print_least};
use anyhow::Result;
use counts::Tally;
use coverage::Coverage;
use hcl_scan::{Scanned, scan};
use hcl_tree::parse;
use std::fmt::Write;
use std::fs;
use tf_lint::{RuleSet, issues};

/// Tries all of them.
pub fn run(rt: &HostRuntime) -> Result<()> {
    let expected = fs::read_to_string(rt, "corpus/expected")?;
    let mut seen = Coverage::new();
    let mut tally = Tally::new();
    let mut count = 0usize;
    for line in expected.lines() {
        try_one(rt, line, &mut seen, &mut tally)?;
        count = count.saturating_add(1);
    }
    seen.print_missing(rt)?;
    tally.print_rare(rt)?;
    print_least(rt, count, 50, "texts")
}

fn try_one(rt: &HostRuntime, line: &str, seen: &mut Coverage, tally: &mut Tally) -> Result<()> {
    let (name, _) = line.split_once(' ').unwrap_or((line, ""));
    let mut report = Report::new(rt.alloc());
    let file = format!(in report.alloc; "corpus/{name}")?;
    let text = fs::read(rt, file.as_str())?;
    let found = line_of(name, &text, seen, tally, &mut report);
    print_difference(rt, line, found.as_str(), &report)
}

/// Reports a text whose result differs from its line.
fn print_difference(rt: &HostRuntime, line: &str, found: &str, report: &Report) -> Result<()> {
    if found != line {
        println!(rt; "{line}\n  found: {found}")?;
    }
    if let Some(wrong) = report.wrong() {
        println!(rt; "{line}\n  {wrong}")?;
    }
    Ok(())
}

/// The line of a text.
fn line_of(
    name: &str,
    text: &[u8],
    seen: &mut Coverage,
    tally: &mut Tally,
    report: &mut Report,
) -> String {
    let mut line = String::new(report.alloc);
    let has_name = line.push_str(name).is_ok();
    look(text, &mut line, seen, tally, report);
    let left = fix_until_done::run(text, seen, report);
    let has_left = write!(line, " left={left}").is_ok();
    report.hold(has_name && has_left, "memory is wanting");
    line
}

/// Notes what occurs in a text, and writes how many issues of each rule it has after its line.
fn look(
    text: &[u8],
    line: &mut String,
    seen: &mut Coverage,
    tally: &mut Tally,
    report: &mut Report,
) {
    match scan(report.alloc, text) {
        Ok(scanned) => look_at(&scanned, line, seen, tally, report),
        Err(_) => report.hold(false, "it has no tokens"),
    }
}

fn look_at(
    scanned: &Scanned<'_>,
    line: &mut String,
    seen: &mut Coverage,
    tally: &mut Tally,
    report: &mut Report,
) {
    match parse(report.alloc, scanned) {
        Ok(tree) => {
            token_forms::see(scanned, seen);
            walk::see(scanned, &tree, seen, report);
            match issues(report.alloc, scanned, &tree, RuleSet::all()) {
                Ok(found) => {
                    tally.add(&found);
                    counts::write_counts(&found, line, report);
                }
                Err(_) => report.hold(false, "its issues are not found"),
            }
        }
        Err(_) => report.hold(false, "it has no tree"),
    }
}
