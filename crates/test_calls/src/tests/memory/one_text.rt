//! Calls on one text: its tokens, its tree, its layout, its issues.

use super::equality::are_same_edits;
use super::fixtures::{SHORT, TEXT, changed, session_of};
use super::{answered, begin};
use crate::tests::given;
use hcl_layout::LayoutFault;
use hcl_scan::ScanFault;
use hcl_tree::ParseFault;
use std::alloc::AllocError;
use tf_lint::{FixFault, LintFault, NewText, Place, Rule, RuleSet};
use tf_session::{Command, issue_lines};

#[test]
fn scan(rt: HostRuntime) {
    let [marked, heredoc] = SHORT;
    let count = given(&rt, hcl_scan::scan(rt.alloc(), TEXT)).len();
    begin(&rt);
    for (text, count) in [(TEXT, count), (marked, 4), (heredoc, 6)] {
        let answer = hcl_scan::scan(rt.alloc(), text);
        let scanned = answered(&rt, answer, ScanFault::Memory, true);
        assert!(rt; scanned.len() == count);
    }
}

#[test]
fn parse(rt: HostRuntime) {
    let scanned = given(&rt, hcl_scan::scan(rt.alloc(), TEXT));
    begin(&rt);
    let answer = hcl_tree::parse(rt.alloc(), &scanned);
    let tree = answered(&rt, answer, ParseFault::Memory, true);
    assert!(rt; tree.past as usize == scanned.len());
    assert!(rt; tree.body.members.len() == 5);
}

#[test]
fn layout(rt: HostRuntime) {
    let scanned = given(&rt, hcl_scan::scan(rt.alloc(), TEXT));
    let tree = given(&rt, hcl_tree::parse(rt.alloc(), &scanned));
    let right = given(&rt, hcl_layout::layout(rt.alloc(), &scanned, &tree));
    begin(&rt);
    let answer = hcl_layout::layout(rt.alloc(), &scanned, &tree);
    let edits = answered(&rt, answer, LayoutFault::Memory, true);
    assert!(rt; are_same_edits(&edits, &right));
}

#[test]
fn formatted_text(rt: HostRuntime) {
    let (session, _) = changed(&rt, TEXT, b"", Command::Fmt);
    let scanned = given(&rt, hcl_scan::scan(rt.alloc(), TEXT));
    // for the proof: the text parses
    let _tree = given(&rt, hcl_tree::parse(rt.alloc(), &scanned));
    begin(&rt);
    let answer = hcl_layout::formatted_text(rt.alloc(), &scanned);
    let text = answered(&rt, answer, LayoutFault::Memory, true);
    assert!(rt; text.as_slice() == session.text());
}

#[test]
fn is_laid_out(rt: HostRuntime) {
    let (session, _) = changed(&rt, TEXT, b"", Command::Fmt);
    let scanned = given(&rt, hcl_scan::scan(rt.alloc(), session.text()));
    let tree = given(&rt, hcl_tree::parse(rt.alloc(), &scanned));
    begin(&rt);
    let answer = hcl_layout::is_laid_out(rt.alloc(), &scanned, &tree);
    assert!(rt; answered(&rt, answer, LayoutFault::Memory, true));
}

#[test]
fn issues(rt: HostRuntime) {
    let scanned = given(&rt, hcl_scan::scan(rt.alloc(), TEXT));
    let tree = given(&rt, hcl_tree::parse(rt.alloc(), &scanned));
    let right = tf_lint::issues(rt.alloc(), &scanned, &tree, RuleSet::all());
    let right = given(&rt, right);
    begin(&rt);
    let answer = tf_lint::issues(rt.alloc(), &scanned, &tree, RuleSet::all());
    let found = answered(&rt, answer, LintFault::Memory, true);
    assert!(rt; found.len() == right.len());
}

#[test]
fn search_text(rt: HostRuntime) {
    let right = tf_lint::lint_text(rt.alloc(), TEXT, RuleSet::all(), false);
    let right = given(&rt, right);
    begin(&rt);
    let answer = tf_lint::lint_text(rt.alloc(), TEXT, RuleSet::all(), false);
    let searched = answered(&rt, answer, FixFault::Memory, true);
    assert!(rt; searched.found.len() == right.found.len());
}

#[test]
fn issue_line(rt: HostRuntime) {
    let scanned = given(&rt, hcl_scan::scan(rt.alloc(), b"a = 1 // one"));
    let tree = given(&rt, hcl_tree::parse(rt.alloc(), &scanned));
    let found = tf_lint::issues(rt.alloc(), &scanned, &tree, RuleSet::all());
    let found = given(&rt, found);
    let issue = found.first().expect(&rt, "there is no issue");
    assert!(rt; found.len() == 1);
    begin(&rt);
    let answer = issue.line(rt.alloc(), "main.tf");
    let is_as_before = issue.place == Place { line: 1, column: 7 };
    let line = answered(&rt, answer, AllocError, is_as_before);
    let right =
        "main.tf:1:7: Warning - Single line comments should begin with # (terraform_comment_syntax)";
    assert!(rt; line.as_str() == right);
}

#[test]
fn fix_step(rt: HostRuntime) {
    let scanned = given(&rt, hcl_scan::scan(rt.alloc(), TEXT));
    let tree = given(&rt, hcl_tree::parse(rt.alloc(), &scanned));
    let mut steps = Vec::new(rt.alloc());
    for rule in Rule::ALL {
        let right = given(&rt, tf_lint::fix_step(rt.alloc(), &scanned, &tree, rule));
        given(&rt, steps.push((rule, right)));
    }
    begin(&rt);
    for (rule, right) in &steps {
        let answer = tf_lint::fix_step(rt.alloc(), &scanned, &tree, *rule);
        let made = answered(&rt, answer, LintFault::Memory, true);
        assert!(rt; are_same_edits(&made, right));
    }
}

#[test]
fn fix_text(rt: HostRuntime) {
    let right = given(&rt, tf_lint::fix_text(rt.alloc(), TEXT, RuleSet::all()));
    begin(&rt);
    let answer = tf_lint::fix_text(rt.alloc(), TEXT, RuleSet::all());
    let made = answered(&rt, answer, FixFault::Memory, true);
    assert!(rt; are_same_changes(&made.change, &right.change));
    assert!(rt; made.left.len() == right.left.len());
}

#[test]
fn fixed_text(rt: HostRuntime) {
    let right = given(&rt, tf_lint::fix_text(rt.alloc(), TEXT, RuleSet::all()));
    begin(&rt);
    let answer = tf_lint::fix_without_edits(rt.alloc(), TEXT, RuleSet::all());
    let made = answered(&rt, answer, FixFault::Memory, true);
    assert!(rt; is_same_text(&made.text, &right.change));
    assert!(rt; made.fixed == right.fixed);
    assert!(rt; made.left.len() == right.left.len());
}

#[test]
fn remaining_lines(rt: HostRuntime) {
    let (session, _) = changed(&rt, TEXT, b"", Command::Fix(RuleSet::all()));
    let right = issue_lines(rt.alloc(), "main.tf", session.text(), RuleSet::all());
    let (right, _) = given(&rt, right);
    let mut session = session_of(&rt, TEXT, b"");
    let (_, left) = given(&rt, session.fix(rt.alloc(), RuleSet::all()));
    begin(&rt);
    let answer = left.lines(rt.alloc(), "main.tf", session.text());
    let lines = answered(&rt, answer, AllocError, true);
    assert!(rt; lines.as_str().as_bytes() == right.as_slice());
}

fn are_same_changes(a: &Option<NewText>, b: &Option<NewText>) -> bool {
    match (a, b) {
        (Some(a), Some(b)) => are_same_edits(&a.edits, &b.edits),
        (None, None) => true,
        _ => false,
    }
}

fn is_same_text(a: &Option<Vec<u8>>, b: &Option<NewText>) -> bool {
    match (a, b) {
        (Some(a), Some(b)) => a.as_slice() == b.text.as_slice(),
        (None, None) => true,
        _ => false,
    }
}
