//! One text: its tokens, its tree, its layout and its issues.

use super::{FIXED, FORMATTED, Host, ISSUES, UNFORMATTED, given};
use edit_record::Change as _;
use hcl_layout::{LayoutFault, is_laid_out, layout};
use hcl_scan::{Item, Kind, Place, ScanFault, Scanned, scan};
use hcl_tree::{Member, ParseFault, Tree, parse};
use tf_lint::{Issue, Rule, RuleSet, fix_step, issues};

/// The letter e with an accent is one cluster of three bytes.
#[test]
fn tokens(rt: HostRuntime) {
    let scanned = given(&rt, scan(rt.alloc(), b"e\xcc\x81=1\nabc=2\n"));
    assert!(rt; are_its_tokens(&scanned));
}

fn are_its_tokens(scanned: &Scanned<'_>) -> bool {
    if scanned.len() != 8 {
        return false;
    }
    let equal = Item {
        gap_at: 3,
        start: 3,
        stop: 4,
        kind: Kind::Equal,
    };
    scanned.item(1) == equal
        && scanned.spelling(0) == b"e\xcc\x81".as_slice()
        && scanned.gap(1).is_empty()
        && scanned.last_gap().is_empty()
        && scanned.joins(0, 2)
        && scanned.clusters(0) == 1
        && scanned.place_of(1) == (Place { line: 1, column: 2 })
}

#[test]
fn no_tokens(rt: HostRuntime) {
    let fault = scan(rt.alloc(), b"a = \"x").err();
    assert!(rt; fault == Some(ScanFault::OpenString { at: 4 }));
}

#[test]
fn trees(rt: HostRuntime) {
    let scanned = given(&rt, scan(rt.alloc(), UNFORMATTED));
    let tree = given(&rt, parse(rt.alloc(), &scanned));
    assert!(rt; is_its_tree(&tree));
}

/// Whether the tree has two attributes, the first of which is over four tokens, its line end among
/// them.
fn is_its_tree(tree: &Tree) -> bool {
    let is_first = match tree.body.members.as_slice().first() {
        Some(Member::Attribute(attribute)) => attribute.first == 0 && attribute.past == 4,
        _ => false,
    };
    is_first && tree.body.members.len() == 2 && tree.first == 0 && tree.past == 8
}

#[test]
fn no_tree(rt: HostRuntime) {
    let scanned = given(&rt, scan(rt.alloc(), b"a = \n"));
    let fault = parse(rt.alloc(), &scanned).err();
    assert!(rt; fault == Some(ParseFault::Syntax { at: 4 }));
}

#[test]
fn layouts(rt: HostRuntime) {
    let scanned = given(&rt, scan(rt.alloc(), UNFORMATTED));
    let tree = given(&rt, parse(rt.alloc(), &scanned));
    let edits = given(&rt, layout(rt.alloc(), &scanned, &tree));
    let new = given(&rt, edits.apply(rt.alloc(), UNFORMATTED));
    assert!(rt; new.as_slice() == FORMATTED);
}

#[test]
fn layout_checks(rt: HostRuntime) {
    let scanned = given(&rt, scan(rt.alloc(), UNFORMATTED));
    let tree = given(&rt, parse(rt.alloc(), &scanned));
    let answer: Result<bool, LayoutFault> = is_laid_out(rt.alloc(), &scanned, &tree);
    assert!(rt; !given(&rt, answer));
}

#[test]
fn rules(rt: HostRuntime) {
    let rule = Rule::CommentSyntax;
    let others = RuleSet::all().without(rule);
    let facts = [
        !others.has(rule),
        others.has(Rule::TypedVariables),
        RuleSet::none().with(rule).has(rule),
        Rule::by_name(rule.name()) == Some(rule),
    ];
    assert!(rt; facts == [true; 4]);
}

#[test]
fn issue_lines(rt: HostRuntime) {
    let scanned = given(&rt, scan(rt.alloc(), b"a = 1 // one\n"));
    let tree = given(&rt, parse(rt.alloc(), &scanned));
    let found = given(&rt, issues(rt.alloc(), &scanned, &tree, RuleSet::all()));
    assert!(rt; found.len() == 1);
    let issue = found.first().expect(&rt, "there is no issue");
    let line = given(&rt, issue.line(rt.alloc(), "main.tf"));
    let right =
        "main.tf:1:7: Warning - Single line comments should begin with # (terraform_comment_syntax)";
    assert!(rt; line.as_str() == right);
    assert!(rt; is_comment_issue(issue));
}

fn is_comment_issue(issue: &Issue) -> bool {
    issue.rule == Rule::CommentSyntax
        && issue.first == 3
        && issue.past == 4
        && issue.place == (Place { line: 1, column: 7 })
        && issue.text.as_str() == "Single line comments should begin with #"
        && issue.fixable
}

/// The steps of two rules, each on the text that the one before it made.
#[test]
fn fix_steps(rt: HostRuntime) {
    let commented = b"x = \"${var.a}\"  # c\n".as_slice();
    fixes(&rt, ISSUES, Rule::CommentSyntax, commented);
    fixes(&rt, commented, Rule::DeprecatedInterpolation, FIXED);
}

/// Looks whether the step of a rule makes `right` of a text.
fn fixes(rt: &impl Host, text: &[u8], rule: Rule, right: &[u8]) {
    let scanned = given(rt, scan(rt.alloc(), text));
    let tree = given(rt, parse(rt.alloc(), &scanned));
    let edits = given(rt, fix_step(rt.alloc(), &scanned, &tree, rule));
    let new = given(rt, edits.apply(rt.alloc(), text));
    assert!(rt; new.as_slice() == right);
}
