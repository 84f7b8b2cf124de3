//! The edits that fix comments: `//` becomes `#`.

ghost use Rattle.std.specs.Prelude.{◌≡◌, ◌<◌, length, map, filter, IfOk};
ghost use Rattle.tf_findings.specs.RuleFilter.{is_found_by};
ghost use Rattle.tf_fix.specs.Edits.CommentEdits.{comment_edit};
ghost use Rattle.tf_rules.specs.ValidFindings.{AreValidFindings};
ghost use Rattle.tf_fix.specs.Selection.{selected};

use crate::selection::is_selected;
use edit_record::lists::Edit;
use hcl_scan::Scanned;
use std::alloc::{AllocError, Global};
use tf_findings::is_found_by;
use tf_rules::{Finding, Rule};

/// Returns the edit that fixes a comment: its `//` becomes `#`.
fn comment_edit(alloc: Global, scanned: &Scanned<'_>, one: Finding) -> Result<Edit, AllocError>
    requires { one.first < length scanned.now.pairs }
    ensures { IfOk result (λ edit. edit ≡ comment_edit scanned.now.pairs one) }
{
    let at = scanned.item(one.first() as usize).start as usize;
    Edit::new(alloc, at, b"//", b"#")
}

/// Returns the edits that fix the comments which one step of the rule selects, in the order of the
/// text.
pub fn comment_edits(
    alloc: Global,
    scanned: &Scanned<'_>,
    rule: Rule,
    findings: &[Finding],
) -> Result<Vec<Edit>, AllocError>
    requires { AreValidFindings (length scanned.now.pairs) (filter (is_found_by rule) findings.now) }
    ensures { IfOk result
        (λ edits. edits.items
        ≡ map (comment_edit scanned.now.pairs) (selected (filter (is_found_by rule) findings.now))) }
{
    let mut edits = Vec::new(alloc);
    let mut past = 0;
    for one in findings {
        if is_found_by(rule, one) && is_selected(one, past) {
            edits.push(comment_edit(alloc, scanned, *one)?)?;
            past = one.past();
        }
    }
    Ok(edits)
}
