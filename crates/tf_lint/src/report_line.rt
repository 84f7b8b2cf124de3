//! The lines of a report, part by part. Each part is appended by itself, which takes half the
//! instructions of `write!`; and what all lines of a rule say before and after the name that they
//! quote is one part each, of the rule's row.

ghost use Rattle.std.specs.Prelude.{◌≡◌, ◌∷◌, [], ◌++◌, OnOk, string_bytes};
ghost use Rattle.hcl_token.specs.Place.{place_of};
ghost use Rattle.tf_lint.specs.Inner.LineParts.{place_words, severity_words, line_opening};
ghost use Rattle.tf_lint.specs.Inner.LineParts.{line_prefix, line_suffix};
ghost use Rattle.tf_lint.specs.Reports.{report_line, report_of};

use crate::message::{add_name, kind_word};
use hcl_scan::Scanned;
use hcl_token::Place;
use itoa::Buffer;
use std::alloc::AllocError;
use tf_rules::{Finding, NameKind, Rule};

/// Appends `NAME:LINE:COLUMN`.
fn add_place(name: &str, place: Place, lines: &mut String) -> Result<(), AllocError>
    ensures { OnOk result
        (string_bytes lines.new ≡ string_bytes lines.old ++ place_words name.now place) }
{
    let line = place.line;
    let column = place.column;
    let mut digits = Buffer::new();
    lines.push_str(name)?;
    lines.push_str(":")?;
    lines.push_str(digits.format(line))?;
    lines.push_str(":")?;
    lines.push_str(digits.format(column))
}

/// Appends `: SEVERITY - `.
fn add_severity(rule: Rule, lines: &mut String) -> Result<(), AllocError>
    ensures { OnOk result
        (string_bytes lines.new ≡ string_bytes lines.old ++ severity_words rule) }
{
    lines.push_str(": ")?;
    lines.push_str(rule.severity().label())?;
    lines.push_str(" - ")
}

/// Appends the part of a line before an issue's text, in a report on the file of this name:
/// `NAME:LINE:COLUMN: SEVERITY - `.
pub fn add_line_prefix(
    name: &str,
    place: Place,
    rule: Rule,
    lines: &mut String,
) -> Result<(), AllocError>
    ensures { OnOk result
        (string_bytes lines.new ≡ string_bytes lines.old ++ line_prefix name.now place rule) }
{
    add_place(name, place, lines)?;
    add_severity(rule, lines)
}

/// Appends the part of a line after an issue's text: ` (RULE)`.
pub fn add_line_suffix(rule: Rule, lines: &mut String) -> Result<(), AllocError>
    ensures { OnOk result (string_bytes lines.new ≡ string_bytes lines.old ++ line_suffix rule) }
{
    lines.push_str(" (")?;
    lines.push_str(rule.name())?;
    lines.push_str(")")
}

/// Appends what a line says after the place and before the name that it quotes.
fn add_opening(rule: Rule, kind: Option<NameKind>, lines: &mut String) -> Result<(), AllocError>
    ensures { OnOk result
        (string_bytes lines.new ≡ string_bytes lines.old ++ line_opening rule kind) }
{
    let info = rule.info();
    if kind.is_none() {
        return lines.push_str(info.line_opening);
    }
    add_severity(rule, lines)?;
    lines.push_str(kind_word(kind))?;
    lines.push_str(info.before)
}

/// Adds the line of a finding that begins at this place of a text, and a line end.
pub fn add_line(
    name: &str,
    scanned: &Scanned<'_>,
    finding: &Finding,
    place: Place,
    lines: &mut String,
) -> Result<(), AllocError>
    requires { place ≡ place_of scanned.now.pairs finding.now.first }
    ensures { OnOk result
        (string_bytes lines.new ≡ string_bytes lines.old
        ++ report_line name.now (report_of scanned.now.pairs finding.now) ++ 10 ∷ []) }
{
    let rule = finding.rule();
    let message = finding.message();
    add_place(name, place, lines)?;
    add_opening(rule, message.kind, lines)?;
    add_name(scanned, message.name, lines)?;
    lines.push_str(rule.info().line_closing)
}
