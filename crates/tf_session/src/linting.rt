//! Whole texts linted from a reader to a writer.

ghost use Rattle.std.specs.Prelude.{◌≡◌, ◌↔◌, true, false, IfOk, IfErr, IsErrOf, IsErrAnd};
ghost use Rattle.tf_stream.specs.Told.{has_failed};
ghost use Rattle.tf_stream.specs.Streams.{source_of, target_of};
ghost use Rattle.tf_session.specs.LintStream.{AreLines, LintsStream, LintStreamFault};
ghost use Rattle.tf_session.specs.Rewrites.{IsSyntaxFault};
ghost use Rattle.tf_session.specs.Streams.{is_write};

use crate::command::Fault;
use crate::fault::RunFault;
use crate::text_io::{put_text, take_text};
use std::alloc::Global;
use std::io::{Read, Write};
use tf_lint::{RuleSet, lines_of_findings, lint_text};
use tf_stream::Told;

/// Writes a line for each issue that the rules find in the text of a reader, each followed by LF,
/// and returns their number.
///
/// # Errors
///
/// `Read`, `Endless`, as for [`take_text`]; `Scan` or `Parse` if the text does not parse; `Memory`;
/// `Write` of the lines, as for [`put_text`]. All lines are made before the first is written, so
/// nothing is written at any error but `Write`.
pub fn lint_stream<R: Read, W: Write>(
    alloc: Global,
    name: &str,
    text: &mut Told<R>,
    out: &mut Told<W>,
    rules: RuleSet,
) -> Result<usize, RunFault>
    requires text_not_failed { has_failed text.old ≡ false }
    requires out_not_failed { has_failed out.old ≡ false }
    ensures lines { IfOk result
        (λ count. LintsStream name.now rules count (source_of R.remaining text.old text.new)
        (target_of W.contents out.old out.new)) }
    ensures fault { IfErr result
        (λ fault. LintStreamFault name.now rules fault (source_of R.remaining text.old text.new)
        (target_of W.contents out.old out.new)) }
    ensures read { IsErrOf result RunFault.Read ↔ has_failed text.new ≡ true }
    ensures write { IsErrAnd result (λ fault. is_write fault ≡ true) ↔ has_failed out.new ≡ true }
{
    let bytes = take_text(alloc, text)?;
    let (lines, count) = issue_lines(alloc, name, bytes.as_slice(), rules)?;
    put_text(lines.as_slice(), out)?;
    Ok(count)
}

/// Returns a line for each issue that the rules find in a text, each followed by LF, and their
/// number.
///
/// # Errors
///
/// `Scan` or `Parse` if the text does not parse; `Memory`.
pub fn issue_lines(
    alloc: Global,
    name: &str,
    text: &[u8],
    rules: RuleSet,
) -> Result<(Vec<u8>, usize), Fault>
    ensures lines { IfOk result (λ made. AreLines name.now rules text.now made.0.items made.1) }
    ensures fault { IfErr result (λ fault. IsSyntaxFault text.now fault) }
{
    let searched = lint_text(alloc, text, rules, false)?;
    let found = searched.found.as_slice();
    match lines_of_findings(alloc, name, &searched.scanned, found) {
        Ok(lines) => Ok((lines.into_bytes(), found.len())),
        Err(_) => Err(Fault::Memory),
    }
}
