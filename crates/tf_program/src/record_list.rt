//! The lines of a journal's records.

ghost use Rattle.std.specs.Prelude.{◌≡◌, IfOk, string_bytes};
ghost use Rattle.tf_session.specs.Session.{contents_of, records_of};
ghost use Rattle.tf_program.specs.Lines.{AreRecordLines, IsListedRefusal, IsSuffix, record_line};
ghost use Rattle.tf_program.specs.Lines.{command_name, edit_unit};

use edit_record::Word;
use std::alloc::{AllocError, Global};
use tf_session::{Fault, Session};

/// Of how many commands, the newest, a list says whether they can be undone. Finding it out for one
/// takes a step for each command after it.
const MAX_TRIED: usize = 1_000;

/// Returns a line for each record of a session, the oldest first, which has the number 1:
/// `1 fix 3 edits`; and after it why it can't be undone now, if it can't:
/// `1 fix 3 edits: blocked by command 2`.
///
/// # Errors
///
/// Out of memory.
pub fn record_lines(alloc: Global, session: &Session) -> Result<String, AllocError>
    ensures { IfOk result (λ lines. AreRecordLines (contents_of session.now) 1
        (records_of session.now) (string_bytes lines)) }
{
    let records = session.journal().records();
    let mut lines = String::new(alloc);
    for (before, record) in records.iter().enumerate() {
        let refusal = listed_refusal(alloc, session, before + 1)?;
        let suffix = refusal_suffix(alloc, refusal)?;
        let edits = record.edits().edits().len();
        let line = record_line(alloc, before + 1, record.word(), edits, suffix.as_str())?;
        lines.push_str(line.as_str())?;
    }
    Ok(lines)
}

/// Returns why the command of this number can't be undone, or `None` if it can, or if it is too old
/// to be tried.
///
/// # Errors
///
/// Out of memory.
fn listed_refusal(
    alloc: Global,
    session: &Session,
    number: usize,
) -> Result<Option<Fault>, AllocError>
    ensures { IfOk result (IsListedRefusal number (contents_of session.now)) }
{
    if session.journal().records().len().saturating_sub(number) >= MAX_TRIED {
        return Ok(None);
    }
    session.take_refusal(alloc, number)
}

/// Returns what follows the line of a command: nothing, or why it can't be undone.
///
/// # Errors
///
/// Out of memory.
fn refusal_suffix(alloc: Global, refusal: Option<Fault>) -> Result<String, AllocError>
    ensures { IfOk result (λ suffix. IsSuffix refusal (string_bytes suffix)) }
{
    match refusal {
        Some(fault) => format!(in alloc; ": {fault}"),
        None => Ok(String::new(alloc)),
    }
}

/// Returns the line of the record of this number, with this at its end and the line feed.
///
/// # Errors
///
/// Out of memory.
fn record_line(
    alloc: Global,
    number: usize,
    word: Word,
    edits: usize,
    suffix: &str,
) -> Result<String, AllocError>
    ensures { IfOk result (λ line. string_bytes line ≡ record_line number word edits suffix.now) }
{
    let word = command_name(word);
    let unit = edit_unit(edits);
    format!(in alloc; "{number} {word} {edits} {unit}{suffix}\n")
}

/// Returns the name by which a command is listed.
fn command_name(word: Word) -> &'static str
    ensures { result.now ≡ command_name word }
{
    match word {
        Word::Fmt => "fmt",
        Word::Fix => "fix",
    }
}

/// Returns what follows the number of edits: `edit` after 1, else `edits`.
fn edit_unit(count: usize) -> &'static str
    ensures { result.now ≡ edit_unit count }
{
    if count == 1 { "edit" } else { "edits" }
}
