//! One command over a text and its journal, from readers to writers.

ghost use Rattle.std.specs.Prelude.{◌≡◌, ◌↔◌, ◌⊎◌, true, false, IfOk, IfErr, IsErrOf, IsErrAnd};
ghost use Rattle.tf_stream.specs.Told.{has_failed};
ghost use Rattle.tf_stream.specs.Streams.{source_of, target_of, Untouched};
ghost use Rattle.tf_session.specs.Streams.{is_write};
ghost use Rattle.tf_session.specs.declared.command.Command.TheVariants.{Fmt, Fix, Revert};
ghost use Rattle.tf_session.specs.Journals.{IsWriteOf, endpoints_of, StreamsCommand};
ghost use Rattle.tf_session.specs.Journals.{JournaledStreamFault, JournaledStreamResult};
ghost use Rattle.tf_session.specs.Journals.{ReportsFailures};

use crate::loader::load;
use crate::saver::save;
use crate::{Command, Done, RuleSet, RunFault, SessionPart, Told};
use std::alloc::Global;
use std::io::{Read, Write};

/// Formats the text of a reader, and writes the journal with the record of that, then the new text.
/// Both are written if nothing changed, too.
///
/// # Errors
///
/// Those of [`load`], of `Session::step` with `Command::Fmt` and of [`save`]. Nothing is written at
/// any error but `Write`.
pub fn fmt_stream<R: Read, J: Read, K: Write, W: Write>(
    alloc: Global,
    text: &mut Told<R>,
    journal: &mut Told<J>,
    journal_out: &mut Told<K>,
    text_out: &mut Told<W>,
) -> Result<Done, RunFault>
    requires text_not_failed { has_failed text.old ≡ false }
    requires journal_not_failed { has_failed journal.old ≡ false }
    requires journal_out_not_failed { has_failed journal_out.old ≡ false }
    requires text_out_not_failed { has_failed text_out.old ≡ false }
    ensures streams { JournaledStreamResult Fmt result (endpoints_of
        (source_of R.remaining text.old text.new) (source_of J.remaining journal.old journal.new)
        (target_of K.contents journal_out.old journal_out.new)
        (target_of W.contents text_out.old text_out.new)) }
    ensures failed { ReportsFailures result (has_failed text.new) (has_failed journal.new)
        (has_failed journal_out.new) (has_failed text_out.new) }
{
    command_stream(alloc, Command::Fmt, text, journal, journal_out, text_out)
}

/// Fixes what the rules find in the text of a reader, and writes the journal with the record of
/// that, then the new text. Both are written if nothing changed, too.
///
/// # Errors
///
/// Those of [`load`], of `Session::step` with `Command::Fix` and of [`save`]. Nothing is written at
/// any error but `Write`.
pub fn fix_stream<R: Read, J: Read, K: Write, W: Write>(
    alloc: Global,
    text: &mut Told<R>,
    journal: &mut Told<J>,
    journal_out: &mut Told<K>,
    text_out: &mut Told<W>,
    rules: RuleSet,
) -> Result<Done, RunFault>
    requires text_not_failed { has_failed text.old ≡ false }
    requires journal_not_failed { has_failed journal.old ≡ false }
    requires journal_out_not_failed { has_failed journal_out.old ≡ false }
    requires text_out_not_failed { has_failed text_out.old ≡ false }
    ensures streams { JournaledStreamResult (Fix rules) result (endpoints_of
        (source_of R.remaining text.old text.new) (source_of J.remaining journal.old journal.new)
        (target_of K.contents journal_out.old journal_out.new)
        (target_of W.contents text_out.old text_out.new)) }
    ensures failed { ReportsFailures result (has_failed text.new) (has_failed journal.new)
        (has_failed journal_out.new) (has_failed text_out.new) }
{
    command_stream(
        alloc,
        Command::Fix(rules),
        text,
        journal,
        journal_out,
        text_out,
    )
}

/// Reverts the last command on the text of a reader, and writes the journal without its record,
/// then the text before it.
///
/// # Errors
///
/// Those of [`load`], of `Session::step` with `Command::Revert` and of [`save`]. Nothing is written
/// at any error but `Write`.
pub fn revert_stream<R: Read, J: Read, K: Write, W: Write>(
    alloc: Global,
    text: &mut Told<R>,
    journal: &mut Told<J>,
    journal_out: &mut Told<K>,
    text_out: &mut Told<W>,
) -> Result<Done, RunFault>
    requires text_not_failed { has_failed text.old ≡ false }
    requires journal_not_failed { has_failed journal.old ≡ false }
    requires journal_out_not_failed { has_failed journal_out.old ≡ false }
    requires text_out_not_failed { has_failed text_out.old ≡ false }
    ensures streams { JournaledStreamResult Revert result (endpoints_of
        (source_of R.remaining text.old text.new) (source_of J.remaining journal.old journal.new)
        (target_of K.contents journal_out.old journal_out.new)
        (target_of W.contents text_out.old text_out.new)) }
    ensures failed { ReportsFailures result (has_failed text.new) (has_failed journal.new)
        (has_failed journal_out.new) (has_failed text_out.new) }
{
    command_stream(alloc, Command::Revert, text, journal, journal_out, text_out)
}

/// Loads the text and its journal, runs the command, and saves both. `fmt_stream`, `fix_stream` and
/// `revert_stream` are this with one command each. For the proof: its clauses are the fields of theirs,
/// each by itself.
fn command_stream<R: Read, J: Read, K: Write, W: Write>(
    alloc: Global,
    command: Command,
    text: &mut Told<R>,
    journal: &mut Told<J>,
    journal_out: &mut Told<K>,
    text_out: &mut Told<W>,
) -> Result<Done, RunFault>
    requires text_not_failed { has_failed text.old ≡ false }
    requires journal_not_failed { has_failed journal.old ≡ false }
    requires journal_out_not_failed { has_failed journal_out.old ≡ false }
    requires text_out_not_failed { has_failed text_out.old ≡ false }
    ensures done { IfOk result (λ d. StreamsCommand command d (endpoints_of
        (source_of R.remaining text.old text.new) (source_of J.remaining journal.old journal.new)
        (target_of K.contents journal_out.old journal_out.new)
        (target_of W.contents text_out.old text_out.new))) }
    ensures fault { IfErr result (λ fault. JournaledStreamFault command fault (endpoints_of
        (source_of R.remaining text.old text.new) (source_of J.remaining journal.old journal.new)
        (target_of K.contents journal_out.old journal_out.new)
        (target_of W.contents text_out.old text_out.new))) }
    ensures journal_untouched { IfErr result
        (λ fault. is_write fault ≡ false
        → Untouched (target_of K.contents journal_out.old journal_out.new)) }
    ensures text_untouched { IfErr result
        (λ fault. is_write fault ≡ false → Untouched (target_of W.contents text_out.old text_out.new)) }
    ensures read { IsErrOf result RunFault.Read
        ↔ (has_failed text.new ≡ true) ⊎ (has_failed journal.new ≡ true) }
    ensures journal_failed { IsErrAnd result (IsWriteOf SessionPart.Journal)
        ↔ has_failed journal_out.new ≡ true }
    ensures text_failed { IsErrAnd result (IsWriteOf SessionPart.Text) ↔ has_failed text_out.new ≡ true }
{
    let mut session = match load(alloc, text, journal) {
        Ok(session) => session,
        Err(fault) => return Err(fault),
    };
    let done = match session.step(alloc, command) {
        Ok(done) => done,
        Err(refusal) => return Err(RunFault::from(refusal)),
    };
    save(alloc, &session, journal_out, text_out)?;
    Ok(done)
}
