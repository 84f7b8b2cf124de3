//! One command over a whole text, from a reader to a writer, and whether a whole text is formatted.

ghost use Rattle.std.specs.Prelude.{◌≡◌, ◌↔◌, true, false, OnOk, IfOk, IfErr, IsErrOf, IsErrAnd};
ghost use Rattle.tf_stream.specs.Told.{has_failed};
ghost use Rattle.tf_stream.specs.Streams.{source_of, target_of};
ghost use Rattle.tf_session.specs.Session.{contents_of};
ghost use Rattle.tf_session.specs.Streams.{is_write};
ghost use Rattle.tf_session.specs.declared.command.Command.TheVariants.{Fmt};
ghost use Rattle.tf_session.specs.Streaming.{StepsStream, StepStreamFault, FormatsStream};
ghost use Rattle.tf_session.specs.Streaming.{ChecksStream, CheckStreamFault};

use crate::command::{Command, Done};
use crate::fault::RunFault;
use crate::formatting::{format_without_session, is_formatted};
use crate::session::Session;
use crate::text_io::{put_text, take_text};
use edit_record::lists::Journal;
use std::alloc::Global;
use std::io::{Read, Write};
use tf_stream::Told;

/// Does one command over the whole text of a reader, with no journal, and writes the new text,
/// changed or not. Returns the session after the command, and what it did.
///
/// # Errors
///
/// Those of [`take_text`], of [`Session::step`] and of [`put_text`]. Nothing is written at any
/// error but `Write`.
pub fn step_text_stream<R: Read, W: Write>(
    alloc: Global,
    command: Command,
    text: &mut Told<R>,
    out: &mut Told<W>,
) -> Result<(Session, Done), RunFault>
    requires text_not_failed { has_failed text.old ≡ false }
    requires out_not_failed { has_failed out.old ≡ false }
    ensures done { IfOk result
        (λ made. StepsStream command made.1 (contents_of made.0)
        (source_of R.remaining text.old text.new) (target_of W.contents out.old out.new)) }
    ensures fault { IfErr result
        (λ fault. StepStreamFault command fault (source_of R.remaining text.old text.new)
        (target_of W.contents out.old out.new)) }
    ensures read { IsErrOf result RunFault.Read ↔ has_failed text.new ≡ true }
    ensures write { IsErrAnd result (λ fault. is_write fault ≡ true) ↔ has_failed out.new ≡ true }
{
    let bytes = take_text(alloc, text)?;
    let mut session = Session::start(bytes, Journal::empty(alloc));
    let done = session.step(alloc, command)?;
    match put_text(session.text(), out) {
        Ok(()) => Ok((session, done)),
        Err(fault) => Err(fault),
    }
}

/// Formats the text of a reader and writes it to `out`. Writes the same bytes as `step_text_stream`
/// with `Command::Fmt`, but makes neither a session nor edits.
///
/// # Errors
///
/// As for [`step_text_stream`] with `Command::Fmt`.
pub fn format_text_stream<R: Read, W: Write>(
    alloc: Global,
    text: &mut Told<R>,
    out: &mut Told<W>,
) -> Result<(), RunFault>
    requires text_not_failed { has_failed text.old ≡ false }
    requires out_not_failed { has_failed out.old ≡ false }
    ensures done { OnOk result (FormatsStream (source_of R.remaining text.old text.new)
        (target_of W.contents out.old out.new)) }
    ensures fault { IfErr result (λ fault.
        StepStreamFault Fmt fault (source_of R.remaining text.old text.new)
        (target_of W.contents out.old out.new)) }
    ensures read { IsErrOf result RunFault.Read ↔ has_failed text.new ≡ true }
    ensures write { IsErrAnd result (λ fault. is_write fault ≡ true) ↔ has_failed out.new ≡ true }
{
    let bytes = take_text(alloc, text)?;
    let new = format_without_session(alloc, bytes.as_slice())?;
    match put_text(new.as_slice(), out) {
        Ok(()) => Ok(()),
        Err(fault) => Err(fault),
    }
}

/// Returns whether the whole text of a reader is its own layout.
///
/// # Errors
///
/// Those of [`take_text`], and the error with which a fmt refuses the text: it does not parse, or
/// has a layout of more than `MAX_TEXT` bytes.
pub fn check_stream<R: Read>(alloc: Global, text: &mut Told<R>) -> Result<bool, RunFault>
    requires { has_failed text.old ≡ false }
    ensures answer { IfOk result (λ yes. ChecksStream yes (source_of R.remaining text.old text.new)) }
    ensures fault { IfErr result
        (λ fault. CheckStreamFault fault (source_of R.remaining text.old text.new)) }
    ensures read { IsErrOf result RunFault.Read ↔ has_failed text.new ≡ true }
{
    let bytes = take_text(alloc, text)?;
    let yes = is_formatted(alloc, bytes.as_slice())?;
    Ok(yes)
}
