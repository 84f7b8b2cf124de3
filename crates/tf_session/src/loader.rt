//! A session from a text and the text of its journal.

ghost use Rattle.std.specs.Prelude.{◌≡◌, ◌↔◌, ◌⊎◌, true, false, IfOk, IfErr, IsErrOf};
ghost use Rattle.tf_stream.specs.Told.{has_failed};
ghost use Rattle.tf_stream.specs.Streams.{source_of, ReadsAll};
ghost use Rattle.tf_session.specs.Session.{contents_of};
ghost use Rattle.tf_session.specs.Journals.{MAX_JOURNAL, Loads, LoadFault};
ghost use Rattle.tf_session.specs.Streams.{ReadAllFault};

use crate::{RunFault, Session, Told};
use edit_record::decode_owned;
use hcl_scan::MAX_TEXT;
use std::alloc::Global;
use std::io::Read;
use tf_stream::read_to_limit;

/// The most bytes of a journal's text, read or written.
pub const MAX_JOURNAL: usize = 268_435_456;

/// Reads all the bytes of a journal's text, as [`take_text`](crate::take_text) does those of a text.
///
/// # Errors
///
/// `Read` if a read fails; `Endless` if it has more than [`MAX_JOURNAL`] bytes; `Memory`.
pub fn take_journal<R: Read>(alloc: Global, reader: &mut Told<R>) -> Result<Vec<u8>, RunFault>
    ensures bytes { IfOk result
        (λ bytes. ReadsAll MAX_JOURNAL (source_of R.remaining reader.old reader.new) bytes.items) }
    ensures fault { IfErr result
        (λ fault. ReadAllFault MAX_JOURNAL fault (source_of R.remaining reader.old reader.new)) }
    ensures read { has_failed reader.old ≡ false
        → (IsErrOf result RunFault.Read ↔ has_failed reader.new ≡ true) }
    ensures failed { has_failed reader.old ≡ true → has_failed reader.new ≡ true }
{
    match read_to_limit(alloc, MAX_JOURNAL, reader) {
        Ok(bytes) => Ok(bytes),
        Err(fault) => Err(RunFault::from(fault)),
    }
}

/// Returns the session of a text and the text of its journal, each read up to its end. The text is
/// read first, then the journal, and then that is decoded.
///
/// # Errors
///
/// The first in that order: `Read` if a read fails, whatever its error; `Endless` if the text has
/// more than `MAX_TEXT` bytes or the journal more than [`MAX_JOURNAL`], of which one byte more is
/// read; `BadJournal` if the journal's bytes are the text of none; `Memory`.
pub fn load<R: Read, J: Read>(
    alloc: Global,
    text: &mut Told<R>,
    journal: &mut Told<J>,
) -> Result<Session, RunFault>
    requires text_not_failed { has_failed text.old ≡ false }
    requires journal_not_failed { has_failed journal.old ≡ false }
    ensures loaded { IfOk result
        (λ session. Loads (contents_of session) (source_of R.remaining text.old text.new)
        (source_of J.remaining journal.old journal.new)) }
    ensures fault { IfErr result
        (λ fault. LoadFault fault (source_of R.remaining text.old text.new)
        (source_of J.remaining journal.old journal.new)) }
    ensures read { IsErrOf result RunFault.Read
        ↔ (has_failed text.new ≡ true) ⊎ (has_failed journal.new ≡ true) }
{
    let text = read_to_limit(alloc, MAX_TEXT, text)?;
    let bytes = read_to_limit(alloc, MAX_JOURNAL, journal)?;
    let journal = decode_owned(alloc, bytes)?;
    Ok(Session::start(text, journal))
}
