//! A session to two writers.

ghost use Rattle.std.specs.Prelude.{◌≡◌, ◌↔◌, ◌<◌, ◌≤◌, length, true, false};
ghost use Rattle.std.specs.Prelude.{OnOk, OnErr, IfOk, IfErr, IsErrAnd};
ghost use Rattle.edit_record.specs.Text.{journal_text};
ghost use Rattle.tf_stream.specs.Told.{has_failed};
ghost use Rattle.tf_stream.specs.Streams.{target_of, Untouched};
ghost use Rattle.tf_session.specs.Session.{contents_of, text_of, records_of};
ghost use Rattle.tf_session.specs.Streams.{is_write};
ghost use Rattle.tf_session.specs.Journals.{MAX_JOURNAL, IsSavedText, JournalTextFault};
ghost use Rattle.tf_session.specs.Journals.{Saves, SaveFault, IsWriteOf};

use crate::loader::MAX_JOURNAL;
use crate::{RunFault, Session, SessionPart, Told, put_journal, put_text};
use edit_record::lists::Journal;
use edit_record::{encode_owned, encode_with_len, encoded_len};
use std::alloc::Global;
use std::io::Write;

/// A session's text and the text of its journal, as they are written.
#[derive(Drop)]
pub struct SavedTexts {
    pub text: Vec<u8>,
    pub journal: Vec<u8>,
}

/// Returns the length of a journal's text, unless it is too long to be written.
fn journal_len(journal: &Journal) -> Result<usize, RunFault>
    ensures is { IfOk result (λ len. len ≡ length (journal_text journal.now)) }
    ensures within { IfOk result (λ len. len ≤ MAX_JOURNAL) }
    ensures fault { IfErr result (λ fault. fault ≡ RunFault.Endless) }
    ensures long { OnErr result (MAX_JOURNAL < length (journal_text journal.now)) }
{
    let len = encoded_len(journal);
    if len > MAX_JOURNAL {
        return Err(RunFault::Endless);
    }
    Ok(len)
}

/// Returns the text of the session's journal, as it is written. An empty journal allocates nothing.
///
/// # Errors
///
/// `Endless` if it would have more than [`MAX_JOURNAL`] bytes: then nothing is allocated. `Memory`.
pub fn journal_text(alloc: Global, session: &Session) -> Result<Vec<u8>, RunFault>
    ensures text { IfOk result (λ text. IsSavedText (records_of session.now) text.items) }
    ensures fault { IfErr result (λ fault. JournalTextFault (records_of session.now) fault) }
{
    let journal = session.journal();
    let len = journal_len(journal)?;
    match encode_with_len(alloc, journal, len) {
        Ok(text) => Ok(text),
        Err(_) => Err(RunFault::Memory),
    }
}

/// Returns the session's text, and the text of its journal as [`journal_text`] does. It consumes
/// the session, and copies neither its text nor the text that its journal kept. Both lists give
/// back their spare capacity.
///
/// # Errors
///
/// As for [`journal_text`].
pub fn saved_texts(session: Session) -> Result<SavedTexts, RunFault>
    ensures text { IfOk result (λ texts. texts.text.items ≡ text_of session) }
    ensures journal { IfOk result
        (λ texts. IsSavedText (records_of session) texts.journal.items) }
    ensures fault { IfErr result (λ fault. JournalTextFault (records_of session) fault) }
{
    let len = journal_len(session.journal())?;
    let (mut text, journal) = session.into_parts();
    text.shrink_to_fit();
    match encode_owned(journal, len) {
        Ok(mut journal) => {
            journal.shrink_to_fit();
            Ok(SavedTexts { text, journal })
        }
        Err(_) => Err(RunFault::Memory),
    }
}

/// Writes the text of the session's journal, and then its text.
///
/// # Errors
///
/// As for [`journal_text`]: then nothing is written. `Write` of the journal, as for
/// [`put_journal`]: then nothing of the text is written. `Write` of the text, as for [`put_text`]:
/// then the whole journal was written.
pub fn save<J: Write, W: Write>(
    alloc: Global,
    session: &Session,
    journal_out: &mut Told<J>,
    text_out: &mut Told<W>,
) -> Result<(), RunFault>
    requires journal_not_failed { has_failed journal_out.old ≡ false }
    requires text_not_failed { has_failed text_out.old ≡ false }
    ensures saved { OnOk result
        (Saves (contents_of session.now) (target_of J.contents journal_out.old journal_out.new)
        (target_of W.contents text_out.old text_out.new)) }
    ensures fault { IfErr result
        (λ fault. SaveFault fault (contents_of session.now)
        (target_of J.contents journal_out.old journal_out.new)
        (target_of W.contents text_out.old text_out.new)) }
    ensures journal_untouched { IfErr result
        (λ fault. is_write fault ≡ false
        → Untouched (target_of J.contents journal_out.old journal_out.new)) }
    ensures text_untouched { IfErr result
        (λ fault. is_write fault ≡ false → Untouched (target_of W.contents text_out.old text_out.new)) }
    ensures journal_failed { IsErrAnd result (IsWriteOf SessionPart.Journal)
        ↔ has_failed journal_out.new ≡ true }
    ensures text_failed { IsErrAnd result (IsWriteOf SessionPart.Text) ↔ has_failed text_out.new ≡ true }
{
    let journal = journal_text(alloc, session)?;
    put_journal(journal.as_slice(), journal_out)?;
    put_text(session.text(), text_out)
}
