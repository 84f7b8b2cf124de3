//! A text with the journal of what changed it.

ghost use Rattle.std.specs.Prelude.{◌≡◌, true, IfOk, IfErr, IfSome, OnErr};
ghost use Rattle.tf_lint.specs.Remaining.{remaining_count, IsRemaining};
ghost use Rattle.tf_lint.specs.Steps.{texts_differ};
ghost use Rattle.tf_session.specs.declared.command.Command.TheVariants.{Fix};
ghost use Rattle.edit_record.specs.Text.{IsJournalText};
ghost use Rattle.tf_session.specs.Journals.{BadJournalFault};
ghost use Rattle.tf_session.specs.Machine.{done};
ghost use Rattle.tf_lint.specs.FixResult.{changed_text, changed_edits};
ghost use Rattle.tf_session.specs.Session.{contents_of, text_of, records_of};
ghost use Rattle.tf_session.specs.Records.{DoesStep, RefusesStep, RevertsLast, RefusesRevert};
ghost use Rattle.tf_session.specs.Inner.Changes.{AddsRecord};
ghost use Rattle.tf_session.specs.RemovingRecord.{RemovesRecord, RefusesTake};
ghost use Rattle.tf_session.specs.RemovingRecord.{IsTakeRefusal, TakeMayAllocate};

use crate::command::{Command, Done, Fault, Reply};
use crate::fault::RunFault;
use crate::formatting::fmt_text;
use crate::taking::{TakeResult, without_record};
use edit_record::decode_owned;
use edit_record::laws::undo_is_exact;
use edit_record::lists::{Change as _, Journal, Record, Word};
use std::alloc::{AllocError, Global};
use tf_lint::{FixResult, NewText, Remaining, RuleSet, fix_text};

/// A text, and the journal of the commands that changed it.
#[derive(Drop)]
pub struct Session {
    text: Vec<u8>,
    journal: Journal,
}

impl Session {
    /// Makes a session over this text. The journal may come from outside: nothing is tested.
    pub fn start(text: Vec<u8>, journal: Journal) -> Session
        ensures text { text_of result ≡ text.items }
        ensures journal { records_of result ≡ journal }
    {
        Session { text, journal }
    }

    /// Makes a session over this text and the journal whose text this is.
    ///
    /// # Errors
    ///
    /// `BadJournal` if the journal's bytes are the text of none; `Memory`.
    pub fn from_texts(alloc: Global, text: Vec<u8>, journal: Vec<u8>) -> Result<Session, RunFault>
        ensures text { IfOk result (λ session. text_of session ≡ text.items) }
        ensures journal { IfOk result
            (λ session. IsJournalText journal.items (records_of session)) }
        ensures fault { IfErr result (BadJournalFault journal.items) }
    {
        let journal = decode_owned(alloc, journal)?;
        Ok(Session::start(text, journal))
    }

    /// Returns the text.
    pub fn text(&self) -> &[u8]
        ensures { result.now ≡ text_of self.now }
    {
        self.text.as_slice()
    }

    /// Returns the journal, the oldest record first.
    pub fn journal(&self) -> &Journal
        ensures { result.now ≡ records_of self.now }
    {
        &self.journal
    }

    /// Returns the text and the journal.
    pub fn into_parts(self) -> (Vec<u8>, Journal)
        ensures text { result.0.items ≡ text_of self }
        ensures journal { result.1 ≡ records_of self }
    {
        (self.text, self.journal)
    }

    /// Does one command.
    ///
    /// # Errors
    ///
    /// A refused command changes nothing. A fmt or a fix is refused if the text does not parse
    /// (`Scan`, `Parse`), or a new text would not (`FixBroken`) or would be too long (`TooLong`). A
    /// revert or a take is refused if there is no such record (`NoRecord`), or the text does not
    /// have what it added (`Refused`); a take also if a later record meets it (`Blocked`), or a
    /// text between would be too long (`TooLong`). `Memory`.
    pub fn step(&mut self, alloc: Global, command: Command) -> Reply
        ensures done { IfOk result
            (λ d. DoesStep command (contents_of self.old) d (contents_of self.new)) }
        ensures refused { IfErr result (λ fault. RefusesStep command (contents_of self.old) fault) }
        ensures text { OnErr result (text_of self.new ≡ text_of self.old) }
        ensures journal { OnErr result (records_of self.new ≡ records_of self.old) }
    {
        match command {
            Command::Fmt => {
                let change = fmt_text(alloc, self.text.as_slice())?;
                self.push_change(Word::Fmt, change, 0, 0)
            }
            Command::Fix(rules) => match self.fix(alloc, rules) {
                Ok((done, _)) => Ok(done),
                Err(fault) => Err(fault),
            },
            Command::Revert => self.revert_last(alloc),
            Command::Take(number) => self.remove_record(alloc, number),
        }
    }

    /// Fixes the text by the rules of the set, and returns what they find in the new one too.
    ///
    /// # Errors
    ///
    /// As for [`Session::step`] with `Command::Fix`. A refused fix changes nothing.
    pub fn fix(&mut self, alloc: Global, rules: RuleSet) -> Result<(Done, Remaining), Fault>
        ensures done { IfOk result
            (λ r. DoesStep (Fix rules) (contents_of self.old) r.0 (contents_of self.new)) }
        ensures left { IfOk result (λ r. IsRemaining rules (text_of self.new) r.1) }
        ensures counted { IfOk result (λ r. r.0.left ≡ remaining_count r.1) }
        ensures refused { IfErr result
            (λ fault. RefusesStep (Fix rules) (contents_of self.old) fault) }
        ensures text { OnErr result (text_of self.new ≡ text_of self.old) }
        ensures journal { OnErr result (records_of self.new ≡ records_of self.old) }
    {
        let FixResult {
            change,
            fixed,
            left,
        } = fix_text(alloc, self.text.as_slice(), rules)?;
        match self.push_change(Word::Fix, change, fixed, left.len()) {
            Ok(done) => Ok((done, left)),
            Err(fault) => Err(fault),
        }
    }

    /// Replaces the text and adds a record, if the text changed.
    fn push_change(
        &mut self,
        word: Word,
        change: Option<NewText>,
        fixed: usize,
        left: usize,
    ) -> Reply
        ensures replied { IfOk result
            (λ d. d ≡ done (texts_differ (text_of self.old)
            (changed_text (text_of self.old) change)) fixed left) }
        ensures pushed { IfOk result (λ d. text_of self.new ≡ changed_text (text_of self.old) change) }
        ensures added { IfOk result
            (λ d. AddsRecord (texts_differ (text_of self.old)
            (changed_text (text_of self.old) change)) word
            (changed_edits (text_of self.old) change) (records_of self.old)
            (records_of self.new)) }
        ensures refused { IfErr result (λ fault. fault ≡ Fault.Memory) }
        ensures text { OnErr result (text_of self.new ≡ text_of self.old) }
        ensures journal { OnErr result (records_of self.new ≡ records_of self.old) }
    {
        let Some(NewText { text, edits }) = change else {
            return Ok(Done {
                changed: false,
                fixed,
                left,
            });
        };
        if text.as_slice() == self.text.as_slice() {
            return Ok(Done {
                changed: false,
                fixed,
                left,
            });
        }
        if self.journal.push(Record::make(word, edits)).is_err() {
            return Err(Fault::Memory);
        }
        self.text = text;
        Ok(Done {
            changed: true,
            fixed,
            left,
        })
    }

    /// Undoes the last record and removes it. Nothing can fail once the record is undone.
    fn revert_last(&mut self, alloc: Global) -> Reply
        ensures done { IfOk result
            (λ d. RevertsLast (contents_of self.old) d (contents_of self.new)) }
        ensures refused { IfErr result (λ fault. RefusesRevert (contents_of self.old) fault) }
        ensures text { OnErr result (text_of self.new ≡ text_of self.old) }
        ensures journal { OnErr result (records_of self.new ≡ records_of self.old) }
    {
        let Some(record) = self.journal.records().last() else {
            return Err(Fault::NoRecord);
        };
        undo_is_exact(record);
        match record.undo(alloc, self.text.as_slice()) {
            Ok(text) => {
                let changed = text.as_slice() != self.text.as_slice();
                let _ = self.journal.pop();
                self.text = text;
                Ok(Done {
                    changed,
                    fixed: 0,
                    left: 0,
                })
            }
            Err(refused) => Err(Fault::from(refused)),
        }
    }

    /// Removes the record of this number and keeps the later ones. Nothing can fail once all new
    /// records are made.
    fn remove_record(&mut self, alloc: Global, number: u32) -> Reply
        ensures done { IfOk result
            (λ d. RemovesRecord number (contents_of self.old) d (contents_of self.new)) }
        ensures refused { IfErr result (λ fault. RefusesTake number (contents_of self.old) fault) }
        ensures text { OnErr result (text_of self.new ≡ text_of self.old) }
        ensures journal { OnErr result (records_of self.new ≡ records_of self.old) }
    {
        let records = self.journal.records();
        let TakeResult {
            text,
            from,
            new_records: others,
        } = without_record(alloc, &self.text, records, number as usize)?;
        let changed = text.as_slice() != self.text.as_slice();
        self.journal.replace_from(from, others);
        self.text = text;
        Ok(Done {
            changed,
            fixed: 0,
            left: 0,
        })
    }

    /// Returns why `Command::Take` of this number is refused now, or `None` if it is not. Nothing
    /// changes.
    ///
    /// # Errors
    ///
    /// Out of memory.
    pub fn take_refusal(&self, alloc: Global, number: usize) -> Result<Option<Fault>, AllocError>
        ensures refusal { IfOk result (IsTakeRefusal number (contents_of self.now)) }
        ensures memory { OnErr result (TakeMayAllocate number (contents_of self.now)) }
    {
        match without_record(alloc, &self.text, self.journal.records(), number) {
            Ok(_) => Ok(None),
            Err(Fault::Memory) => Err(AllocError),
            Err(fault) => Ok(Some(fault)),
        }
    }
}
