//! The records of the commands that changed a text.

ghost use Rattle.std.specs.Prelude.{◌≡◌, ◌≤◌, ◌+◌, [], ◌∷◌, ◌++◌, length, take, drop, OnOk, OnErr, IfErr};
ghost use Rattle.std.specs.Prelude.{IsNone, option_to_list};
ghost use Rattle.edit_record.specs.Text.{IsCurrentText};
ghost use Rattle.edit_record.specs.Inner.KnownText.{SplitsKnown};

use crate::lists::known_text::{shorten_known_text, text_to_keep};
use crate::lists::sequence::{apply_records, undo_records};
use crate::lists::{Change, Record, Refused};
use std::alloc::{AllocError, AllocFailed, Global};
use std::fmt::{self, Debug};
use std::marker::Model;

/// The records of the commands that changed a text, the oldest first.
#[derive(Drop)]
pub struct Journal {
    records: Vec<Record>,
    /// The text of the first `known` records, if they were read from it. For speed alone: where
    /// they are written again it is copied, or what follows is written after it.
    text: Vec<u8>,
    known: usize,
}

impl Model for Journal {
    ghost use Rattle.std.specs.Prelude.{List, vec_capacity};
    ghost use Rattle.edit_record.specs.Lists.Journal.{JournalEntry};
    ghost use Rattle.edit_record.specs.Inner.KnownText.{IsKeptText};

    ghost Value = { List JournalEntry };

    ghost view = { λ j. j.records.items };

    ghost invariant = { λ j. IsKeptText j.records.items j.known j.text.items (vec_capacity j.text) };
}

impl Journal {
    /// Makes a journal with no records. It allocates only when a record is added.
    pub fn empty(alloc: Global) -> Self
        ensures { result ≡ [] }
    {
        Journal {
            records: Vec::new(alloc),
            text: Vec::new(alloc),
            known: 0,
        }
    }

    /// Keeps the text that the records were read from, unless its memory is much more.
    pub(crate) fn keep_text(&mut self, text: Vec<u8>)
        requires { IsCurrentText text.items self.old }
        ensures { self.new ≡ self.old }
    {
        if let Some(text) = text_to_keep(text) {
            self.known = self.records.len();
            self.text = text;
        }
    }

    /// Returns the text of the first records, as far as it was kept, and the other records.
    pub(crate) fn known_text(&self) -> (&[u8], &[Record])
        ensures { SplitsKnown self.now result.0.now result.1.now }
    {
        (self.text.as_slice(), &self.records[self.known..])
    }

    /// Returns the text of the first records, as far as it was kept, all records, and how many of
    /// them have that text.
    pub(crate) fn into_known_text(self) -> (Vec<u8>, Vec<Record>, usize)
        ensures within { result.2 ≤ length result.1.items }
        ensures splits { SplitsKnown self result.0.items (drop result.2 result.1.items) }
    {
        let Journal {
            records,
            text,
            known,
        } = self;
        (text, records, known)
    }

    /// Adds a record at the end.
    ///
    /// # Errors
    ///
    /// If memory runs out the error has the record, and the journal is as before.
    pub fn push(&mut self, last: Record) -> Result<(), AllocFailed<Record>>
        ensures ok { OnOk result (self.new ≡ self.old ++ last ∷ []) }
        ensures unchanged { OnErr result (self.new ≡ self.old) }
        ensures back { IfErr result (λ e. e.value ≡ last) }
    {
        self.records.push(last)
    }

    /// Removes the last record and returns it, if there is one.
    pub fn pop(&mut self) -> Option<Record>
        ensures rest { self.old ≡ self.new ++ option_to_list result }
        ensures none { IsNone result → self.old ≡ [] }
    {
        let others = self.records.len().saturating_sub(1);
        self.known = shorten_known_text(&self.records, self.known, &mut self.text, others);
        self.records.pop()
    }

    /// Replaces the records from this number on, counted from 0. It allocates nothing, since there
    /// are no more of the others than of those.
    pub fn replace_from(&mut self, from: usize, others: Vec<Record>)
        requires { from + length others.items ≤ length self.old }
        ensures { self.new ≡ take from self.old ++ others.items }
    {
        let mut others = others;
        self.known = shorten_known_text(&self.records, self.known, &mut self.text, from);
        self.records.truncate(from);
        let _ = self.records.append(&mut others);
    }

    /// Returns the records, the oldest first.
    pub fn records(&self) -> &[Record]
        ensures { result.now ≡ self.now }
    {
        self.records.as_slice()
    }
}

impl Clone for Journal {
    ghost is_clone = { λ journal copy. copy ≡ journal };

    fn clone(&self) -> Result<Journal, AllocError> {
        Ok(Journal {
            records: self.records.clone()?,
            text: Vec::new(*self.records.allocator()),
            known: 0,
        })
    }
}

impl Debug for Journal {
    fn fmt<W: fmt::Write>(&self, f: &mut fmt::Formatter<W>) -> fmt::Result {
        f.debug_struct("Journal")
            .field("records", &self.records)
            .finish()
    }
}

impl PartialEq for Journal {
    ghost use Rattle.std.specs.Cmp.{partial_equiv_from_equiv};
    ghost use Rattle.edit_record.specs.Lists.Equality.{is_same_journal};
    ghost use Rattle.edit_record.specs.Lists.Inner.EqualityExact.{equivalence, journals_exact};

    ghost eq = { is_same_journal };

    ghost laws = { partial_equiv_from_equiv (equivalence journals_exact) };

    fn eq(&self, other: &Journal) -> bool {
        self.records == other.records
    }
}

impl Eq for Journal {
    ghost use Rattle.edit_record.specs.Lists.Inner.EqualityExact.{equivalence, journals_exact};

    ghost laws = { equivalence journals_exact };
}

impl Change for Journal {
    ghost use Rattle.edit_record.specs.Lists.Journal.{journal_transforms, journal_forward, journal_backward};
    ghost use Rattle.edit_record.specs.Lists.JournalResults.{IsJournalCallResult};
    ghost use Rattle.edit_record.specs.Lists.ChangeResults.{AgreesWith};
    ghost use Rattle.edit_record.specs.Lists.Inner.JournalExact.{journal_applies, journal_undoes};
    ghost use Rattle.edit_record.specs.Lists.Inner.JournalExact.{journal_never_memory};
    ghost use Rattle.edit_record.specs.declared.lists.direction.Direction.TheVariants.{Forward, Backward};

    ghost turns = { journal_transforms };

    ghost forward = { journal_forward };

    ghost backward = { journal_backward };

    ghost applies = { journal_applies };

    ghost undoes = { journal_undoes };

    ghost never_memory = { journal_never_memory };

    fn apply(&self, alloc: Global, text: &[u8]) -> Result<Vec<u8>, Refused>
        ensures agrees { AgreesWith result (journal_forward self.now text.now) }
        ensures pieces { IsJournalCallResult Forward self.now text.now result }
    {
        apply_records(alloc, &self.records, text)
    }

    fn undo(&self, alloc: Global, text: &[u8]) -> Result<Vec<u8>, Refused>
        ensures agrees { AgreesWith result (journal_backward self.now text.now) }
        ensures pieces { IsJournalCallResult Backward self.now text.now result }
    {
        undo_records(alloc, &self.records, text)
    }
}
