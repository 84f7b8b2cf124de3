//! The change that one command made to a text.

ghost use Rattle.std.specs.Prelude.{◌≡◌};
ghost use Rattle.edit_record.specs.Lists.Equality.{is_same_word};

use crate::lists::{Change, Edits, Refused};
use std::alloc::{AllocError, Global};
use std::marker::Model;

/// The command that made a record.
#[derive(Clone, Copy, Debug, PartialEq, Eq)]
pub enum Word {
    Fmt,
    Fix,
}

/// The change that one command made to a text. Its edits are its only step, number 0.
#[derive(Debug, Drop)]
pub struct Record {
    word: Word,
    edits: Edits,
}

impl Model for Record {
    ghost use Rattle.edit_record.specs.Lists.Journal.{JournalEntry};

    ghost Value = { JournalEntry };

    ghost view = { λ r. record { word = r.word; edits = r.edits } };
}

impl Record {
    ghost use Rattle.edit_record.specs.Lists.Journal.{JournalEntry};

    /// Makes the record of a command that made these edits.
    pub fn make(word: Word, edits: Edits) -> Self
        ensures { result ≡ record { word = word; edits = edits } }
    {
        Record { word, edits }
    }

    /// Returns the command.
    pub fn word(&self) -> Word
        ensures { result ≡ self.now.word }
    {
        self.word
    }

    /// Returns the edits.
    pub fn edits(&self) -> &Edits
        ensures { result.now ≡ self.now.edits }
    {
        &self.edits
    }
}

impl Clone for Record {
    ghost is_clone = { λ rec copy. copy ≡ rec };

    fn clone(&self) -> Result<Record, AllocError> {
        Ok(Record {
            word: self.word,
            edits: self.edits.clone()?,
        })
    }
}

impl PartialEq for Record {
    ghost use Rattle.std.specs.Cmp.{partial_equiv_from_equiv};
    ghost use Rattle.edit_record.specs.Lists.Equality.{is_same_record};
    ghost use Rattle.edit_record.specs.Lists.Inner.EqualityExact.{equivalence, records_exact};

    ghost eq = { is_same_record };

    ghost laws = { partial_equiv_from_equiv (equivalence records_exact) };

    fn eq(&self, other: &Record) -> bool {
        is_same_word(self.word, other.word) && self.edits == other.edits
    }
}

impl Eq for Record {
    ghost use Rattle.edit_record.specs.Lists.Inner.EqualityExact.{equivalence, records_exact};

    ghost laws = { equivalence records_exact };
}

/// Returns whether both are one command. For the proof: a derived `==` names no function.
fn is_same_word(one: Word, other: Word) -> bool
    ensures { result ≡ is_same_word one other }
{
    match (one, other) {
        (Word::Fmt, Word::Fmt) | (Word::Fix, Word::Fix) => true,
        _ => false,
    }
}

impl Change for Record {
    ghost use Rattle.edit_record.specs.Lists.Journal.{record_transforms, record_forward, record_backward};
    ghost use Rattle.edit_record.specs.Lists.ChangeResults.{IsChangeCallResult, AgreesWith};
    ghost use Rattle.edit_record.specs.Lists.Inner.JournalExact.{record_applies, record_undoes};
    ghost use Rattle.edit_record.specs.Lists.Inner.JournalExact.{record_never_memory};
    ghost use Rattle.edit_record.specs.declared.lists.direction.Direction.TheVariants.{Forward, Backward};

    ghost turns = { record_transforms };

    ghost forward = { record_forward };

    ghost backward = { record_backward };

    ghost applies = { record_applies };

    ghost undoes = { record_undoes };

    ghost never_memory = { record_never_memory };

    fn apply(&self, alloc: Global, text: &[u8]) -> Result<Vec<u8>, Refused>
        ensures agrees { AgreesWith result (record_forward self.now text.now) }
        ensures pieces { IsChangeCallResult Forward self.now.edits text.now result }
    {
        self.edits.apply(alloc, text)
    }

    fn undo(&self, alloc: Global, text: &[u8]) -> Result<Vec<u8>, Refused>
        ensures agrees { AgreesWith result (record_backward self.now text.now) }
        ensures pieces { IsChangeCallResult Backward self.now.edits text.now result }
    {
        self.edits.undo(alloc, text)
    }
}
