//! A list of exact edits of texts of one length.

ghost use Rattle.std.specs.Prelude.{◌≡◌, ◌+◌};

use crate::lists::direction::Direction;
use crate::lists::pass::apply_edits;
use crate::lists::{BadEdits, Change, Edit, Refused};
use std::alloc::{AllocError, Global};
use std::marker::Model;

/// The most bytes of a text, old or new: 16 MiB.
pub const MAX_TEXT: usize = 16_777_216;

/// A list of edits of texts of one length, in order and disjoint. Edits may touch.
#[derive(Debug, Drop)]
pub struct Edits {
    old_len: usize,
    new_len: usize,
    edits: Vec<Edit>,
}

impl Model for Edits {
    ghost use Rattle.edit_record.specs.Lists.Pieces.{EditList};
    ghost use Rattle.edit_record.specs.Lists.Validity.{AreValidEdits};

    ghost Value = { EditList };

    ghost view = { λ e. record { old_len = e.old_len; entries = e.edits.items } };

    ghost invariant = { λ e. AreValidEdits e.old_len e.new_len e.edits.items };
}

impl Edits {
    ghost use Rattle.edit_record.specs.Lists.Pieces.{as_list, removed_len, added_len};
    ghost use Rattle.edit_record.specs.Lists.Validity.{make_edits, AreValidEdits, new_len};

    /// Makes a list of the edits, for texts of `old_len` bytes. A text has at most [`MAX_TEXT`]
    /// bytes.
    ///
    /// # Errors
    ///
    /// In this order: an old length over the limit; the first edit that is empty, begins before the
    /// end of the previous one, or ends after the end of the text; a new length over the limit.
    pub fn make(old_len: usize, edits: Vec<Edit>) -> Result<Self, BadEdits>
        ensures { result ≡ make_edits old_len edits.items }
    {
        if old_len > MAX_TEXT {
            return Err(BadEdits::TooLong);
        }
        let mut from = 0;
        let mut removed = 0;
        let mut added = 0usize;
        for (i, edit) in edits.iter().enumerate() {
            let removes = edit.removed().len();
            let adds = edit.added().len();
            if removes == 0 && adds == 0 {
                return Err(BadEdits::EmptyEdit(i));
            }
            if edit.at() < from {
                return Err(BadEdits::OutOfOrder(i));
            }
            if edit.at() > old_len || removes > old_len - edit.at() {
                return Err(BadEdits::PastEnd(i));
            }
            from = edit.at() + removes;
            removed += removes;
            added = added.saturating_add(adds);
        }
        if added > MAX_TEXT - (old_len - removed) {
            return Err(BadEdits::TooLong);
        }
        let new_len = old_len - removed + added;
        Ok(Edits {
            old_len,
            new_len,
            edits,
        })
    }

    /// Makes a list of edits that are known to be valid: nothing is tested at run time.
    pub fn from_valid(old_len: usize, new_len: usize, edits: Vec<Edit>) -> Self
        requires { AreValidEdits old_len new_len edits.items }
        ensures { result ≡ as_list old_len edits.items }
    {
        Edits {
            old_len,
            new_len,
            edits,
        }
    }

    /// Returns the length of the texts that these edits apply to.
    pub fn old_len(&self) -> usize
        ensures { result ≡ self.now.old_len }
    {
        self.old_len
    }

    /// Returns the length of the texts that they make: the old one, less the removed bytes, plus
    /// the added ones.
    pub fn new_len(&self) -> usize
        ensures { result + removed_len self.now.entries
            ≡ self.now.old_len + added_len self.now.entries }
    {
        self.new_len
    }

    /// Returns the edits, in order.
    pub fn edits(&self) -> &[Edit]
        ensures same { result.now ≡ self.now.entries }
        ensures disjoint { AreValidEdits self.now.old_len (new_len self.now) result.now }
    {
        self.edits.as_slice()
    }

    /// Returns the edits, in order, by value.
    pub fn into_edits(self) -> Vec<Edit>
        ensures same { result.items ≡ self.entries }
        ensures disjoint { AreValidEdits self.old_len (new_len self) result.items }
    {
        self.edits
    }
}

impl Clone for Edits {
    ghost is_clone = { λ edits copy. copy ≡ edits };

    fn clone(&self) -> Result<Edits, AllocError> {
        Ok(Edits {
            old_len: self.old_len,
            new_len: self.new_len,
            edits: self.edits.clone()?,
        })
    }
}

impl PartialEq for Edits {
    ghost use Rattle.std.specs.Cmp.{partial_equiv_from_equiv};
    ghost use Rattle.edit_record.specs.Lists.Equality.{is_same_list};
    ghost use Rattle.edit_record.specs.Lists.Inner.EqualityExact.{equivalence, lists_exact};

    ghost eq = { is_same_list };

    ghost laws = { partial_equiv_from_equiv (equivalence lists_exact) };

    fn eq(&self, other: &Edits) -> bool {
        self.old_len == other.old_len && self.edits == other.edits
    }
}

impl Eq for Edits {
    ghost use Rattle.edit_record.specs.Lists.Inner.EqualityExact.{equivalence, lists_exact};

    ghost laws = { equivalence lists_exact };
}

impl Change for Edits {
    ghost use Rattle.edit_record.specs.Lists.Pieces.{Transforms};
    ghost use Rattle.edit_record.specs.Lists.ChangeResults.{IsChangeCallResult, AgreesWith};
    ghost use Rattle.edit_record.specs.Lists.Apply.{apply_edits};
    ghost use Rattle.edit_record.specs.Lists.Inner.Exact.{forward_exact, backward_exact, answer_never_memory};
    ghost use Rattle.edit_record.specs.declared.lists.direction.Direction.TheVariants.{Forward, Backward};

    ghost turns = { Transforms };

    ghost forward = { apply_edits Forward };

    ghost backward = { apply_edits Backward };

    ghost applies = { forward_exact };

    ghost undoes = { backward_exact };

    ghost never_memory = { λ e t. (answer_never_memory Forward e t, answer_never_memory Backward e t) };

    fn apply(&self, alloc: Global, text: &[u8]) -> Result<Vec<u8>, Refused>
        ensures agrees { AgreesWith result (apply_edits Forward self.now text.now) }
        ensures pieces { IsChangeCallResult Forward self.now text.now result }
    {
        apply_edits(
            alloc,
            Direction::Forward,
            self.old_len,
            self.new_len,
            &self.edits,
            text,
        )
    }

    fn undo(&self, alloc: Global, text: &[u8]) -> Result<Vec<u8>, Refused>
        ensures agrees { AgreesWith result (apply_edits Backward self.now text.now) }
        ensures pieces { IsChangeCallResult Backward self.now text.now result }
    {
        apply_edits(
            alloc,
            Direction::Backward,
            self.old_len,
            self.new_len,
            &self.edits,
            text,
        )
    }
}
