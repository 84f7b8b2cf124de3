//! One exact edit of a text.

ghost use Rattle.std.specs.Prelude.{◌≡◌, ◌+◌, ◌≤◌, ◌<◌, length, take, drop, IfOk, IfErr, IfSome};
ghost use Rattle.edit_record.specs.Lists.Inner.Storage.{removed_of, added_of, IsValidStorage};
ghost use Rattle.edit_record.specs.declared.lists.edit.TheConstants.{INLINE_CAPACITY};

use crate::lists::MAX_TEXT;
use std::alloc::{AllocError, Global};
use std::fmt::{self, Debug};
use std::marker::Model;
use thiserror::Error;

/// The most bytes, removed and added together, that an edit stores inline. With the two lengths and
/// the tag they fill 16 bytes.
pub(crate) const INLINE_CAPACITY: usize = 13;

/// Replaces the bytes `removed` at offset `at` of the old text by `added`.
///
/// An edit takes 24 bytes. It allocates only if the two texts together have more than 13 bytes.
#[derive(Drop)]
pub struct Edit {
    at: usize,
    storage: Storage,
}

// A text full of issues has an edit for each, most of a few bytes.
const _: () = prove!(size_of::<Edit>() == 24);

/// The removed bytes followed by the added ones. The first `removed_end` bytes are the removed
/// ones.
#[derive(Drop)]
enum Storage {
    Inline {
        removed_end: u8,
        len: u8,
        bytes: [u8; INLINE_CAPACITY],
    },
    Heap(Box<HeapBytes>),
}

#[derive(Drop)]
struct HeapBytes {
    removed_end: usize,
    bytes: Vec<u8>,
}

impl Model for Edit {
    ghost use Rattle.edit_record.specs.Lists.Pieces.{EditEntry};
    ghost use Rattle.edit_record.specs.Lists.Inner.Storage.{removed_of, added_of, IsValidStorage};

    ghost Value = { EditEntry };

    ghost view = { λ e.
        record { at = e.at; removed = removed_of e.storage; added = added_of e.storage } };

    ghost invariant = { λ e. IsValidStorage e.storage };
}

impl Edit {
    /// Makes the edit that removes `removed` at `at`, and adds `added` there.
    ///
    /// # Errors
    ///
    /// Returns `AllocError` if memory runs out; never for two texts that together have at most
    /// `INLINE_CAPACITY` bytes.
    pub fn new(alloc: Global, at: usize, removed: &[u8], added: &[u8]) -> Result<Self, AllocError>
        ensures edit { IfOk result
            (λ e. e ≡ record { at = at; removed = removed.now; added = added.now }) }
        ensures allocates { IfErr result (λ _. INLINE_CAPACITY < length removed.now + length added.now) }
    {
        let storage = if removed.len() <= INLINE_CAPACITY
            && added.len() <= INLINE_CAPACITY - removed.len()
        {
            store_inline(removed, added)
        } else {
            store_on_heap(alloc, removed, added)?
        };
        Ok(Edit { at, storage })
    }

    /// Makes the edit whose two texts are one after the other at the start of `texts`. All these
    /// bytes are copied at once, since that is faster than to copy only those of the edit.
    #[inline(always)]
    pub(crate) fn from_adjacent(
        at: usize,
        removed: usize,
        added: usize,
        texts: [u8; INLINE_CAPACITY],
    ) -> Self
        requires { removed + added ≤ INLINE_CAPACITY }
        ensures { result
            ≡ record { at = at; removed = take removed texts; added = take added (drop removed texts) } }
    {
        Edit {
            at,
            storage: Storage::Inline {
                removed_end: removed as u8,
                len: (removed + added) as u8,
                bytes: texts,
            },
        }
    }

    /// Returns the edit's offset in the old text, in bytes from 0.
    pub fn at(&self) -> usize
        ensures { result ≡ self.now.at }
    {
        self.at
    }

    /// Moves the edit to another offset. It allocates nothing.
    pub fn set_at(&mut self, at: usize)
        ensures { self.new
            ≡ record { at = at; removed = self.old.removed; added = self.old.added } }
    {
        self.at = at;
    }

    /// Returns a copy of the edit at another offset. What is stored inline is copied as it is.
    #[inline(always)]
    pub(crate) fn copy_at(&self, at: usize) -> Result<Edit, AllocError>
        ensures { IfOk result
            (λ e. e ≡ record { at = at; removed = self.now.removed; added = self.now.added }) }
    {
        match &self.storage {
            Storage::Inline {
                removed_end,
                len,
                bytes,
            } => Ok(Edit {
                at,
                storage: Storage::Inline {
                    removed_end: *removed_end,
                    len: *len,
                    bytes: *bytes,
                },
            }),
            Storage::Heap(_) => self.copy_long_at(at),
        }
    }

    /// Returns a copy of an edit of any length at another offset.
    #[inline(always)]
    fn copy_long_at(&self, at: usize) -> Result<Edit, AllocError>
        ensures { IfOk result
            (λ e. e ≡ record { at = at; removed = self.now.removed; added = self.now.added }) }
    {
        let mut copy = self.clone()?;
        copy.set_at(at);
        Ok(copy)
    }

    /// Returns how many bytes the edit removes, how many it adds, and an array that begins with
    /// these bytes, if they are stored inline.
    #[inline(always)]
    pub(crate) fn inline_texts(&self) -> Option<(usize, usize, &[u8; INLINE_CAPACITY])>
        ensures few { IfSome result (λ x. x.0 + x.1 ≤ INLINE_CAPACITY) }
        ensures removed { IfSome result (λ x. self.now.removed ≡ take x.0 x.2.now) }
        ensures added { IfSome result (λ x. self.now.added ≡ take x.1 (drop x.0 x.2.now)) }
    {
        match &self.storage {
            Storage::Inline {
                removed_end,
                len,
                bytes,
            } => {
                let removed = *removed_end as usize;
                Some((removed, *len as usize - removed, bytes))
            }
            Storage::Heap(_) => None,
        }
    }

    /// Returns the bytes that the edit removes.
    pub fn removed(&self) -> &[u8]
        ensures { result.now ≡ self.now.removed }
    {
        match &self.storage {
            Storage::Inline {
                removed_end,
                bytes,
                ..
            } => &bytes[..*removed_end as usize],
            Storage::Heap(long) => &long.bytes[..long.removed_end],
        }
    }

    /// Returns the bytes that the edit adds in their place.
    pub fn added(&self) -> &[u8]
        ensures { result.now ≡ self.now.added }
    {
        match &self.storage {
            Storage::Inline {
                removed_end,
                len,
                bytes,
            } => &bytes[*removed_end as usize..*len as usize],
            Storage::Heap(long) => &long.bytes[long.removed_end..],
        }
    }
}

/// Stores both texts in the edit itself.
fn store_inline(removed: &[u8], added: &[u8]) -> Storage
    requires { length removed.now + length added.now ≤ INLINE_CAPACITY }
    ensures removed { removed_of result ≡ removed.now }
    ensures added { added_of result ≡ added.now }
    ensures valid { IsValidStorage result }
{
    let removed_end = removed.len();
    let len = removed_end + added.len();
    let mut bytes = [0; INLINE_CAPACITY];
    bytes[..removed_end].copy_from_slice(removed);
    bytes[removed_end..len].copy_from_slice(added);
    Storage::Inline {
        removed_end: removed_end as u8,
        len: len as u8,
        bytes,
    }
}

/// Stores both texts on the heap.
#[inline(always)]
fn store_on_heap(alloc: Global, removed: &[u8], added: &[u8]) -> Result<Storage, AllocError>
    ensures removed { IfOk result (λ storage. removed_of storage ≡ removed.now) }
    ensures added { IfOk result (λ storage. added_of storage ≡ added.now) }
    ensures valid { IfOk result IsValidStorage }
{
    let len = removed.len().saturating_add(added.len());
    let mut bytes = Vec::with_capacity(alloc, len)?;
    bytes.extend_from_slice(removed)?;
    bytes.extend_from_slice(added)?;
    let long = HeapBytes {
        removed_end: removed.len(),
        bytes,
    };
    Ok(Storage::Heap(Box::new(alloc, long)?))
}

impl Clone for Edit {
    ghost is_clone = { λ edit copy. copy ≡ edit };

    fn clone(&self) -> Result<Edit, AllocError> {
        let storage = match &self.storage {
            Storage::Inline {
                removed_end,
                len,
                bytes,
            } => Storage::Inline {
                removed_end: *removed_end,
                len: *len,
                bytes: *bytes,
            },
            Storage::Heap(long) => {
                store_on_heap(*long.bytes.allocator(), self.removed(), self.added())?
            }
        };
        Ok(Edit {
            at: self.at,
            storage,
        })
    }
}

impl PartialEq for Edit {
    ghost use Rattle.std.specs.Cmp.{partial_equiv_from_equiv};
    ghost use Rattle.edit_record.specs.Lists.Equality.{is_same_edit};
    ghost use Rattle.edit_record.specs.Lists.Inner.EqualityExact.{equivalence, edits_exact};

    ghost eq = { is_same_edit };

    ghost laws = { partial_equiv_from_equiv (equivalence edits_exact) };

    fn eq(&self, other: &Edit) -> bool {
        self.at == other.at && self.removed() == other.removed() && self.added() == other.added()
    }
}

impl Eq for Edit {
    ghost use Rattle.edit_record.specs.Lists.Inner.EqualityExact.{equivalence, edits_exact};

    ghost laws = { equivalence edits_exact };
}

impl Debug for Edit {
    fn fmt<W: fmt::Write>(&self, f: &mut fmt::Formatter<W>) -> fmt::Result {
        f.debug_struct("Edit")
            .field("at", &self.at)
            .field("removed", &self.removed())
            .field("added", &self.added())
            .finish()
    }
}

/// Why edits are no list of edits of a text. Edits are numbered from 0.
#[derive(Clone, Copy, Debug, PartialEq, Eq, Error)]
pub enum BadEdits {
    /// The edit removes nothing and adds nothing.
    #[error("edit {0} removes nothing and adds nothing")]
    EmptyEdit(usize),
    /// The edit begins before the previous one ends.
    #[error("edit {0} begins before the end of the one before")]
    OutOfOrder(usize),
    /// The edit ends after the end of the text.
    #[error("edit {0} ends past the end of the text")]
    PastEnd(usize),
    /// The old text or the new one is longer than a text can be.
    #[error("the text has more than {} bytes", MAX_TEXT)]
    TooLong,
}
