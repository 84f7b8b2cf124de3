//! A file that a command has worked on, until it is saved and reported.

ghost use Rattle.std.specs.Prelude.{◌≡◌, true, false};
ghost use Rattle.tf_program.specs.Inner.Entries.{ArePlacedApart, IsBorrowed, IsPlacedApart, WasSaved};
ghost use Rattle.tf_program.specs.Inner.Entries.{file_of};

use crate::file_error::FileError;
use crate::files::Made;
use std::alloc::Global;
use tf_files::{ChangedFile, Store, Trouble};

/// A file that a command has worked on, until it is saved and reported.
#[derive(Drop)]
pub struct Entry<'a, P> {
    pub name: &'a str,
    pub made: Result<Made<P>, FileError>,
}

impl<'a, P: Drop> Entry<'a, P> {
    /// Returns the file if the command has changed it.
    pub fn changed_file(&self) -> Option<&ChangedFile<P>>
        ensures { IsBorrowed (file_of self.now.made) result }
    {
        match &self.made {
            Ok(made) => made.file.as_ref(),
            Err(_) => None,
        }
    }

    /// Returns how many bytes it holds.
    pub fn size(&self) -> usize {
        match &self.made {
            Ok(made) => made.size(),
            Err(_) => 0,
        }
    }

    /// Saves the file, if the command has changed it.
    pub fn save<S: Store<Place = P>>(&self, store: &mut S, alloc: Global) -> Result<(), Trouble>
        ensures { WasSaved S.spot (file_of self.now.made) result (S.known store.old)
            (S.known store.new) }
    {
        match self.changed_file() {
            Some(file) => store.save(alloc, file),
            None => Ok(()),
        }
    }

    /// Returns whether its file may have a text or a journal in common with another one.
    pub fn may_share<S: Store<Place = P>>(&self, store: &S, other: &P) -> bool
        ensures { result ≡ false → IsPlacedApart S.spot (S.known store.now) (file_of self.now.made)
            other.now }
    {
        match self.changed_file() {
            Some(file) => store.may_share(&file.place, other),
            None => false,
        }
    }
}

/// Returns whether none of the files of entries may have a text or a journal in common with another
/// one.
pub fn none_may_share<S: Store>(
    store: &S,
    entries: &[Entry<'_, S::Place>],
    other: &S::Place,
) -> bool
    ensures { result ≡ true → ArePlacedApart S.spot (S.known store.now) entries.now other.now }
{
    for entry in entries {
        if entry.may_share(store, other) {
            return false;
        }
    }
    true
}
