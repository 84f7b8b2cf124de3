//! What a command needs of files and their journals: to find them by name, to read and to save them.

ghost use Rattle.std.specs.Prelude.{◌≡◌, ◌+◌, ◌-◌, ◌^◌, Option, false, IfOk, IfErr, OnErr, length, map, min};
ghost use Rattle.tf_files.specs.Stores.{Files, Spot, IsSpotOf, IfKnown, AreApart, HasContentsAt, HasContents};
ghost use Rattle.tf_files.specs.Stores.{HasTextOf, MayFail, MayFailAt, Saves, SavesEach, IsSaveResult};
ghost use Rattle.tf_files.specs.Stores.{contents_to_save, contents_read};

use crate::cause::Trouble;
use std::alloc::{AllocError, Global};

/// The bytes of a file and of its journal. A journal that is not there is the empty one.
#[derive(Drop)]
pub struct ReadFile {
    pub text: Vec<u8>,
    pub journal: Vec<u8>,
}

/// A file with the text and the journal that it is to have. Neither is written yet.
#[derive(Drop)]
pub struct ChangedFile<P> {
    pub place: P,
    pub text: Vec<u8>,
    pub journal: Vec<u8>,
}

impl<P> ChangedFile<P> {
    /// Returns how many bytes it holds.
    pub fn size(&self) -> usize
        ensures { result ≡ min (length self.now.text.items + length self.now.journal.items)
            (2 ^ 64 - 1) }
    {
        self.text.len().saturating_add(self.journal.len())
    }
}

/// Files that have names, each with its journal.
pub trait Store {
    /// Where a file and its journal are, and what is known of them.
    type Place: Drop;

    ghost known: { Self → Option Files };

    ghost spot: { Self.Place → Spot };

    /// Finds where the file of a name and its journal are.
    ///
    /// # Errors
    ///
    /// `Memory`; `Read`.
    fn find(&self, alloc: Global, name: &str) -> Result<Self::Place, Trouble>
        ensures place { IfOk result (λ place. IsSpotOf (known self.now) name.now (spot place)) }
        ensures fault { IfErr result (λ trouble. MayFail (known self.now) name.now trouble.fault) };

    /// Reads a file and its journal, after it has completed or undone what an interrupted command
    /// was saving there.
    ///
    /// # Errors
    ///
    /// `Memory`; `Endless` for a text or a journal that is too long; `Read`, and `Write` of the
    /// journal, for what an interrupted command has left.
    fn read(&mut self, alloc: Global, place: &mut Self::Place) -> Result<ReadFile, Trouble>
        ensures known { known self.new ≡ known self.old }
        ensures place { spot place.new ≡ spot place.old }
        ensures contents { IfOk result
            (λ read. HasContentsAt (known self.old) (spot place.old) (contents_read read)) }
        ensures fault { IfErr result
            (λ trouble. MayFailAt (known self.old) (spot place.old) trouble.fault) };

    /// Reads the file of a name and its journal, and writes nothing.
    ///
    /// # Errors
    ///
    /// `Memory`; `Endless` for a text or a journal that is too long; `Read`.
    fn read_only(&self, alloc: Global, name: &str) -> Result<ReadFile, Trouble>
        ensures contents { IfOk result
            (λ read. HasContents (known self.now) name.now (contents_read read)) }
        ensures fault { IfErr result (λ trouble. MayFail (known self.now) name.now trouble.fault) };

    /// Reads the file of a name.
    ///
    /// # Errors
    ///
    /// `Memory`; `Endless` for a text that is too long; `Read`.
    fn read_text(&self, alloc: Global, name: &str) -> Result<Vec<u8>, Trouble>
        ensures text { IfOk result (λ text. HasTextOf (known self.now) name.now text.items) }
        ensures fault { IfErr result (λ trouble. MayFail (known self.now) name.now trouble.fault) };

    /// Returns whether a file that was read may be saved after another one is read.
    fn can_wait(&self, place: &Self::Place) -> bool;

    /// Returns whether a file that is to be saved may have a text or a journal in common with
    /// another one.
    fn may_share(&self, waiting: &Self::Place, other: &Self::Place) -> bool
        ensures { result ≡ false
            → IfKnown (known self.now) (AreApart (spot waiting.now) (spot other.now)) };

    /// Saves a file and its journal. After an error both are as they were, or both are saved.
    ///
    /// # Errors
    ///
    /// `Write` with the part and the number of its bytes that were written, 0 where another program
    /// has changed a file meanwhile; `Read` where it is not known which of both the file is;
    /// `Memory`.
    fn save(&mut self, alloc: Global, file: &ChangedFile<Self::Place>) -> Result<(), Trouble>
        ensures saved { Saves (spot file.now.place) (contents_to_save file.now) result
            (known self.old) (known self.new) }
        ensures fault { IsSaveResult (known self.old) (spot file.now.place) result };

    /// Saves files that have nothing in common, and returns the result of each, in their order.
    ///
    /// # Errors
    ///
    /// Where there is no memory for that nothing is done.
    fn save_together(
        &mut self,
        alloc: Global,
        files: &[&ChangedFile<Self::Place>],
    ) -> Result<Vec<Result<(), Trouble>>, AllocError>
        ensures saved { IfOk result
            (λ results. SavesEach spot (map (λ file. file.now) files.now) results.items
            (known self.old) (known self.new)) }
        ensures unsaved { OnErr result (known self.new ≡ known self.old) };
}
