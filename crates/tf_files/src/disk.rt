//! The files of the system as a store. What they hold is not known: other programs may change them.

ghost use Rattle.std.specs.Prelude.{◌≡◌, ◌↔◌, None, true, IfOk, IfErr};
ghost use Rattle.tf_files.specs.Inner.Common.{MayHaveCommon};
ghost use Rattle.tf_files.specs.Opening.{is_file_fault};
ghost use Rattle.tf_files.specs.Stores.{Spot};

use crate::adoption::{can_adopt, has_good_journal};
use crate::cause::{Subject, Trouble};
use crate::changed_file::{save, save_together};
use crate::file_paths::FilePaths;
use crate::folder::SystemFiles;
use crate::found_files::FoundFiles;
use crate::leftovers::{Found, Leftovers, open_found};
use crate::reading::{ReadContents, open_to_read, read, read_with};
use crate::saves::recover;
use crate::snapshot::Snapshots;
use crate::store::{ChangedFile, ReadFile, Store};
use std::alloc::{AllocError, Global};
use tf_session::{Told, take_text};

/// The files of the system.
#[derive(Drop)]
pub struct Disk<'a, R> {
    rt: &'a R,
}

/// Where a file and its journal are on the disk.
#[derive(Drop)]
pub struct DiskFile {
    pub paths: FilePaths,
    /// Both files from before they were read.
    pub read: Option<Snapshots>,
    /// None where it may have files in common with any other.
    found: Option<FoundFiles>,
}

impl<'a, R: SystemFiles> Disk<'a, R> {
    /// Returns the files of this system.
    pub fn new(rt: &'a R) -> Disk<'a, R> {
        Disk { rt }
    }
}

impl DiskFile {
    /// Returns whether it may have a text or a journal in common with another one.
    fn may_share(&self, other: &DiskFile) -> bool
        ensures { result ≡ true ↔ MayHaveCommon self.now.found other.now.found }
    {
        match (&self.found, &other.found) {
            (Some(ours), Some(others)) => ours.share(others),
            _ => true,
        }
    }
}

impl<'a, R: SystemFiles> Store for Disk<'a, R> {
    type Place = DiskFile;

    ghost known = { λ _. None };

    ghost spot = { λ _. record { text = 0; journal = 0 } };

    fn find(&self, alloc: Global, name: &str) -> Result<DiskFile, Trouble> {
        let paths = FilePaths::of(self.rt, alloc, name)?;
        let found = FoundFiles::of(&paths);
        Ok(DiskFile {
            paths,
            read: None,
            found,
        })
    }

    fn read(&mut self, alloc: Global, place: &mut DiskFile) -> Result<ReadFile, Trouble> {
        recover_left(self.rt, alloc, &place.paths)?;
        let contents = read(self.rt, alloc, &place.paths)?;
        place.found = FoundFiles::of_read(contents.seen);
        place.read = contents.seen;
        Ok(contents.without_snapshots())
    }

    fn read_only(&self, alloc: Global, name: &str) -> Result<ReadFile, Trouble> {
        let paths = FilePaths::of(self.rt, alloc, name)?;
        match read_current(self.rt, alloc, &paths) {
            Ok(contents) => Ok(contents.without_snapshots()),
            Err(trouble) => Err(trouble.of_files()),
        }
    }

    fn read_text(&self, alloc: Global, name: &str) -> Result<Vec<u8>, Trouble> {
        let file = open_to_read(self.rt, name)?;
        match take_text(alloc, &mut Told::new(file)) {
            Ok(text) => Ok(text),
            Err(fault) => Err(Trouble::of_text(fault).of_files()),
        }
    }

    fn can_wait(&self, place: &DiskFile) -> bool {
        place.found.is_some() && place.paths.text_folder().can_open_more()
    }

    fn may_share(&self, waiting: &DiskFile, other: &DiskFile) -> bool {
        waiting.may_share(other)
    }

    fn save(&mut self, alloc: Global, file: &ChangedFile<DiskFile>) -> Result<(), Trouble> {
        save(self.rt, alloc, file)
    }

    fn save_together(
        &mut self,
        alloc: Global,
        files: &[&ChangedFile<DiskFile>],
    ) -> Result<Vec<Result<(), Trouble>>, AllocError> {
        save_together(self.rt, alloc, files)
    }
}

/// Recovers from a command that was interrupted, if it has left new files and the journal can be
/// decoded: else nothing is removed or renamed.
///
/// # Errors
///
/// Those of [`recover`]; `Read` if a file there may not be taken for a new one; `Memory`.
fn recover_left<R: SystemFiles>(rt: &R, alloc: Global, paths: &FilePaths) -> Result<(), Trouble>
    ensures { IfErr result (λ trouble. is_file_fault trouble.fault ≡ true) }
{
    let left = Leftovers::of(rt, paths)?;
    if left.are_none() {
        return Ok(());
    }
    match has_good_journal(rt, alloc, paths) {
        Ok(true) => recover(rt, alloc, paths, left),
        // the command itself will say what is wrong with it
        Ok(false) => Ok(()),
        Err(trouble) => Err(trouble.of_files()),
    }
}

/// Reads a file and the journal that belongs to it: the new one if a command was interrupted after
/// it had replaced the text.
fn read_current<R: SystemFiles>(
    rt: &R,
    alloc: Global,
    paths: &FilePaths,
) -> Result<ReadContents, Trouble> {
    let left = Leftovers::of(rt, paths)?;
    let Some(found) = left.lone_journal() else {
        return read(rt, alloc, paths);
    };
    let new = open_found(rt, &paths.new_journal, found, Subject::NewJournal)?;
    if has_good_journal(rt, alloc, paths)? && can_adopt(rt, alloc, paths, &new)? {
        reread_with(rt, alloc, paths, found)
    } else {
        read(rt, alloc, paths)
    }
}

/// Reads a file and its new journal, which has to be the one that was found.
fn reread_with<R: SystemFiles>(
    rt: &R,
    alloc: Global,
    paths: &FilePaths,
    found: Found,
) -> Result<ReadContents, Trouble> {
    let new = open_found(rt, &paths.new_journal, found, Subject::NewJournal)?;
    read_with(rt, alloc, paths, &new)
}
