//! Whether two files, with their journals, have anything in common.

ghost use Rattle.std.specs.Fs.{file_type, IsFile};
ghost use Rattle.std.specs.Prelude.{◌≡◌, ◌↔◌, true, is_some};
ghost use Rattle.tf_files.specs.Inner.Common.{IsFileOf, IsSomeFileOf, HaveCommon, files_read};

use crate::file_paths::FilePaths;
use crate::look::Look;
use crate::snapshot::Snapshots;
use std::fs::{Metadata, OpenFile};
use std::os::unix::fs::MetadataExt;

/// What identifies a file or a directory, whatever its names are.
#[derive(Clone, Copy, PartialEq, Eq)]
pub struct FileId {
    device: u64,
    inode: u64,
}

impl FileId {
    /// Returns the id of a file of which this was found.
    pub fn of(found: &Metadata) -> FileId {
        FileId {
            device: found.dev(),
            inode: found.ino(),
        }
    }

    /// Returns the id of an opened file; none if the system does not say.
    pub fn of_opened<F: OpenFile>(file: &F) -> Option<FileId> {
        match file.metadata() {
            Ok(found) => Some(FileId::of(&found)),
            Err(_) => None,
        }
    }
}

/// Which of the files are there that a command on one file reads, writes or removes. What is not
/// there has a name that begins as that of its text does, so no other file comes to that name.
#[derive(Clone, Copy)]
pub struct FoundFiles {
    text: FileId,
    journal: Option<FileId>,
    new_text: Option<FileId>,
    new_journal: Option<FileId>,
}

impl FoundFiles {
    /// Returns the files that were found at these paths. None where the text, or a journal that is
    /// there, is no regular file, or the system does not say: then it may have anything in common
    /// with others.
    pub fn of(paths: &FilePaths) -> Option<FoundFiles> {
        let text = match paths.found_text() {
            Look::Found(text) => regular_file(text)?,
            _ => return None,
        };
        let journal = match paths.found_journal() {
            Look::Found(journal) => Some(regular_file(journal)?),
            Look::Nothing => None,
            Look::Unknown => return None,
        };
        Some(FoundFiles {
            text,
            journal,
            new_text: paths.found_new_text.as_ref().map(FileId::of),
            new_journal: paths.found_new_journal.as_ref().map(FileId::of),
        })
    }

    /// Returns the files of a text and a journal that were read, where there are no new files. None
    /// as for [`FoundFiles::of`].
    pub fn of_read(seen: Option<Snapshots>) -> Option<FoundFiles>
        ensures { result ≡ files_read seen }
    {
        let Snapshots { text, journal } = seen?;
        let text = text.regular_id()?;
        let journal = match journal {
            Some(journal) => Some(journal.regular_id()?),
            None => None,
        };
        Some(FoundFiles {
            text,
            journal,
            new_text: None,
            new_journal: None,
        })
    }

    /// Returns whether one of these files is one of the others, too.
    pub fn share(&self, others: &FoundFiles) -> bool
        ensures { result ≡ true ↔ HaveCommon self.now others.now }
    {
        others.has(self.text)
            || others.has_too(self.journal)
            || others.has_too(self.new_text)
            || others.has_too(self.new_journal)
    }

    /// Returns whether one of these files has this id.
    fn has(&self, id: FileId) -> bool
        ensures { result ≡ true ↔ IsFileOf id self.now }
    {
        id == self.text
            || self.journal == Some(id)
            || self.new_text == Some(id)
            || self.new_journal == Some(id)
    }

    /// Returns whether there is an id, and one of these files has it.
    fn has_too(&self, id: Option<FileId>) -> bool
        ensures { result ≡ true ↔ IsSomeFileOf id self.now }
    {
        match id {
            Some(id) => self.has(id),
            None => false,
        }
    }
}

/// Returns the id of a file of which this was found, if it is a regular one.
fn regular_file(found: &Metadata) -> Option<FileId>
    ensures { is_some result ≡ true ↔ IsFile (file_type found.now) }
{
    found.is_file().then_some(FileId::of(found))
}
