//! Whether a file or its journal has changed.
ghost use Rattle.std.specs.Fs.{file_type, IsFile};
ghost use Rattle.std.specs.Prelude.{◌≡◌, ◌↔◌, true, is_some, is_none};
ghost use Rattle.tf_files.specs.Inner.Common.{regular_id};
ghost use Rattle.tf_files.specs.Inner.Snapshots.{access_of, snapshots_of, snapshots_of_text};

use crate::cause::{Reason, Subject, Trouble};
use crate::file_paths::FilePaths;
use crate::folder::SystemFiles;
use crate::found_files::FileId;
use crate::look::is_not_found;
use crate::trust::Access;
use std::fs::{self, Metadata, OpenFile};
use std::os::unix::fs::MetadataExt;

/// What identifies a state of a regular file: a write by another program changes one of these, but
/// for a write in the same tick of the clock that keeps the size; so does a change of its owner, its
/// group or its mode. The time of the last change of attributes is left out: on an overlay file
/// system to open a file for writing sets it.
#[derive(Clone, Copy, PartialEq, Eq)]
struct FileState {
    size: u64,
    modified: (i64, i64),
    access: Access,
}

/// A file at a moment. Of a device or a pipe there is no state, since reading changes its times.
#[derive(Clone, Copy, PartialEq, Eq)]
pub struct Snapshot {
    id: FileId,
    regular: Option<FileState>,
}

impl Snapshot {
    /// Returns the snapshot of a file of which this was found.
    pub fn of_found(found: &Metadata) -> Snapshot
        ensures { is_some result.regular ≡ true ↔ IsFile (file_type found.now) }
    {
        Snapshot {
            id: FileId::of(found),
            regular: found.is_file().then_some(FileState::of(found)),
        }
    }

    /// Returns the snapshot of an opened file; none if the system does not say.
    pub fn of_opened<F: OpenFile>(file: &F) -> Option<Snapshot> {
        match file.metadata() {
            Ok(found) => Some(Snapshot::of_found(&found)),
            Err(_) => None,
        }
    }

    /// Returns whether this opened file is the one of the snapshot, and has not changed.
    pub fn is_of<F: OpenFile>(&self, file: &F) -> bool {
        Snapshot::of_opened(file) == Some(*self)
    }

    /// Returns whether it is of a regular file.
    pub fn is_regular(&self) -> bool
        ensures { result ≡ is_some self.now.regular }
    {
        self.regular.is_some()
    }

    /// Returns the owner, group and mode of the file, if it is a regular one.
    pub fn access(&self) -> Option<Access>
        ensures { result ≡ access_of self.now }
    {
        match self.regular {
            Some(state) => Some(state.access),
            None => None,
        }
    }

    /// Returns the id of the file, if it is a regular one.
    pub fn regular_id(&self) -> Option<FileId>
        ensures { result ≡ regular_id self.now }
    {
        self.is_regular().then_some(self.id)
    }
}

/// A file and its journal at a moment. Both are compared: the text may be another command's and the
/// journal not yet, if both are read between its two renames.
#[derive(Clone, Copy, PartialEq, Eq)]
pub struct Snapshots {
    pub text: Snapshot,
    /// None where there is no journal.
    pub journal: Option<Snapshot>,
}

impl Snapshots {
    /// Returns these snapshots of both; none if one of them is missing.
    pub fn with_journal(text: Option<Snapshot>, journal: Option<Snapshot>) -> Option<Snapshots>
        ensures { result ≡ snapshots_of text journal }
    {
        match (text, journal) {
            (Some(text), Some(journal)) => Some(Snapshots {
                text,
                journal: Some(journal),
            }),
            _ => None,
        }
    }

    /// Returns this snapshot of the text where there is no journal; none if it is missing.
    pub fn without_journal(text: Option<Snapshot>) -> Option<Snapshots>
        ensures { result ≡ snapshots_of_text text }
    {
        match text {
            Some(text) => Some(Snapshots {
                text,
                journal: None,
            }),
            None => None,
        }
    }

    /// Returns the snapshots of what has both names now. The text comes last, since it is renamed
    /// right after it was compared.
    ///
    /// # Errors
    ///
    /// `Read` if the system does not say, or there is no text.
    pub fn of<R: SystemFiles>(rt: &R, paths: &FilePaths) -> Result<Snapshots, Trouble> {
        let journal = match fs::symlink_metadata(rt, &paths.journal) {
            Ok(found) => Some(Snapshot::of_found(&found)),
            Err(error) if is_not_found(&error) => None,
            Err(error) => return Err(Trouble::unread_after(Subject::Journal, &error)),
        };
        match paths.look_at_text(rt) {
            Ok(found) => Ok(Snapshots {
                text: Snapshot::of_found(&found),
                journal,
            }),
            Err(error) if is_not_found(&error) => {
                Err(Trouble::unread(Subject::File, Reason::Changed))
            }
            Err(error) => Err(Trouble::unread_after(Subject::File, &error)),
        }
    }

    /// Returns which of the two has changed since these snapshots, if one has.
    pub fn changed_since(&self, read: &Snapshots) -> Option<Subject>
        ensures { is_none result ≡ ⟦<Snapshots as PartialEq>⟧.eq self.now read.now }
    {
        if self == read {
            None
        } else if self.journal == read.journal {
            Some(Subject::File)
        } else {
            Some(Subject::Journal)
        }
    }
}

/// Returns whether this is known to lead to something that is no regular file.
pub fn is_irregular<R: SystemFiles>(rt: &R, path: &str) -> bool {
    match fs::metadata(rt, path) {
        Ok(found) => !found.is_file(),
        Err(_) => false,
    }
}

impl FileState {
    /// Returns the state of a file of which this was found.
    fn of(found: &Metadata) -> FileState {
        FileState {
            size: found.len(),
            modified: (found.mtime(), found.mtime_nsec()),
            access: Access::of(found),
        }
    }
}
