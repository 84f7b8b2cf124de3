//! The system calls of a save, and the replies to them.
ghost use Rattle.std.specs.Prelude.{◌≡◌};
ghost use Rattle.tf_saving.specs.Steps.{choose, choose_or_in_place};

use crate::step::Step;

/// One of the two files that are saved together.
#[derive(Clone, Copy)]
pub enum SavedFile {
    Text,
    Journal,
}

/// A system call. A part's *new file* is the one next to it that is to replace it. Each call names
/// both by the handle of their folder, which was opened before the first call, and a name in it: it
/// is made in that folder, whatever has the folder's own name by then.
#[derive(Clone, Copy)]
pub enum Syscall {
    /// Opens the part for writing, and changes nothing.
    Open(SavedFile),
    /// Looks whether the part's new file exists; one that this command created, whether it is not
    /// the part yet.
    FindNew(SavedFile),
    /// Creates the part's new file, empty. It fails if the file exists.
    CreateNew(SavedFile),
    /// Gives the new file the owner, group and mode that it is to have.
    CopyAttributes(SavedFile),
    /// Writes all bytes to the new file.
    Write(SavedFile),
    /// Waits until the bytes of the new file are durable (`fsync`).
    Sync(SavedFile),
    /// Waits until the names in the part's directory are durable (`fsync` of its handle). The reply
    /// for a directory that can't be opened to be read is `CannotReplace`; for a file system that
    /// has no such call, `Done`.
    SyncDirectory(SavedFile),
    /// Compares the file under the new file's name with the one that this command created: device
    /// and inode. Any reply but `Done` means that it is another, or that the system doesn't say.
    CompareNew(SavedFile),
    /// Compares text and journal with the files that this command read: device, inode, size, time
    /// of modification, owner, group and mode, from before the first read, the text last. Any reply
    /// but `Done` means that one has changed, or that the system doesn't say.
    Compare,
    /// Reads the new journal that was found alone. The reply is `Done` if it may replace the
    /// journal, `NotFound` if it may not: it can't be decoded, or the journal's last record can be
    /// reverted in the text and the new journal's can't.
    CanAdopt,
    /// Renames the new file to the part's name.
    Rename(SavedFile),
    /// Removes the new file; of what an interrupted command has left only what was found before the
    /// first call.
    Remove(SavedFile),
}

/// The system's reply to a call.
#[derive(Clone, Copy)]
pub enum Reply {
    Done,
    /// There is no such file.
    NotFound,
    /// It was not done, because no new file can replace this one: the directory is not writable,
    /// something is mounted there, the name is too long, the file has other links or an owner that
    /// can't be given to a new one.
    CannotReplace,
    /// It failed for any other reason, such as a full disk. It may have been done all the same.
    Failed,
}

impl Reply {
    /// Returns the step that follows this reply.
    pub fn choose(self, done: Step, not_found: Step, failed: Step) -> Step
        ensures { result ≡ choose self done not_found failed }
    {
        match self {
            Reply::Done => done,
            Reply::NotFound => not_found,
            Reply::CannotReplace | Reply::Failed => failed,
        }
    }

    /// Returns the step that follows this reply, where the part may be written in place of being
    /// replaced.
    pub fn choose_or_in_place(self, done: Step, in_place: Step, failed: Step) -> Step
        ensures { result ≡ choose_or_in_place self done in_place failed }
    {
        match self {
            Reply::Done => done,
            Reply::CannotReplace => in_place,
            Reply::NotFound | Reply::Failed => failed,
        }
    }
}
