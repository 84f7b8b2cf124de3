//! Makes the system calls that save one of the two files, and returns the replies to them.

ghost use Rattle.std.specs.IoError.{raw_os_error};
ghost use Rattle.std.specs.Prelude.{◌≡◌, string_bytes, Some};
ghost use Rattle.tf_files.specs.Causes.{refused_with};
ghost use Rattle.tf_files.specs.Inner.Causes.{unlike, with_cause};
ghost use Rattle.tf_files.specs.Inner.Paths.{text_folder, journal_folder};
ghost use Rattle.tf_files.specs.Inner.Replies.{reply_to};

use crate::adoption::can_adopt;
use crate::cause::{Cause, Reason, Subject};
use crate::file_part::{session_part, write_part};
use crate::file_paths::FilePaths;
use crate::folder::{Folder, SystemFiles};
use crate::leftovers::{Found, open_found};
use crate::look::is_not_found;
use crate::new_file::{
    copy_attributes, create_new, find_new, find_own_new, start_writing, truncate,
};
use crate::snapshot::{Snapshots, is_irregular};
use std::alloc::Global;
use std::fs::{self, File, OpenFile, OpenOptions};
use std::io::{self, ErrorKind};
use tf_saving::{Reply, SavedFile, Syscall};
use tf_session::RunFault;

/// What is known of a part's new file.
#[derive(Drop)]
pub enum NewFile {
    /// What an interrupted command has left, as it was found; nothing else is touched.
    Left(Option<Found>),
    /// This command has created none; another may have.
    NotCreated,
    /// Its creation failed, and may have been done all the same.
    InDoubt,
    /// This command has created it, or read what was left. It stays open until it replaces the old
    /// one, so that no other file gets its inode meanwhile.
    Open(File),
}

/// One of the two files that are saved. Its paths begin at the handle of its folder.
#[derive(Drop)]
pub struct PartFile<'a> {
    /// The folder in which both names are.
    pub folder: &'a Folder,
    /// The path of the old file.
    pub own: &'a str,
    /// The path of the new file.
    pub new: &'a str,
    pub paths: &'a FilePaths,
    pub new_file: NewFile,
    pub bytes: &'a [u8],
    /// How many bytes were written.
    pub sent: usize,
    /// Both files from before they were read.
    pub read: Option<Snapshots>,
    pub is_out_of_memory: bool,
    /// Why the last call failed that did, if it is known.
    pub cause: Option<Cause>,
    subject: Subject,
    /// Whether the system is to start writing the new file before anything waits for it.
    starts_early: bool,
}

impl<'a> PartFile<'a> {
    /// Returns the text's file. `read` is what both files were before they were read.
    pub fn text(
        paths: &'a FilePaths,
        bytes: &'a [u8],
        read: Option<Snapshots>,
        new_file: NewFile,
        starts_early: bool,
    ) -> PartFile<'a>
        ensures folder { result.folder.now ≡ text_folder paths.now }
        ensures own { result.own.now ≡ string_bytes paths.now.text }
        ensures new { result.new.now ≡ string_bytes paths.now.new_text }
        ensures paths { result.paths.now ≡ paths.now }
        ensures bytes { result.bytes.now ≡ bytes.now }
        ensures read { result.read ≡ read }
        ensures new_file { result.new_file ≡ new_file }
        ensures sent { result.sent ≡ 0 }
        ensures subject { result.subject ≡ Subject.File }
        ensures starts_early { result.starts_early ≡ starts_early }
    {
        PartFile {
            folder: paths.text_folder(),
            own: paths.text.as_str(),
            new: paths.new_text.as_str(),
            paths,
            new_file,
            bytes,
            sent: 0,
            read,
            is_out_of_memory: false,
            cause: None,
            subject: Subject::File,
            starts_early,
        }
    }

    /// Returns the journal's file. `read` is what both files were before they were read.
    pub fn journal(
        paths: &'a FilePaths,
        bytes: &'a [u8],
        read: Option<Snapshots>,
        new_file: NewFile,
        starts_early: bool,
    ) -> PartFile<'a>
        ensures folder { result.folder.now ≡ journal_folder paths.now }
        ensures own { result.own.now ≡ string_bytes paths.now.journal }
        ensures new { result.new.now ≡ string_bytes paths.now.new_journal }
        ensures paths { result.paths.now ≡ paths.now }
        ensures bytes { result.bytes.now ≡ bytes.now }
        ensures read { result.read ≡ read }
        ensures new_file { result.new_file ≡ new_file }
        ensures sent { result.sent ≡ 0 }
        ensures subject { result.subject ≡ Subject.Journal }
        ensures starts_early { result.starts_early ≡ starts_early }
    {
        PartFile {
            folder: paths.journal_folder(),
            own: paths.journal.as_str(),
            new: paths.new_journal.as_str(),
            paths,
            new_file,
            bytes,
            sent: 0,
            read,
            is_out_of_memory: false,
            cause: None,
            subject: Subject::Journal,
            starts_early,
        }
    }
}

impl PartFile<'_> {
    /// Returns whether what has the part's name has to be a regular file: a journal has to, and a
    /// text that was one.
    fn has_to_be_regular(&self) -> bool {
        match (self.subject, self.read) {
            (Subject::File, Some(read)) => read.text.is_regular(),
            (Subject::File, None) => false,
            _ => true,
        }
    }

    /// Notes why a call failed.
    pub fn note(&mut self, error: &io::Error)
        ensures { self.exit.now ≡ with_cause self.entry.now
            (refused_with self.entry.now.subject (raw_os_error error.now)) }
    {
        self.cause = Cause::after(self.subject, error);
    }

    /// Notes that another program has changed a file. Nothing of what was written is then to be
    /// reported.
    pub fn note_change(&mut self, subject: Subject)
        ensures { self.exit.now ≡ unlike self.entry.now
            (Some (record { subject = subject; reason = Reason.Changed })) }
    {
        self.note_unlike(Some(Cause {
            subject,
            reason: Reason::Changed,
        }));
    }

    /// Notes why a file is not known to be as it was. Nothing of what was written is then to be
    /// reported.
    pub fn note_unlike(&mut self, cause: Option<Cause>)
        ensures { self.exit.now ≡ unlike self.entry.now cause }
    {
        self.sent = 0;
        self.cause = cause;
    }

    /// Returns which file the part's own one is.
    pub fn own_subject(&self) -> Subject
        ensures { result ≡ self.now.subject }
    {
        self.subject
    }

    /// Returns which file the part's new one is.
    fn new_subject(&self) -> Subject {
        match self.subject {
            Subject::File => Subject::NewText,
            _ => Subject::NewJournal,
        }
    }
}

/// Makes one call for the part that it is about.
pub fn make<R: SystemFiles>(
    rt: &R,
    alloc: Global,
    file: &mut PartFile<'_>,
    call: Syscall,
) -> Reply {
    match call {
        Syscall::Open(_) => open(rt, file),
        Syscall::FindNew(_) => find_new(rt, file),
        Syscall::CreateNew(_) => create_new(rt, file),
        Syscall::CopyAttributes(part) => copy_attributes(part, file),
        Syscall::Write(part) => write(rt, alloc, part, file),
        Syscall::Sync(_) => sync(file),
        Syscall::SyncDirectory(_) => file.folder.sync(),
        Syscall::CompareNew(_) => compare_new(rt, file),
        Syscall::Compare => compare(rt, file),
        Syscall::CanAdopt => adopt(rt, alloc, file),
        Syscall::Rename(SavedFile::Text) => rename(rt, file),
        Syscall::Rename(SavedFile::Journal) => rename_journal(rt, file),
        Syscall::Remove(_) => remove(rt, file),
    }
}

/// Returns the reply to a call by what the system answered.
pub fn reply_to<T: Drop>(answer: io::Result<T>) -> Reply
    ensures { result ≡ reply_to answer }
{
    match answer {
        Ok(_) => Reply::Done,
        Err(error) if is_not_found(&error) => Reply::NotFound,
        Err(_) => Reply::Failed,
    }
}

/// Opens a file to be written, and writes nothing. A name that is too long can be found nowhere,
/// and can't be written either. To open a pipe would wait for a reader: none is opened in the place
/// of a regular file, nor of a journal.
fn open<R: SystemFiles>(rt: &R, file: &mut PartFile<'_>) -> Reply {
    if file.has_to_be_regular() && is_irregular(rt, file.own) {
        file.note_change(file.own_subject());
        return Reply::Failed;
    }
    let mut options = OpenOptions::new();
    options.write(true);
    match options.open(rt, file.own) {
        Ok(_) => Reply::Done,
        Err(error) if error.kind() == ErrorKind::NotFound => Reply::NotFound,
        Err(error) => {
            file.note(&error);
            Reply::Failed
        }
    }
}

/// Writes the bytes of the part into its new file, and keeps in `sent` how many were written.
fn write<R: SystemFiles>(rt: &R, alloc: Global, part: SavedFile, file: &mut PartFile<'_>) -> Reply {
    let NewFile::Open(created) = &mut file.new_file else {
        return Reply::Failed;
    };
    if file.starts_early && truncate(created).is_err() {
        return Reply::Failed;
    }
    match write_part(session_part(part), file.bytes, created) {
        Ok(()) => {
            file.sent = file.bytes.len();
            if file.starts_early {
                start_writing(rt, alloc, created);
            }
            Reply::Done
        }
        Err(unwritten) => {
            file.sent = unwritten.sent;
            file.cause = unwritten.cause;
            Reply::Failed
        }
    }
}

/// Waits until the new file is durable; `Failed` if this command has created none.
fn sync(file: &mut PartFile<'_>) -> Reply {
    let NewFile::Open(created) = &file.new_file else {
        return Reply::Failed;
    };
    let answer = created.sync_all();
    noted_reply(file, answer)
}

/// Returns the reply to a call, and notes why it failed.
fn noted_reply(file: &mut PartFile<'_>, answer: io::Result<()>) -> Reply {
    if let Err(error) = &answer {
        file.note(error);
    }
    reply_to(answer)
}

/// Looks whether the new file is this command's own.
fn compare_new<R: SystemFiles>(rt: &R, file: &mut PartFile<'_>) -> Reply {
    match find_own_new(rt, file) {
        Reply::Done => Reply::Done,
        Reply::NotFound => {
            file.note_change(file.new_subject());
            Reply::Failed
        }
        _ => {
            file.note_unlike(None);
            Reply::Failed
        }
    }
}

/// Looks whether the file and its journal are as they were read.
fn compare<R: SystemFiles>(rt: &R, file: &mut PartFile<'_>) -> Reply {
    let changed = match (Snapshots::of(rt, file.paths), file.read) {
        (Ok(now), Some(read)) => now.changed_since(&read),
        (Ok(_), None) => Some(Subject::File),
        (Err(trouble), _) => {
            file.note_unlike(trouble.cause);
            return Reply::Failed;
        }
    };
    match changed {
        Some(subject) => {
            file.note_change(subject);
            Reply::Failed
        }
        None => Reply::Done,
    }
}

/// Looks whether the new journal can be adopted: `Done` if it can, `NotFound` if not, and `Failed`
/// after an error. Then `is_out_of_memory` says whether memory ran out. One that can be adopted
/// stays open.
fn adopt<R: SystemFiles>(rt: &R, alloc: Global, journal: &mut PartFile<'_>) -> Reply {
    let NewFile::Left(Some(left)) = journal.new_file else {
        return Reply::Failed;
    };
    let Ok(new) = open_found(rt, journal.new, left, Subject::NewJournal) else {
        return Reply::Failed;
    };
    match can_adopt(rt, alloc, journal.paths, &new) {
        Ok(true) => {
            journal.new_file = NewFile::Open(new);
            Reply::Done
        }
        Ok(false) => Reply::NotFound,
        Err(trouble) => {
            journal.is_out_of_memory = trouble.fault == RunFault::Memory;
            Reply::Failed
        }
    }
}

/// Renames the new file to the part. Nothing is renamed over what is mounted. No look precedes
/// the rename of the text, which follows the comparison of its file at once.
fn rename<R: SystemFiles>(rt: &R, file: &mut PartFile<'_>) -> Reply {
    match fs::rename(rt, file.new, file.own) {
        Err(error) if error.kind() == ErrorKind::ResourceBusy => Reply::CannotReplace,
        answer => noted_reply(file, answer),
    }
}

/// Renames the new journal to the journal; `Failed` if the new one is known to be gone or another
/// command's: no journal that another command is known to have created since is renamed.
fn rename_journal<R: SystemFiles>(rt: &R, journal: &mut PartFile<'_>) -> Reply {
    match find_own_new(rt, journal) {
        Reply::NotFound => Reply::Failed,
        _ => rename(rt, journal),
    }
}

/// Removes the new file; `NotFound` if it is known to be gone or another command's: no file that
/// another command is known to have created since is removed, and of what was left only what is
/// known to be the file that was found.
fn remove<R: SystemFiles>(rt: &R, file: &PartFile<'_>) -> Reply {
    match (find_own_new(rt, file), &file.new_file) {
        (Reply::NotFound, _) => Reply::NotFound,
        (Reply::Failed, NewFile::Left(_)) => Reply::Failed,
        _ => reply_to(fs::remove_file(rt, file.new)),
    }
}
