//! Reads a file and its journal.

ghost use Rattle.std.specs.Prelude.{◌≡◌, ◌⊎◌, true, IfOk, IfErr};
ghost use Rattle.tf_files.specs.Opening.{is_file_fault};
ghost use Rattle.tf_files.specs.Inner.Reading.{IsAllOf, IsTextFault, IsJournalFault};

use crate::cause::{IS_FOLDER, Reason, Subject, Trouble};
use crate::file_paths::FilePaths;
use crate::folder::SystemFiles;
use crate::leftovers::{Found, open_found, refusal};
use crate::look::{Look, look_for};
use crate::snapshot::{Snapshot, Snapshots};
use crate::store::ReadFile;
use crate::trust::Access;
use std::alloc::Global;
use std::fs::{self, File, Metadata, OpenFile};
use std::io::{self, Read};
use tf_session::{RunFault, Told, take_journal, take_text};

/// A file that was opened to be read.
#[derive(Drop)]
struct OpenText {
    file: File,
    /// What the system said of it before it was read.
    found: io::Result<Metadata>,
}

/// A journal that was opened to be read.
#[derive(Drop)]
struct OpenJournal {
    file: File,
    /// What it was when it was found.
    seen: Snapshot,
}

/// What was read of a file and its journal.
#[derive(Drop)]
pub struct ReadContents {
    pub text: Vec<u8>,
    pub journal: Vec<u8>,
    /// Both files from before they were read; none if the system does not say.
    pub seen: Option<Snapshots>,
}

impl ReadContents {
    /// Returns the bytes of both.
    pub fn without_snapshots(self) -> ReadFile
        ensures text { result.text ≡ self.text }
        ensures journal { result.journal ≡ self.journal }
    {
        ReadFile {
            text: self.text,
            journal: self.journal,
        }
    }
}

/// Reads a text and its journal. What they were is found out by the handles that are read, since
/// another program may put other files in the place of the names. A journal that is not there is
/// the empty one.
///
/// # Errors
///
/// Those of `take_text` and `take_journal`; `Read` for a file that can't be opened, and for a
/// journal that may not be taken for one of this file: after a text that is too long.
pub fn read<R: SystemFiles>(
    rt: &R,
    alloc: Global,
    paths: &FilePaths,
) -> Result<ReadContents, Trouble>
    ensures { IfErr result (λ trouble. is_file_fault trouble.fault ≡ true) }
{
    let text = open_text(rt, &paths.text)?;
    let seen = text.seen();
    match find_journal(rt, paths, &text) {
        Ok(Some(journal)) => {
            let seen = Snapshots::with_journal(seen, Some(journal.seen));
            read_both(alloc, text.file, journal.file, seen)
        }
        Ok(None) => {
            let seen = Snapshots::without_journal(seen);
            read_both(alloc, text.file, b"".as_slice(), seen)
        }
        Err(trouble) => match take_text(alloc, &mut Told::new(text.file)) {
            Err(RunFault::Endless) => Err(Trouble::of_text(RunFault::Endless)),
            Err(RunFault::Memory) => Err(Trouble::from(RunFault::Memory)),
            _ => Err(trouble),
        },
    }
}

/// Reads a text, and a file in the place of its journal.
///
/// # Errors
///
/// As those of [`read`].
pub fn read_with<R: SystemFiles>(
    rt: &R,
    alloc: Global,
    paths: &FilePaths,
    journal: &File,
) -> Result<ReadContents, Trouble>
    ensures { IfErr result (λ trouble. is_file_fault trouble.fault ≡ true) }
{
    let text = open_to_read(rt, &paths.text)?;
    read_both(alloc, text, journal, None)
}

/// Opens a file to be read.
///
/// # Errors
///
/// `Read`; of a folder too, which can be opened, and not read.
pub fn open_to_read<R: SystemFiles>(rt: &R, path: &str) -> Result<File, Trouble>
    ensures { IfErr result (λ trouble. is_file_fault trouble.fault ≡ true) }
{
    Ok(open_text(rt, path)?.file)
}

/// Opens a file to be read, and keeps what the system says of it.
///
/// # Errors
///
/// As those of [`open_to_read`].
fn open_text<R: SystemFiles>(rt: &R, path: &str) -> Result<OpenText, Trouble>
    ensures { IfErr result (λ trouble. is_file_fault trouble.fault ≡ true) }
{
    let file = match fs::open(rt, path) {
        Ok(file) => file,
        Err(error) => return Err(unopened(rt, path, &error)),
    };
    match file.metadata() {
        Ok(found) if found.is_dir() => {
            let reason = Reason::System(IS_FOLDER);
            Err(Trouble::unread(Subject::File, reason))
        }
        found => Ok(OpenText { file, found }),
    }
}

/// Returns the error of a file that could not be opened with this one. A link is there even where
/// what it leads to is not.
fn unopened<R: SystemFiles>(rt: &R, path: &str, error: &io::Error) -> Trouble
    ensures { result.fault ≡ RunFault.Read }
{
    let trouble = Trouble::unread_after(Subject::File, error);
    if Look::at(rt, path).is_link() {
        trouble.of_link()
    } else {
        trouble
    }
}

impl OpenText {
    /// Returns its snapshot from before it is read; none if the system does not say.
    fn seen(&self) -> Option<Snapshot> {
        match &self.found {
            Ok(found) => Some(Snapshot::of_found(found)),
            Err(_) => None,
        }
    }
}

/// Looks for the journal of an opened text, and opens it; `Ok(None)` if there is none. It is opened
/// only if it is a regular file that may be taken for a journal.
///
/// # Errors
///
/// `Read`.
fn find_journal<R: SystemFiles>(
    rt: &R,
    paths: &FilePaths,
    text: &OpenText,
) -> Result<Option<OpenJournal>, Trouble>
    ensures { IfErr result (λ trouble. is_file_fault trouble.fault ≡ true) }
{
    let Some(found) = look_for(rt, &paths.journal)? else {
        return Ok(None);
    };
    let text = match &text.found {
        Ok(text) => Access::of(text),
        Err(error) => return Err(Trouble::unread_after(Subject::File, error)),
    };
    if let Some(reason) = refusal(rt, paths, &found, &text) {
        return Err(Trouble::unread(Subject::Journal, reason));
    }
    let file = open_found(rt, &paths.journal, Found::of(&found), Subject::Journal)?;
    let seen = Snapshot::of_found(&found);
    Ok(Some(OpenJournal { file, seen }))
}

/// Reads a text and then a journal, each up to its end.
fn read_both<T: Read + Drop, J: Read + Drop>(
    alloc: Global,
    text: T,
    journal: J,
    seen: Option<Snapshots>,
) -> Result<ReadContents, Trouble>
    ensures text { IfOk result (λ read. IsAllOf (T.remaining text) read.text.items) }
    ensures journal { IfOk result (λ read. IsAllOf (J.remaining journal) read.journal.items) }
    ensures seen { IfOk result (λ read. read.seen ≡ seen) }
    ensures why { IfErr result (λ trouble. IsTextFault (T.remaining text) trouble.fault
        ⊎ IsJournalFault (J.remaining journal) trouble.fault) }
    ensures fault { IfErr result (λ trouble. is_file_fault trouble.fault ≡ true) }
{
    let text = match take_text(alloc, &mut Told::new(text)) {
        Ok(text) => text,
        Err(fault) => return Err(Trouble::of_text(fault)),
    };
    let journal = match take_journal(alloc, &mut Told::new(journal)) {
        Ok(journal) => journal,
        Err(fault) => return Err(Trouble::of_journal(fault)),
    };
    Ok(ReadContents {
        text,
        journal,
        seen,
    })
}
