//! What an interrupted command has left beside a file, and which files there are taken for a
//! journal or a new file.

ghost use Rattle.std.specs.Prelude.{◌≡◌, ◌↔◌, ◌&&◌, ℕ, Option, None, true, is_none, is_some, IfErr};
ghost use Rattle.std.specs.Prelude.{if◌then◌else◌};
ghost use Rattle.std.specs.Fs.{file_type, metadata_mode, IsFile};
ghost use Rattle.tf_files.specs.Opening.{is_file_fault};
ghost use Rattle.tf_files.specs.Inner.Trust.{is_trusted};
ghost use Rattle.tf_files.specs.declared.trust.Access.{Access};

use crate::cause::{Reason, Subject, Trouble};
use crate::file_paths::FilePaths;
use crate::folder::SystemFiles;
use crate::found_files::FileId;
use crate::trust::{Access, caller, is_trusted};
use std::fs::{self, File, Metadata, OpenFile};

/// A file as it was found. A file that was removed may give its inode to another one, of another
/// owner.
#[derive(Clone, Copy, PartialEq, Eq)]
pub struct Found {
    id: FileId,
    access: Access,
}

impl Found {
    /// Returns what is known of a file of which this was found.
    pub fn of(found: &Metadata) -> Found {
        Found {
            id: FileId::of(found),
            access: Access::of(found),
        }
    }
}

/// The new files that an interrupted command has left.
#[derive(Clone, Copy)]
pub struct Leftovers {
    pub new_text: Option<Found>,
    pub new_journal: Option<Found>,
}

impl Leftovers {
    /// Returns which new files were found beside a file.
    ///
    /// # Errors
    ///
    /// `Read` if one may not be taken for a new file.
    pub fn of<R: SystemFiles>(rt: &R, paths: &FilePaths) -> Result<Leftovers, Trouble>
        ensures { IfErr result (λ trouble. is_file_fault trouble.fault ≡ true) }
    {
        let (new_text, new_journal) = (&paths.found_new_text, &paths.found_new_journal);
        check_new_files(rt, paths, new_text, new_journal)?;
        Ok(Leftovers {
            new_text: new_text.as_ref().map(Found::of),
            new_journal: new_journal.as_ref().map(Found::of),
        })
    }

    /// Returns whether there are none.
    pub fn are_none(&self) -> bool
        ensures { result ≡ (is_none self.now.new_text && is_none self.now.new_journal) }
    {
        self.new_text.is_none() && self.new_journal.is_none()
    }

    /// Returns the new journal if it is there alone: a command was interrupted after it had replaced
    /// the text.
    pub fn lone_journal(&self) -> Option<Found>
        ensures { result ≡ (if is_some self.now.new_text then None else self.now.new_journal) }
    {
        match self.new_text {
            Some(_) => None,
            None => self.new_journal,
        }
    }
}

/// Tests that these files, if they are there, may be taken for the new text and the new journal.
///
/// # Errors
///
/// `Read`.
fn check_new_files<R: SystemFiles>(
    rt: &R,
    paths: &FilePaths,
    new_text: &Option<Metadata>,
    new_journal: &Option<Metadata>,
) -> Result<(), Trouble>
    ensures { IfErr result (λ trouble. is_file_fault trouble.fault ≡ true) }
{
    if new_text.is_none() && new_journal.is_none() {
        return Ok(());
    }
    match paths.look_at_text(rt) {
        Ok(text) => {
            let text = Access::of(&text);
            check_new_text(rt, paths, &text, new_text)?;
            check_new_journal(rt, paths, &text, new_journal, new_text.is_some())
        }
        Err(error) => Err(Trouble::unread_after(Subject::File, &error)),
    }
}

/// Tests that this file, if it is there, may be taken for the new text.
fn check_new_text<R: SystemFiles>(
    rt: &R,
    paths: &FilePaths,
    text: &Access,
    new_text: &Option<Metadata>,
) -> Result<(), Trouble>
    ensures { IfErr result (λ trouble. is_file_fault trouble.fault ≡ true) }
{
    match new_text {
        Some(found) => match refusal(rt, paths, found, text) {
            None => Ok(()),
            Some(reason) => Err(Trouble::unread(Subject::NewText, reason)),
        },
        None => Ok(()),
    }
}

/// Tests that this file, if it is there, may be taken for the new journal. One that is only to be
/// removed, since the new text is there too, may also belong to the owner of the journal.
fn check_new_journal<R: SystemFiles>(
    rt: &R,
    paths: &FilePaths,
    text: &Access,
    new_journal: &Option<Metadata>,
    is_to_be_removed: bool,
) -> Result<(), Trouble>
    ensures { IfErr result (λ trouble. is_file_fault trouble.fault ≡ true) }
{
    let Some(found) = new_journal else {
        return Ok(());
    };
    match refusal(rt, paths, found, text) {
        None => Ok(()),
        Some(Reason::OfAnotherUser)
            if is_to_be_removed && is_of_journal_owner(rt, paths, text, found) => { Ok(()) }
        Some(reason) => Err(Trouble::unread(Subject::NewJournal, reason)),
    }
}

/// Returns whether a file belongs to the owner of the journal, and that may be taken.
fn is_of_journal_owner<R: SystemFiles>(
    rt: &R,
    paths: &FilePaths,
    text: &Access,
    found: &Metadata,
) -> bool {
    match fs::symlink_metadata(rt, &paths.journal) {
        Ok(journal) => {
            refusal(rt, paths, &journal, text).is_none()
                && Access::of(found).has_owner_of(&Access::of(&journal))
        }
        Err(_) => false,
    }
}

/// Returns why what was found may not be taken for a journal or a new file; none if it may.
pub fn refusal<R: SystemFiles>(
    rt: &R,
    paths: &FilePaths,
    found: &Metadata,
    text: &Access,
) -> Option<Reason>
    ensures { (file : Access) × (file.mode ≡ metadata_mode found.now) × (folder : Option Access)
        × (caller : Option ℕ) × (is_none result ≡ true
        ↔ IsFile (file_type found.now) × (is_trusted file text.now folder caller ≡ true)) }
{
    // most files may be taken whatever the folder and whoever the caller is
    if refusal_by(found, text, None, None).is_none() {
        return None;
    }
    refusal_by(found, text, paths.shared_access(), caller(rt))
}

/// Returns why what was found may not be taken for a journal or a new file, in a folder of which
/// this is known, if the caller is this user; none if it may: it is a regular file, and nobody can
/// have written it who may not write the text.
fn refusal_by(
    found: &Metadata,
    text: &Access,
    folder: Option<Access>,
    caller: Option<u32>,
) -> Option<Reason>
    ensures { (file : Access) × (file.mode ≡ metadata_mode found.now) × (is_none result ≡ true
        ↔ IsFile (file_type found.now) × (is_trusted file text.now folder caller ≡ true)) }
{
    if !found.is_file() {
        return Some(Reason::NotRegular);
    }
    if is_trusted(&Access::of(found), text, folder, caller) {
        None
    } else {
        Some(Reason::OfAnotherUser)
    }
}

/// Opens a file to be read, which has to be the one that was found: with its owner, group and mode,
/// so that what decided whether it may be taken holds of what is read.
///
/// # Errors
///
/// `Read`.
pub fn open_found<R: SystemFiles>(
    rt: &R,
    path: &str,
    found: Found,
    subject: Subject,
) -> Result<File, Trouble>
    ensures { IfErr result (λ trouble. is_file_fault trouble.fault ≡ true) }
{
    match fs::open(rt, path) {
        Ok(file) if is_of_found(&file, found) => Ok(file),
        Ok(_) => Err(Trouble::unread(subject, Reason::Changed)),
        Err(error) => Err(Trouble::unread_after(subject, &error)),
    }
}

/// Returns whether this is the file that was found, as it was.
fn is_of_found(file: &File, found: Found) -> bool {
    match file.metadata() {
        Ok(opened) => Found::of(&opened) == found,
        Err(_) => false,
    }
}
