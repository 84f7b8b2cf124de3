//! Decides whether a new journal that was found alone may replace the journal.

use crate::cause::Trouble;
use crate::file_paths::FilePaths;
use crate::folder::SystemFiles;
use crate::reading::{ReadContents, read, read_with};
use std::alloc::Global;
use std::fs::File;
use tf_session::{Command, Fault, RunFault, Session};

/// Returns whether the new journal may replace the old one. It may unless it can't be decoded, or
/// the old one's last record can be reverted in the text and the new one's can't: then it came from
/// elsewhere, or the text is not the one that it was saved with.
///
/// # Errors
///
/// `Memory`; `Read` and others where a file can't be read.
pub fn can_adopt<R: SystemFiles>(
    rt: &R,
    alloc: Global,
    paths: &FilePaths,
    new: &File,
) -> Result<bool, Trouble> {
    match can_revert(alloc, read_with(rt, alloc, paths, new)) {
        Ok(true) => Ok(true),
        Ok(false) => is_unrevertible(alloc, read(rt, alloc, paths)),
        Err(trouble) if is_bad_journal(&trouble) => Ok(false),
        Err(trouble) => Err(trouble),
    }
}

/// Returns whether the journal can be decoded; one that is not there can.
///
/// # Errors
///
/// As those of [`can_adopt`].
pub fn has_good_journal<R: SystemFiles>(
    rt: &R,
    alloc: Global,
    paths: &FilePaths,
) -> Result<bool, Trouble> {
    match can_revert(alloc, read(rt, alloc, paths)) {
        Ok(_) => Ok(true),
        Err(trouble) if is_bad_journal(&trouble) => Ok(false),
        Err(trouble) => Err(trouble),
    }
}

/// Returns whether nothing can be reverted in the text by this journal.
fn is_unrevertible(
    alloc: Global,
    contents: Result<ReadContents, Trouble>,
) -> Result<bool, Trouble> {
    match can_revert(alloc, contents) {
        Ok(can_revert) => Ok(!can_revert),
        Err(trouble) if is_bad_journal(&trouble) => Ok(true),
        Err(trouble) => Err(trouble),
    }
}

/// Returns whether the journal's last record can be reverted in the text.
fn can_revert(alloc: Global, contents: Result<ReadContents, Trouble>) -> Result<bool, Trouble> {
    let ReadContents { text, journal, .. } = contents?;
    let mut session = Session::from_texts(alloc, text, journal)?;
    match session.step(alloc, Command::Revert) {
        Ok(_) => Ok(true),
        Err(Fault::Memory) => Err(Trouble::from(RunFault::Memory)),
        Err(_) => Ok(false),
    }
}

/// Returns whether a journal can't be decoded.
fn is_bad_journal(trouble: &Trouble) -> bool {
    matches!(trouble.fault, RunFault::BadJournal(_))
}
