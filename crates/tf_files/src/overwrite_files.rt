//! Writes a text and its journal in place, where no new files can replace them.

use crate::cause::{Cause, Reason, Subject, Trouble};
use crate::file_part::{Unwritten, subject_of, unwritten_part, write_fault, write_part};
use crate::file_paths::FilePaths;
use crate::folder::SystemFiles;
use crate::new_file::{PRIVATE, adapt_first_journal, find_created};
use crate::saves::NewContents;
use crate::size_limit::size_limit;
use crate::snapshot::{Snapshot, Snapshots, is_irregular};
use std::alloc::Global;
use std::fs::{self, File, OpenFile, OpenOptions};
use std::io::{self, ErrorKind, Read, Seek, Write};
use std::os::unix::fs::OpenOptionsExt;
use tf_saving::Reply;
use tf_session::{RunFault, SessionPart};

/// A part in its file: by what name, and what the file was before it was read.
#[derive(Clone, Copy)]
struct SeenPart<'p> {
    part: SessionPart,
    name: &'p str,
    seen: Snapshot,
}

/// Writes both files over the old ones, the journal first, and waits until both are durable. After
/// an error the old bytes are put back, as far as the system lets it; a crash in the middle loses
/// them. `read` is what both were before they were read. Both are written through the handles by
/// which they were compared with that, since another program may put any file in the place of a
/// name.
///
/// # Errors
///
/// `Write` with the part and the number of its bytes that were written, 0 where another program has
/// changed a file meanwhile; `Read` and `Memory` where an old file can't be read for its backup.
pub fn overwrite<R: SystemFiles>(
    rt: &R,
    alloc: Global,
    paths: &FilePaths,
    contents: NewContents<'_>,
    read: Option<Snapshots>,
) -> Result<(), Trouble> {
    let Some(read) = read else {
        return Err(Trouble::from(write_fault(SessionPart::Text, 0)));
    };
    let text = SeenPart {
        part: SessionPart::Text,
        name: paths.text.as_str(),
        seen: read.text,
    };
    match read.journal {
        Some(seen) => {
            let journal = SeenPart {
                part: SessionPart::Journal,
                name: paths.journal.as_str(),
                seen,
            };
            overwrite_both(rt, alloc, contents, text, journal)
        }
        None => create_and_overwrite(rt, alloc, paths, contents, text),
    }
}

/// Overwrites the journal and the text. After an error it puts the old bytes of both back.
fn overwrite_both<R: SystemFiles>(
    rt: &R,
    alloc: Global,
    contents: NewContents<'_>,
    text: SeenPart<'_>,
    journal: SeenPart<'_>,
) -> Result<(), Trouble> {
    let old_journal = old_bytes(rt, alloc, journal)?;
    let old_text = old_bytes(rt, alloc, text)?;
    check_sizes(size_limit(rt), contents, &old_text, &old_journal)?;
    check_kind(rt, journal)?;
    check_kind(rt, text)?;
    let mut journal = open_seen(rt, journal)?;
    let mut text = open_seen(rt, text)?;
    let put = write_both(&mut journal, &mut text, contents);
    if put.is_err() {
        put_back(&mut text, &old_text);
        put_back(&mut journal, &old_journal);
    }
    put
}

/// Creates the journal, writes it, and overwrites the text. After an error it puts the old bytes of
/// the text back and removes the journal.
fn create_and_overwrite<R: SystemFiles>(
    rt: &R,
    alloc: Global,
    paths: &FilePaths,
    contents: NewContents<'_>,
    text: SeenPart<'_>,
) -> Result<(), Trouble> {
    let old_text = old_bytes(rt, alloc, text)?;
    check_sizes(size_limit(rt), contents, &old_text, &None)?;
    let mut journal = create_journal(rt, paths, text.seen)?;
    let put = match sync_journal_name(paths) {
        Ok(()) => overwrite_text(rt, contents, text, &old_text, &mut journal),
        Err(trouble) => Err(trouble),
    };
    if put.is_err() {
        remove_created(rt, &journal, &paths.journal);
    }
    put
}

/// Writes both, the journal into the file that was created for it.
fn overwrite_text<R: SystemFiles>(
    rt: &R,
    contents: NewContents<'_>,
    text: SeenPart<'_>,
    old_text: &Option<Vec<u8>>,
    journal: &mut File,
) -> Result<(), Trouble> {
    check_kind(rt, text)?;
    let mut text = open_seen(rt, text)?;
    if len_of(journal) != Some(0) {
        return Err(changed(SessionPart::Journal));
    }
    let put = write_both(journal, &mut text, contents);
    if put.is_err() {
        put_back(&mut text, old_text);
        let _ = journal.set_len(0);
    }
    put
}

/// Writes both, and truncates neither before both are written. So if the disk is full, no old byte
/// is lost yet, or the old bytes can be put back without more space.
fn write_both(
    journal: &mut File,
    text: &mut File,
    contents: NewContents<'_>,
) -> Result<(), Trouble> {
    put_part(SessionPart::Journal, contents.journal, journal)?;
    put_part(SessionPart::Text, contents.text, text)?;
    truncate(SessionPart::Text, text, contents.text.len())?;
    truncate(SessionPart::Journal, journal, contents.journal.len())?;
    sync(SessionPart::Journal, journal, contents.journal.len())?;
    sync(SessionPart::Text, text, contents.text.len())
}

/// Writes all bytes of a part.
///
/// # Errors
///
/// `Write` with the number of bytes that were written.
fn put_part(part: SessionPart, bytes: &[u8], file: &mut File) -> Result<(), Trouble> {
    match write_part(part, bytes, file) {
        Ok(()) => Ok(()),
        Err(Unwritten { sent, cause }) => Err(unwritten_part(part, sent, cause)),
    }
}

/// Returns the error that another program has changed a file, of which nothing was written.
fn changed(part: SessionPart) -> Trouble {
    let cause = Cause {
        subject: subject_of(part),
        reason: Reason::Changed,
    };
    unwritten_part(part, 0, Some(cause))
}

/// Returns the error of a part after a call that failed so.
fn refused(part: SessionPart, sent: usize, error: &io::Error) -> Trouble {
    unwritten_part(part, sent, Cause::after(subject_of(part), error))
}

/// Tests that no file would get more bytes than this limit: neither by the new bytes, nor by the old
/// ones if they are put back.
///
/// # Errors
///
/// `Write` with no byte sent.
fn check_sizes(
    limit: Option<u64>,
    contents: NewContents<'_>,
    old_text: &Option<Vec<u8>>,
    old_journal: &Option<Vec<u8>>,
) -> Result<(), Trouble> {
    check_size(limit, SessionPart::Journal, contents.journal, old_journal)?;
    check_size(limit, SessionPart::Text, contents.text, old_text)
}

/// Tests that a part and its old bytes are within this limit.
fn check_size(
    limit: Option<u64>,
    part: SessionPart,
    new: &[u8],
    old: &Option<Vec<u8>>,
) -> Result<(), Trouble> {
    let Some(limit) = limit else {
        return Ok(());
    };
    let old = match old {
        Some(bytes) => bytes.len(),
        None => 0,
    };
    if new.len() as u64 <= limit && old as u64 <= limit {
        Ok(())
    } else {
        let cause = Cause {
            subject: subject_of(part),
            reason: Reason::OverSizeLimit,
        };
        Err(unwritten_part(part, 0, Some(cause)))
    }
}

/// Creates an empty journal with the owner, group and mode of the text's file, as far as the system
/// lets it: a journal of one's own next to another's file serves as well. Where the call fails, an
/// empty journal that is there all the same may be another command's and stays: it means what no
/// journal means.
fn create_journal<R: SystemFiles>(
    rt: &R,
    paths: &FilePaths,
    seen: Snapshot,
) -> Result<File, Trouble> {
    if !paths.journal_folder().is_open() {
        let cause = Cause {
            subject: Subject::FirstJournal,
            reason: Reason::InUnreadFolder,
        };
        return Err(unwritten_part(SessionPart::Journal, 0, Some(cause)));
    }
    let mut options = OpenOptions::new();
    options.write(true).create_new(true).mode(PRIVATE);
    match options.open(rt, &paths.journal) {
        Ok(journal) => {
            adapt_first_journal(rt, paths, seen, &journal);
            Ok(journal)
        }
        Err(error) => {
            let cause = Cause::after(Subject::FirstJournal, &error);
            Err(unwritten_part(SessionPart::Journal, 0, cause))
        }
    }
}

/// Waits until the name of a new journal is durable.
fn sync_journal_name(paths: &FilePaths) -> Result<(), Trouble> {
    match paths.journal_folder().sync() {
        Reply::Failed | Reply::NotFound => {
            Err(Trouble::from(write_fault(SessionPart::Journal, 0)))
        }
        Reply::Done | Reply::CannotReplace => Ok(()),
    }
}

/// Removes the journal that was created, unless it is known that the name leads to another file, or
/// that another program has written into it.
fn remove_created<R: SystemFiles>(rt: &R, journal: &File, name: &str) {
    let is_own = !matches!(find_created(rt, journal, name), Reply::NotFound);
    if is_own && len_of(journal).unwrap_or(0) == 0 {
        let _ = fs::remove_file(rt, name);
    }
}

/// Returns how many bytes a file has; none if the system does not say.
fn len_of<F: OpenFile>(file: &F) -> Option<u64> {
    match file.metadata() {
        Ok(found) => Some(found.len()),
        Err(_) => None,
    }
}

/// Tests that a regular file was replaced by nothing else, as a pipe, which must not be opened.
///
/// # Errors
///
/// `Write` with no byte sent.
fn check_kind<R: SystemFiles>(rt: &R, seen_part: SeenPart<'_>) -> Result<(), Trouble> {
    let SeenPart { part, name, seen } = seen_part;
    if seen.is_regular() && is_irregular(rt, name) {
        Err(changed(part))
    } else {
        Ok(())
    }
}

/// Opens a part to be written over, and changes nothing.
///
/// # Errors
///
/// `Write` with no byte sent, also where the name leads to another file than the one that was seen,
/// or that one has changed.
fn open_seen<R: SystemFiles>(rt: &R, seen_part: SeenPart<'_>) -> Result<File, Trouble> {
    let SeenPart { part, name, seen } = seen_part;
    match OpenOptions::new().write(true).open(rt, name) {
        Ok(file) if seen.is_of(&file) => Ok(file),
        Ok(_) => Err(changed(part)),
        Err(error) => Err(refused(part, 0, &error)),
    }
}

/// Cuts off what follows the bytes of a part. In what is no regular file there is nothing.
fn truncate(part: SessionPart, file: &File, len: usize) -> Result<(), Trouble> {
    match file.set_len(len as u64) {
        Err(error) if is_regular_file(file) => Err(refused(part, len, &error)),
        _ => Ok(()),
    }
}

/// Waits until the bytes of a part are durable. What is no regular file may have no such call.
fn sync(part: SessionPart, file: &File, len: usize) -> Result<(), Trouble> {
    match file.sync_all() {
        Err(error) if is_regular_file(file) => Err(refused(part, len, &error)),
        _ => Ok(()),
    }
}

/// Whether this is a regular file. Where the system does not say, it is.
fn is_regular_file(file: &File) -> bool {
    match file.metadata() {
        Ok(found) => found.is_file(),
        Err(_) => true,
    }
}

/// Returns the bytes that are to be put back after an error. Of what is no regular file there are
/// none.
fn old_bytes<R: SystemFiles>(
    rt: &R,
    alloc: Global,
    seen_part: SeenPart<'_>,
) -> Result<Option<Vec<u8>>, Trouble> {
    let SeenPart { part, name, seen } = seen_part;
    if !seen.is_regular() {
        return Ok(None);
    }
    check_kind(rt, seen_part)?;
    let mut file = match fs::open(rt, name) {
        Ok(file) => file,
        Err(error) => return Err(Trouble::unread_after(subject_of(part), &error)),
    };
    if !seen.is_of(&file) {
        return Err(changed(part));
    }
    let mut bytes = Vec::new(alloc);
    match file.read_to_end(&mut bytes) {
        Ok(_) => Ok(Some(bytes)),
        Err(error) if error.kind() == ErrorKind::OutOfMemory => {
            Err(Trouble::from(RunFault::Memory))
        }
        Err(error) => Err(Trouble::unread_after(subject_of(part), &error)),
    }
}

/// Puts the old bytes back, as far as the system lets it.
fn put_back<F: Write + Seek + OpenFile>(file: &mut F, old: &Option<Vec<u8>>) {
    if let Some(bytes) = old {
        if file.rewind().is_ok() {
            let _ = file.write_all(bytes.as_slice());
            let _ = file.set_len(bytes.len() as u64);
            let _ = file.sync_all();
        }
    }
}
