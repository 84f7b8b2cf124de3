//! The new file that is to replace an old one.

ghost use Rattle.std.specs.Prelude.{◌≡◌};
ghost use Rattle.tf_files.specs.Inner.Modes.{first_journal_mode};

use crate::calls::{NewFile, PartFile, reply_to};
use crate::file_paths::FilePaths;
use crate::folder::{SystemFiles, handle_path};
use crate::found_files::FileId;
use crate::leftovers::Found;
use crate::look::is_not_found;
use crate::snapshot::Snapshot;
use crate::trust::Access;
use std::alloc::Global;
use std::fs::{self, File, OpenFile, OpenOptions, Permissions};
use std::io::{self, ErrorKind, Seek, Write};
use std::os::unix::fs::{MetadataExt, OpenOptionsExt, PermissionsExt, fchown};
use tf_saving::{Reply, SavedFile};

/// The mode of a new file until it gets that of the old one, so that nobody else can open it.
pub const PRIVATE: u32 = 0o600;

/// The bits of a mode by which a file is read and written: all, those of all but the owner, and those
/// of all but owner and group.
const READ_AND_WRITE: u32 = 0o666;

const SHARED: u32 = 0o066;

const OTHERS: u32 = 0o006;

/// Creates the new file, empty. What is no regular file is not replaced, nor one with other names,
/// which would keep the old text.
pub fn create_new<R: SystemFiles>(rt: &R, file: &mut PartFile<'_>) -> Reply {
    match fs::symlink_metadata(rt, file.own) {
        Ok(old) if old.is_file() && old.nlink() == 1 => {}
        Ok(_) => return Reply::CannotReplace,
        Err(error) if is_not_found(&error) => {}
        Err(error) => {
            file.note(&error);
            return Reply::Failed;
        }
    }
    let mut options = OpenOptions::new();
    options.write(true).create_new(true).mode(PRIVATE);
    match options.open(rt, file.new) {
        Ok(created) => {
            file.new_file = NewFile::Open(created);
            Reply::Done
        }
        Err(error) if is_ruled_out(&error) => Reply::CannotReplace,
        Err(error) => {
            file.note(&error);
            if error.kind() == ErrorKind::AlreadyExists {
                return reply_if_taken(rt, file.new);
            }
            file.new_file = NewFile::InDoubt;
            Reply::Failed
        }
    }
}

/// Returns the reply where the new file's name is taken, though a recovery has just removed what
/// had it: it could not remove it, or another program has created it since. A removal by the call
/// for another kind of file shows which, and removes nothing.
fn reply_if_taken<R: SystemFiles>(rt: &R, name: &str) -> Reply {
    let removed = match fs::symlink_metadata(rt, name) {
        Ok(found) if found.is_dir() => fs::remove_file(rt, name),
        Ok(_) => fs::remove_dir(rt, name),
        Err(_) => return Reply::Failed,
    };
    match removed {
        Ok(()) => Reply::Failed,
        Err(error) => reply_to_refusal(&error),
    }
}

/// Returns the reply to a call that failed with this error.
pub fn reply_to_refusal(error: &io::Error) -> Reply {
    if is_ruled_out(error) {
        Reply::CannotReplace
    } else {
        Reply::Failed
    }
}

/// Returns whether this error says that no new file may be here, or that one can't be like the old.
fn is_ruled_out(error: &io::Error) -> bool {
    matches!(
        error.kind(),
        ErrorKind::PermissionDenied | ErrorKind::ReadOnlyFilesystem | ErrorKind::InvalidFilename
    )
}

/// Gives the new file the owner, group and mode that the old one had when it was read; a first
/// journal those of the text's file. Whatever has the old one's name by now, another user's file or
/// one of another mode, is not looked at: that it is still the same is compared before the rename.
pub fn copy_attributes(part: SavedFile, file: &mut PartFile<'_>) -> Reply {
    let (Some(read), NewFile::Open(created)) = (file.read, &file.new_file) else {
        return Reply::Failed;
    };
    match (part, read.journal) {
        (SavedFile::Text, _) => make_like(read.text.access(), created),
        (SavedFile::Journal, Some(journal)) => make_like(journal.access(), created),
        (SavedFile::Journal, None) => make_first_journal(read.text.access(), created),
    }
}

/// Gives the new file the owner, group and mode of an old one, of which this was read; `Failed` if
/// that was no regular file. The owner comes first, since a change of it takes bits of the mode away.
fn make_like(old: Option<Access>, created: &File) -> Reply {
    match old {
        Some(old) => match copy_owner(old, created) {
            Reply::Done => set_permissions(created, Permissions::from_mode(old.mode)),
            reply => reply,
        },
        None => Reply::Failed,
    }
}

/// Gives an open file the owner and group of the old one, unless it has them already. It is done by
/// the handle, since another program may have put any file in the place of the name.
fn copy_owner(old: Access, file: &File) -> Reply {
    match file.metadata() {
        Ok(new) if new.uid() == old.owner && new.gid() == old.group => Reply::Done,
        Ok(_) => reply_to_owner(fchown(file, Some(old.owner), Some(old.group))),
        Err(_) => Reply::Failed,
    }
}

/// Returns the reply to a change of the owner: `CannotReplace` if the file can't have this one.
fn reply_to_owner(answer: io::Result<()>) -> Reply {
    match answer {
        Ok(()) => Reply::Done,
        // no user of this number is known here
        Err(error) if error.kind() == ErrorKind::InvalidInput => Reply::CannotReplace,
        Err(error) => reply_to_refusal(&error),
    }
}

/// Gives a first journal the owner and group of the text's file, of which this was read, and of its
/// mode what a journal needs; `Failed` if that was no regular file.
fn make_first_journal(text: Option<Access>, created: &File) -> Reply {
    match text {
        Some(text) => match copy_owner(text, created) {
            Reply::Done => {
                let mode = first_journal_mode(text.mode, true, true);
                set_permissions(created, Permissions::from_mode(mode))
            }
            reply => reply,
        },
        None => Reply::Failed,
    }
}

/// Gives a first journal, which is written in place, as much of that as the system lets it: the
/// owner and the group, or the group alone, and a mode for those of them that it has.
pub fn adapt_first_journal<R: SystemFiles>(
    rt: &R,
    paths: &FilePaths,
    seen: Snapshot,
    created: &File,
) {
    let Ok(text) = paths.look_at_text(rt) else {
        return;
    };
    if Snapshot::of_found(&text) == seen {
        let text = Access::of(&text);
        let has_owner = matches!(copy_owner(text, created), Reply::Done);
        let has_group = has_owner || fchown(created, None, Some(text.group)).is_ok();
        let mode = first_journal_mode(text.mode, has_owner, has_group);
        let _ = set_permissions(created, Permissions::from_mode(mode));
    }
}

/// Returns the mode of a first journal beside a text of this mode. It is read and written as the
/// text is, and never run. Without the owner of the text, its own one may read and write it; without
/// the group, its own group may not.
fn first_journal_mode(text: u32, has_owner: bool, has_group: bool) -> u32
    ensures { result ≡ first_journal_mode text has_owner has_group }
{
    if has_owner {
        text & READ_AND_WRITE
    } else if has_group {
        PRIVATE | text & SHARED
    } else {
        PRIVATE | text & OTHERS
    }
}

/// Gives the new file these permissions; `CannotReplace` if it can't have them, `Failed` after any
/// other error.
fn set_permissions(created: &File, permissions: Permissions) -> Reply {
    match created.set_permissions(permissions) {
        Ok(()) => Reply::Done,
        Err(error) => reply_to_refusal(&error),
    }
}

/// Empties a file that had a byte. Such a file is written out as soon as a handle to it is closed
/// (ext4, XFS), and nobody waits for that.
///
/// # Errors
///
/// Those of the system's calls.
pub fn truncate<F: Write + Seek + OpenFile>(file: &mut F) -> io::Result<()> {
    file.write_all(b"\n")?;
    file.set_len(0)?;
    file.rewind()
}

/// Has the system start to write out the new file, which was emptied before it was written, by
/// closing a second handle to it. A sync then finds less to wait for, or nothing. Where it fails,
/// that sync only takes longer.
pub fn start_writing<R: SystemFiles>(rt: &R, alloc: Global, created: &File) {
    if let Ok(path) = handle_path(alloc, created) {
        let _ = fs::open(rt, &path);
    }
}

/// Looks whether there is a new file. That of this command is there until it has become the part:
/// if another command has removed it, it was not renamed either.
pub fn find_new<R: SystemFiles>(rt: &R, file: &PartFile<'_>) -> Reply {
    match &file.new_file {
        NewFile::Open(created) => match find_created(rt, created, file.own) {
            Reply::Done => Reply::NotFound,
            Reply::NotFound => Reply::Done,
            reply => reply,
        },
        NewFile::Left(left) => find_left(rt, *left, file.new),
        NewFile::NotCreated | NewFile::InDoubt => reply_to(fs::symlink_metadata(rt, file.new)),
    }
}

/// Looks whether the file of the new file's name is this command's own, or that which was left:
/// `NotFound` where there is none, or another command's.
pub fn find_own_new<R: SystemFiles>(rt: &R, file: &PartFile<'_>) -> Reply {
    match &file.new_file {
        NewFile::Left(left) => find_left(rt, *left, file.new),
        NewFile::InDoubt => Reply::Done,
        NewFile::NotCreated => Reply::NotFound,
        NewFile::Open(created) => find_created(rt, created, file.new),
    }
}

/// Looks whether the file of this name is the one that was left, if one was: `Failed` where another
/// has come.
fn find_left<R: SystemFiles>(rt: &R, left: Option<Found>, path: &str) -> Reply {
    match (fs::symlink_metadata(rt, path), left) {
        (Ok(found), Some(left)) if Found::of(&found) == left => Reply::Done,
        (Err(error), _) if is_not_found(&error) => Reply::NotFound,
        _ => Reply::Failed,
    }
}

/// Looks whether the file of this name is the one with this handle.
pub fn find_created<R: SystemFiles>(rt: &R, created: &File, path: &str) -> Reply {
    match (created.metadata(), fs::symlink_metadata(rt, path)) {
        (Ok(created), Ok(found)) => {
            if FileId::of(&created) == FileId::of(&found) {
                Reply::Done
            } else {
                Reply::NotFound
            }
        }
        (Ok(_), Err(error)) if is_not_found(&error) => Reply::NotFound,
        _ => Reply::Failed,
    }
}
