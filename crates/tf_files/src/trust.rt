//! Whose journals and new files are taken: those of the caller and of the file's owner, and those
//! that only users who may write the file can have made.

ghost use Rattle.std.specs.Prelude.{◌≡◌, ◌==◌};
ghost use Rattle.std.specs.Fs.{metadata_mode};
ghost use Rattle.tf_files.specs.Inner.Trust.{is_of, may_group_write, may_others_write};
ghost use Rattle.tf_files.specs.Inner.Trust.{may_only_group_create, is_of_team, is_of_team_in};
ghost use Rattle.tf_files.specs.Inner.Trust.{is_of_owner, is_written_alike, is_trusted};

use crate::folder::SystemFiles;
use std::fs::{self, Metadata};
use std::os::unix::fs::MetadataExt;

/// The folder in which the system shows this process; its owner is the user for whom the process
/// opens files: proc_pid(5).
const THIS_PROCESS: &str = "/proc/self";

/// The bit of a mode by which the group may write.
const GROUP_WRITES: u32 = 0o020;

/// The bit of a mode by which all others may write.
const OTHERS_WRITE: u32 = 0o002;

/// The owner, the group and the mode of a file or folder.
#[derive(Clone, Copy, PartialEq, Eq)]
pub struct Access {
    pub owner: u32,
    pub group: u32,
    pub mode: u32,
}

impl Access {
    /// Returns the access of a file of which this was found.
    pub fn of(found: &Metadata) -> Access
        ensures { result.mode ≡ metadata_mode found.now }
    {
        Access {
            owner: found.uid(),
            group: found.gid(),
            mode: found.mode(),
        }
    }

    /// Returns whether it belongs to this user, if one is known.
    pub fn is_of(&self, user: Option<u32>) -> bool
        ensures { result ≡ is_of self.now user }
    {
        match user {
            Some(user) => self.owner == user,
            None => false,
        }
    }

    /// Returns whether both belong to one user.
    pub fn has_owner_of(&self, other: &Access) -> bool
        ensures { result ≡ (self.now.owner == other.now.owner) }
    {
        self.owner == other.owner
    }

    /// Returns whether its group may write it.
    fn may_group_write(&self) -> bool
        ensures { result ≡ may_group_write self.now }
    {
        self.mode & GROUP_WRITES != 0
    }

    /// Returns whether everybody else may write it.
    fn may_others_write(&self) -> bool
        ensures { result ≡ may_others_write self.now }
    {
        self.mode & OTHERS_WRITE != 0
    }
}

/// Returns whether a file beside the text may be taken for a journal or a new file of it, if the
/// caller is this user: nobody can have written it who may not write the text.
pub fn is_trusted(file: &Access, text: &Access, folder: Option<Access>, caller: Option<u32>) -> bool
    ensures { result ≡ is_trusted file.now text.now folder caller }
{
    text.may_others_write() || is_of_team_in(file, text, folder) || is_of_owner(file, text, caller)
}

/// Returns whether a file belongs to the caller or to the text's owner, and nobody else can have
/// written it: such a file can be linked or moved here by others, and to write into one that is here
/// needs no right to create files.
fn is_of_owner(file: &Access, text: &Access, caller: Option<u32>) -> bool
    ensures { result ≡ is_of_owner file.now text.now caller }
{
    (file.is_of(caller) || file.has_owner_of(text)) && is_written_alike(file, text)
}

/// Returns whether those who may write a file may write the text, apart from its owner.
fn is_written_alike(file: &Access, text: &Access) -> bool
    ensures { result ≡ is_written_alike file.now text.now }
{
    !file.may_others_write()
        && (!file.may_group_write() || file.group == text.group && text.may_group_write())
}

/// Returns whether a file is one of the group that may write the text, in a folder of which this is
/// known.
fn is_of_team_in(file: &Access, text: &Access, folder: Option<Access>) -> bool
    ensures { result ≡ is_of_team_in file.now text.now folder }
{
    match folder {
        Some(folder) => is_of_team(file, text, &folder),
        None => false,
    }
}

/// Returns whether a file is one of the group that may write the text, and nobody else can have
/// made it in this folder, or written it.
fn is_of_team(file: &Access, text: &Access, folder: &Access) -> bool
    ensures { result ≡ is_of_team file.now text.now folder.now }
{
    let is_of_group = file.group == text.group && text.may_group_write();
    is_of_group && !file.may_others_write() && may_only_group_create(folder, text.group)
}

/// Returns whether, besides its owner, only members of this group may create files in a folder.
fn may_only_group_create(folder: &Access, group: u32) -> bool
    ensures { result ≡ may_only_group_create folder.now group }
{
    !folder.may_others_write() && (!folder.may_group_write() || folder.group == group)
}

/// Returns the user for whom this program opens files; none if the system does not say.
pub fn caller<R: SystemFiles>(rt: &R) -> Option<u32> {
    match fs::metadata(rt, THIS_PROCESS) {
        Ok(found) => Some(found.uid()),
        Err(_) => None,
    }
}
