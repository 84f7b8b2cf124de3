//! Folders that stay open: what is in them is reached through their handles, whatever has their
//! names by then.

ghost use Rattle.std.specs.Prelude.{◌≡◌, IfOk, IfErr, is_some, true, if◌then◌else◌, string_bytes};
ghost use Rattle.tf_files.specs.Inner.Handles.{handle_path};
ghost use Rattle.tf_files.specs.Opening.{is_file_fault};

use crate::calls::reply_to;
use crate::cause::{Subject, Trouble};
use crate::found_files::FileId;
use crate::trust::Access;
use std::alloc::{AllocError, Global};
use std::fs::{self, File, OpenFile};
use std::io::ErrorKind;
use std::os::fd::AsRawFd;
use std::rt::Files;
use tf_saving::Reply;
use tf_session::RunFault;

/// The files of a system that gives each open file a number.
pub trait SystemFiles: Files<File = File> {}

impl<R: Files<File = File>> SystemFiles for R {}

/// An open folder.
#[derive(Drop)]
pub struct Folder {
    /// None without the permission to read the folder.
    handle: Option<File>,
    /// The first part of the paths of files in this folder: what the system shows of the handle; or,
    /// where it shows no handles, the folder's name as it was given. It is empty for the current
    /// folder, which stays the same one whatever has its name.
    prefix: String,
}

impl Folder {
    /// Opens the folder of this name, which is empty, for the current folder, or ends in a slash.
    ///
    /// # Errors
    ///
    /// `Memory`; `Read` if it can't be opened for another reason than the permission to read it.
    pub fn open<R: SystemFiles>(rt: &R, alloc: Global, name: String) -> Result<Folder, Trouble>
        ensures { IfErr result (λ trouble. is_file_fault trouble.fault ≡ true) }
    {
        let itself = format!(in alloc; "{name}.")?;
        match fs::open(rt, &itself) {
            Ok(handle) if name.is_empty() => Ok(Folder {
                handle: Some(handle),
                prefix: name,
            }),
            Ok(handle) => Ok(Folder::of_handle(rt, alloc, handle, name)?),
            Err(error) if error.kind() == ErrorKind::PermissionDenied => Ok(Folder {
                handle: None,
                prefix: name,
            }),
            Err(error) if error.kind() == ErrorKind::OutOfMemory => {
                Err(Trouble::from(RunFault::Memory))
            }
            Err(error) => Err(Trouble::unread_after(Subject::File, &error)),
        }
    }

    /// Returns the folder with this handle, which was opened by this name.
    fn of_handle<R: SystemFiles>(
        rt: &R,
        alloc: Global,
        handle: File,
        name: String,
    ) -> Result<Folder, AllocError> {
        let path = handle_path(alloc, &handle)?;
        let is_shown = match (handle.metadata(), fs::metadata(rt, &path)) {
            (Ok(opened), Ok(found)) => FileId::of(&opened) == FileId::of(&found),
            _ => false,
        };
        let shown = format!(in alloc; "{path}/")?;
        Ok(Folder {
            handle: Some(handle),
            prefix: prefix_of(shown, name, is_shown),
        })
    }

    /// Returns the first part of the paths of files in this folder.
    pub fn prefix(&self) -> &str
        ensures { result.now ≡ string_bytes self.now.prefix }
    {
        self.prefix.as_str()
    }

    /// Waits until the names in this folder are durable; `CannotReplace` without the permission to
    /// read it. A file system that can't sync folders has nothing to wait for.
    pub fn sync(&self) -> Reply {
        let Some(handle) = &self.handle else {
            return Reply::CannotReplace;
        };
        match handle.sync_all() {
            Err(error) if error.kind() == ErrorKind::InvalidInput => Reply::Done,
            answer => reply_to(answer),
        }
    }

    /// Returns whether it could be opened: else its name may lead to another folder at each call.
    pub fn is_open(&self) -> bool
        ensures { result ≡ is_some self.now.handle }
    {
        self.handle.is_some()
    }

    /// Returns the id of this folder; none if the system does not say.
    pub fn id(&self) -> Option<FileId> {
        FileId::of_opened(self.handle.as_ref()?)
    }

    /// Returns the owner, group and mode of this folder; none if the system does not say.
    pub fn access(&self) -> Option<Access> {
        match self.handle.as_ref()?.metadata() {
            Ok(found) => Some(Access::of(&found)),
            Err(_) => None,
        }
    }

    /// Returns whether three more files can be open at once, as many as a save opens.
    pub fn can_open_more(&self) -> bool {
        let Some(handle) = &self.handle else {
            return false;
        };
        let more = (handle.try_clone(), handle.try_clone(), handle.try_clone());
        matches!(more, (Ok(_), Ok(_), Ok(_)))
    }
}

/// Returns the first part of the paths of files in a folder: the path that the system shows for its
/// handle, if it does, else the folder's name.
fn prefix_of(shown: String, name: String, is_shown: bool) -> String
    ensures { string_bytes result ≡ string_bytes (if is_shown then shown else name) }
{
    if is_shown { shown } else { name }
}

/// Returns the path that the system shows for an open file or folder.
pub fn handle_path(alloc: Global, handle: &File) -> Result<String, AllocError> {
    numbered_path(alloc, handle.as_raw_fd().unsigned_abs())
}

/// Returns the path that the system shows for the open file or folder with this number.
fn numbered_path(alloc: Global, number: u32) -> Result<String, AllocError>
    ensures { IfOk result (λ path. string_bytes path ≡ handle_path number) }
{
    format!(in alloc; "/proc/self/fd/{number}")
}
