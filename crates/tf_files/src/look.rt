//! What has a path.

ghost use Rattle.std.specs.IoError.{error_kind};
ghost use Rattle.std.specs.Prelude.{◌≡◌, true, IfErr};
ghost use Rattle.tf_files.specs.Opening.{is_file_fault};
ghost use Rattle.tf_files.specs.Inner.Replies.{shows_none};

use crate::cause::{Subject, Trouble};
use crate::folder::SystemFiles;
use std::fs::{self, Metadata};
use std::io::{self, ErrorKind};

/// What has a path.
#[derive(Drop)]
pub enum Look {
    Nothing,
    Found(Metadata),
    /// The system does not say it.
    Unknown,
}

impl Look {
    /// Looks at what has this path, and follows no link.
    pub fn at<R: SystemFiles>(rt: &R, path: &str) -> Look {
        match fs::symlink_metadata(rt, path) {
            Ok(found) => Look::Found(found),
            Err(error) if is_not_found(&error) => Look::Nothing,
            Err(_) => Look::Unknown,
        }
    }

    /// Returns whether it is a link.
    pub fn is_link(&self) -> bool {
        match self {
            Look::Found(found) => found.is_symlink(),
            _ => false,
        }
    }
}

/// Returns what has this path; `Ok(None)` if nothing has.
///
/// # Errors
///
/// `Read` if the system does not say it.
pub fn look_for<R: SystemFiles>(rt: &R, path: &str) -> Result<Option<Metadata>, Trouble>
    ensures { IfErr result (λ trouble. is_file_fault trouble.fault ≡ true) }
{
    match fs::symlink_metadata(rt, path) {
        Ok(found) => Ok(Some(found)),
        Err(error) if is_not_found(&error) => Ok(None),
        // its folder may not be searched, as for the file
        Err(error) => Err(Trouble::unread_after(Subject::File, &error)),
    }
}

/// Returns whether a call that failed with this error shows that no file has its name; none has a
/// name that is too long for the system.
pub fn is_not_found(error: &io::Error) -> bool
    ensures { result ≡ shows_none (error_kind error.now) }
{
    matches!(
        error.kind(),
        ErrorKind::NotFound | ErrorKind::InvalidFilename
    )
}
