//! One part of what is saved: the text of a file, or its journal.

ghost use Rattle.std.specs.Prelude.{◌≡◌};
ghost use Rattle.tf_files.specs.Inner.Causes.{subject_of};
ghost use Rattle.tf_files.specs.Inner.Ends.{session_part};

use crate::cause::{Cause, Subject, Trouble};
use std::fs::File;
use std::io::{self, Write};
use tf_saving::SavedFile;
use tf_session::{RunFault, SessionPart, Told, put_journal, put_text};

/// Returns the error of a part that was not written whole.
pub fn write_fault(part: SessionPart, sent: usize) -> RunFault
    ensures { result ≡ RunFault.Write part sent }
{
    RunFault::Write { part, sent }
}

/// Returns the error that a part was not written whole, and why.
pub fn unwritten_part(part: SessionPart, sent: usize, cause: Option<Cause>) -> Trouble
    ensures fault { result.fault ≡ RunFault.Write part sent }
    ensures cause { result.cause ≡ cause }
{
    Trouble {
        fault: RunFault::Write { part, sent },
        cause,
    }
}

/// How a part came to be not written whole.
#[derive(Drop)]
pub struct Unwritten {
    /// How many bytes were written.
    pub sent: usize,
    pub cause: Option<Cause>,
}

/// A file that is written, and why the last call failed that did.
#[derive(Drop)]
struct Noting<'a> {
    file: &'a mut File,
    subject: Subject,
    cause: Option<Cause>,
}

impl Write for Noting<'_> {
    fn write(&mut self, buf: &[u8]) -> io::Result<usize> {
        match self.file.write(buf) {
            Ok(count) => Ok(count),
            Err(error) => {
                self.cause = Cause::after(self.subject, &error);
                Err(error)
            }
        }
    }

    fn flush(&mut self) -> io::Result<()> {
        self.file.flush()
    }
}

/// Writes all bytes of a part and flushes.
pub fn write_part(part: SessionPart, bytes: &[u8], file: &mut File) -> Result<(), Unwritten> {
    let mut noting = Noting {
        file,
        subject: subject_of(part),
        cause: None,
    };
    let mut writer = Told::new(&mut noting);
    let put = match part {
        SessionPart::Journal => put_journal(bytes, &mut writer),
        SessionPart::Text => put_text(bytes, &mut writer),
    };
    match put {
        Ok(()) => Ok(()),
        Err(RunFault::Write { sent, .. }) => Err(Unwritten {
            sent,
            cause: noting.cause,
        }),
        Err(_) => Err(Unwritten {
            sent: 0,
            cause: noting.cause,
        }),
    }
}

/// Returns which file a part is.
pub fn subject_of(part: SessionPart) -> Subject
    ensures { result ≡ subject_of part }
{
    match part {
        SessionPart::Text => Subject::File,
        SessionPart::Journal => Subject::Journal,
    }
}

/// Returns the part as errors name it.
pub fn session_part(file: SavedFile) -> SessionPart
    ensures { result ≡ session_part file }
{
    match file {
        SavedFile::Text => SessionPart::Text,
        SavedFile::Journal => SessionPart::Journal,
    }
}
