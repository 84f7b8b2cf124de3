//! Follows the saves of many files: each up to its next wait for the disk, then all waits in a row.

ghost use Rattle.std.specs.Prelude.{◌≡◌, true, IfErr};
ghost use Rattle.tf_files.specs.Inner.Causes.{first_known};
ghost use Rattle.tf_files.specs.Inner.Ends.{result_of_end, part_fault, unknown_fault};
ghost use Rattle.tf_files.specs.Inner.Ends.{attempt_of, ended_attempt, failed_attempt};
ghost use Rattle.tf_files.specs.Opening.{is_file_fault};

use crate::calls::{NewFile, PartFile, make};
use crate::cause::{Cause, Trouble};
use crate::file_part::write_fault;
use crate::file_paths::FilePaths;
use crate::folder::SystemFiles;
use crate::found_files::FileId;
use crate::leftovers::Leftovers;
use crate::snapshot::Snapshots;
use std::alloc::Global;
use tf_saving::{End, Reply, SavedFile, Step, Syscall};
use tf_session::{RunFault, SessionPart};

/// The bytes that a file and its journal are to have.
#[derive(Clone, Copy)]
pub struct NewContents<'b> {
    pub journal: &'b [u8],
    pub text: &'b [u8],
}

/// No save waits more often, whatever fails.
const MOST_WAITS: u32 = 6;

/// A save or a recovery, and how far it has come.
#[derive(Drop)]
pub struct Save<'a> {
    pub text: PartFile<'a>,
    pub journal: PartFile<'a>,
    step: Step,
    /// The folder that it has synced in the present row of waits.
    synced: Option<SyncedFolder>,
}

/// A folder that was synced, and the reply.
#[derive(Clone, Copy)]
struct SyncedFolder {
    id: FileId,
    reply: Reply,
}

/// How far a save in company has come.
#[derive(Drop)]
pub enum Attempt {
    /// Both new files have replaced the old ones.
    Replaced,
    /// No new file can replace an old one: both are to be written in place.
    InPlace,
    /// Both files are as they were.
    Refused,
    /// The next recovery finds both old or both new.
    Fault(RunFault),
}

/// Makes the calls of saves that have no file in common. A failure of one stops no other.
pub fn save_in_rows<R: SystemFiles>(rt: &R, alloc: Global, saves: &mut [Save<'_>]) {
    for _ in 0..MOST_WAITS {
        bring_to_waits(rt, alloc, saves);
        wait_for_all(rt, alloc, saves);
    }
}

/// Makes the calls of each save up to its next wait.
fn bring_to_waits<R: SystemFiles>(rt: &R, alloc: Global, saves: &mut [Save<'_>]) {
    for save in saves.iter_mut() {
        save.make_calls(rt, alloc);
    }
}

/// Makes the call that each save waits with.
fn wait_for_all<R: SystemFiles>(rt: &R, alloc: Global, saves: &mut [Save<'_>]) {
    for at in 0..saves.len() {
        if let Some((before, rest)) = saves.split_at_mut_checked(at) {
            if let Some(save) = rest.first_mut() {
                save.wait(rt, alloc, before);
            }
        }
    }
}

/// Makes the calls of a recovery from a command that has left these files.
///
/// # Errors
///
/// `Read` where it is not known what was interrupted; `Write` of the journal where a new one can't
/// be removed or renamed; `Memory`.
pub fn recover<R: SystemFiles>(
    rt: &R,
    alloc: Global,
    paths: &FilePaths,
    left: Leftovers,
) -> Result<(), Trouble>
    ensures { IfErr result (λ trouble. is_file_fault trouble.fault ≡ true) }
{
    let new_text = NewFile::Left(left.new_text);
    let new_journal = NewFile::Left(left.new_journal);
    let mut recovery = Save {
        text: PartFile::text(paths, &[], None, new_text, false),
        journal: PartFile::journal(paths, &[], None, new_journal, false),
        step: Step::RECOVER,
        synced: None,
    };
    match recovery.result(rt, alloc) {
        Ok(_) => Ok(()),
        Err(fault) => Err(Trouble {
            fault,
            cause: recovery.cause(),
        }),
    }
}

impl<'a> Save<'a> {
    /// Makes the save of a text and a journal, before its first call. `read` is what both files
    /// were before they were read; in company the system is to start writing early.
    pub fn new(
        paths: &'a FilePaths,
        contents: NewContents<'a>,
        read: Option<Snapshots>,
        is_in_company: bool,
    ) -> Save<'a>
        ensures text { result.text.bytes.now ≡ contents.entry.text.now }
        ensures text_paths { result.text.paths.now ≡ paths.now }
        ensures text_read { result.text.read ≡ read }
        ensures journal { result.journal.bytes.now ≡ contents.entry.journal.now }
        ensures journal_paths { result.journal.paths.now ≡ paths.now }
        ensures journal_read { result.journal.read ≡ read }
        ensures text_early { result.text.starts_early ≡ is_in_company }
        ensures journal_early { result.journal.starts_early ≡ is_in_company }
    {
        let new_file = NewFile::NotCreated;
        let text = PartFile::text(paths, contents.text, read, new_file, is_in_company);
        let new_file = NewFile::NotCreated;
        Save {
            text,
            journal: PartFile::journal(paths, contents.journal, read, new_file, is_in_company),
            step: Step::SAVE,
            synced: None,
        }
    }

    /// Returns why a call failed, if it is known.
    pub fn cause(&self) -> Option<Cause>
        ensures { result ≡ first_known self.now.text.cause self.now.journal.cause }
    {
        match self.text.cause {
            Some(cause) => Some(cause),
            None => self.journal.cause,
        }
    }

    /// Returns whether the new files have replaced the old ones, or the error that this end is.
    fn outcome(&self, end: End) -> Result<bool, RunFault>
        ensures value { result ≡ result_of_end end self.now.text.sent self.now.journal.sent
            self.now.journal.is_out_of_memory }
        ensures fault { IfErr result (λ fault. is_file_fault fault ≡ true) }
    {
        match end {
            End::Success => Ok(true),
            End::InPlace => Ok(false),
            End::Unknown => Err(unknown_fault(self.journal.is_out_of_memory)),
            End::Error(part) => Err(self.part_fault(part)),
            End::Late => Err(self.part_fault(SavedFile::Journal)),
        }
    }

    /// Returns the error that not all of a part was written.
    fn part_fault(&self, part: SavedFile) -> RunFault
        ensures value { result ≡ part_fault part self.now.text.sent self.now.journal.sent }
        ensures fault { is_file_fault result ≡ true }
    {
        match part {
            SavedFile::Text => write_fault(SessionPart::Text, self.text.sent),
            SavedFile::Journal => write_fault(SessionPart::Journal, self.journal.sent),
        }
    }
}

impl<'a> Save<'a> {
    /// Makes its calls up to the next that waits for the disk. So the file is renamed right after
    /// it was compared.
    fn make_calls<R: SystemFiles>(&mut self, rt: &R, alloc: Global) {
        self.synced = None;
        let mut step = self.step;
        loop {
            match step.call() {
                Ok(Syscall::Sync(_) | Syscall::SyncDirectory(_)) | Err(_) => break,
                Ok(call) => step = step.after(self.reply_to(rt, alloc, call)),
            }
        }
        self.step = step;
    }

    /// Makes the call that waits, if it is at one; `before` are the saves that have waited in this
    /// row.
    fn wait<R: SystemFiles>(&mut self, rt: &R, alloc: Global, before: &[Save<'a>]) {
        let reply = match self.step.call() {
            Ok(Syscall::SyncDirectory(part)) => self.sync_folder(part, before),
            Ok(call) => self.reply_to(rt, alloc, call),
            Err(_) => return,
        };
        self.step = self.step.after(reply);
    }

    /// Syncs the part's folder, unless it was synced in this row: no name has changed since then.
    fn sync_folder(&mut self, part: SavedFile, before: &[Save<'a>]) -> Reply {
        let folder = match part {
            SavedFile::Text => self.text.folder,
            SavedFile::Journal => self.journal.folder,
        };
        let id = folder.id();
        let reply = match synced_before(before, id) {
            Some(reply) => reply,
            None => folder.sync(),
        };
        self.synced = id.map(|id| SyncedFolder { id, reply });
        reply
    }

    /// Makes one call for the part that it is about.
    fn reply_to<R: SystemFiles>(&mut self, rt: &R, alloc: Global, call: Syscall) -> Reply {
        match part_of(call) {
            SavedFile::Text => make(rt, alloc, &mut self.text, call),
            SavedFile::Journal => make(rt, alloc, &mut self.journal, call),
        }
    }

    /// Makes the calls that are left, and returns how it ends.
    fn end<R: SystemFiles>(&mut self, rt: &R, alloc: Global) -> End {
        let mut step = self.step;
        loop {
            match step.call() {
                Ok(call) => step = step.after(self.reply_to(rt, alloc, call)),
                Err(end) => return end,
            }
        }
    }

    /// Makes the calls that are left. Returns whether the new files have replaced the old ones: if
    /// they can't, both are to be written in place.
    ///
    /// # Errors
    ///
    /// `Write` with the part and the number of its bytes that were written; `Read` where it is not
    /// known what the next recovery will find.
    pub fn result<R: SystemFiles>(&mut self, rt: &R, alloc: Global) -> Result<bool, RunFault>
        ensures { IfErr result (λ fault. is_file_fault fault ≡ true) }
    {
        let end = self.end(rt, alloc);
        self.outcome(end)
    }

    /// Makes the calls that are left, and returns how the attempt has ended.
    pub fn attempt<R: SystemFiles>(&mut self, rt: &R, alloc: Global) -> Attempt {
        let end = self.end(rt, alloc);
        attempt_of(end, self.outcome(end))
    }
}

/// Returns how an attempt has ended, by its end and what that is.
fn attempt_of(end: End, outcome: Result<bool, RunFault>) -> Attempt
    ensures { result ≡ attempt_of end outcome }
{
    match outcome {
        Ok(is_replaced) => ended_attempt(is_replaced),
        Err(fault) => failed_attempt(end, fault),
    }
}

/// Returns how an attempt without an error has ended.
fn ended_attempt(is_replaced: bool) -> Attempt
    ensures { result ≡ ended_attempt is_replaced }
{
    if is_replaced {
        Attempt::Replaced
    } else {
        Attempt::InPlace
    }
}

/// Returns how an attempt with this error has ended.
fn failed_attempt(end: End, fault: RunFault) -> Attempt
    ensures { result ≡ failed_attempt end fault }
{
    match end {
        End::Error(_) => Attempt::Refused,
        _ => Attempt::Fault(fault),
    }
}

/// Returns the error if it is not known what the next recovery will find: `Memory` if memory ran
/// out, else `Read`.
fn unknown_fault(is_out_of_memory: bool) -> RunFault
    ensures value { result ≡ unknown_fault is_out_of_memory }
    ensures fault { is_file_fault result ≡ true }
{
    if is_out_of_memory {
        RunFault::Memory
    } else {
        RunFault::Read
    }
}

/// Returns the reply to the sync of this folder, if one of these saves has synced it.
fn synced_before(before: &[Save<'_>], id: Option<FileId>) -> Option<Reply> {
    let id = id?;
    for save in before {
        match save.synced {
            Some(synced) if synced.id == id => return Some(synced.reply),
            _ => {}
        }
    }
    None
}

/// Returns the part that a call is about.
fn part_of(call: Syscall) -> SavedFile {
    match call {
        Syscall::Compare => SavedFile::Text,
        Syscall::CanAdopt => SavedFile::Journal,
        Syscall::Open(part)
        | Syscall::FindNew(part)
        | Syscall::CreateNew(part)
        | Syscall::CopyAttributes(part)
        | Syscall::Write(part)
        | Syscall::Sync(part)
        | Syscall::SyncDirectory(part)
        | Syscall::CompareNew(part)
        | Syscall::Rename(part)
        | Syscall::Remove(part) => part,
    }
}
