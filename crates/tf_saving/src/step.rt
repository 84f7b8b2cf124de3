//! Which call comes next.
ghost use Rattle.std.specs.Prelude.{◌≡◌, ◌<◌, IfOk};
ghost use Rattle.tf_saving.specs.Steps.{finish, call_of, step_after, calls_left};

use crate::call::{Reply, SavedFile, Syscall};

/// How a save or a recovery ends.
#[derive(Clone, Copy)]
pub enum End {
    /// Both files are saved, or nothing is left to recover.
    Success,
    /// No new file can replace the old one, so both files are to be written in place. They are
    /// unchanged, and the text is still the one that was read.
    InPlace,
    /// A call failed for this part. Both files are unchanged.
    Error(SavedFile),
    /// A call failed that shows in which state the files are, so nothing more was changed. The next
    /// recovery finds both old or both new.
    Unknown,
    /// The text is new; the next recovery puts the new journal in place.
    Late,
}

/// What a save or a recovery does next.
#[derive(Clone, Copy)]
pub enum Step {
    // recover what an interrupted command left
    FindNewJournal,
    FindNewText { has_journal: bool },
    ReadNewJournal,
    RemoveStray,
    // create and write the new files
    OpenJournal,
    OpenText,
    SyncEarlierRename,
    CreateText,
    CopyTextAttributes,
    WriteText,
    SyncText,
    SyncTextName,
    CreateJournal,
    CopyJournalAttributes,
    WriteJournal,
    SyncJournal,
    SyncJournalName,
    // look whether another program has changed a file meanwhile
    CompareNewJournal,
    CompareNewText,
    CompareText,
    // replace both files
    RenameText,
    CheckRename(End),
    SyncRename,
    RenameJournal,
    // or remove the new ones
    RemoveJournal(End),
    SyncRemoval(End),
    RemoveText(End),
    CompareInPlace,
    Ended(End),
}

impl End {
    /// Returns the step to this end once the new files are removed. The text is compared before it
    /// is written in place, since another program may have changed it.
    fn finish(self) -> Step
        ensures step { result ≡ finish self }
        ensures few { calls_left result < 2 }
    {
        match self {
            End::InPlace => Step::CompareInPlace,
            end => Step::Ended(end),
        }
    }
}

impl Step {
    /// The first step of a recovery from a command that was interrupted.
    pub const RECOVER: Step = Step::FindNewJournal;

    /// The first step of a save.
    pub const SAVE: Step = Step::OpenJournal;

    /// Returns the call to make.
    ///
    /// # Errors
    ///
    /// The end, where no call is left; it is not always a failure (`End::Success`).
    pub fn call(self) -> Result<Syscall, End>
        ensures call { result ≡ call_of self }
        ensures more { IfOk result (λ call. 0 < calls_left self) }
    {
        match self {
            Step::FindNewJournal => Ok(Syscall::FindNew(SavedFile::Journal)),
            Step::FindNewText { .. } | Step::CheckRename(_) => Ok(Syscall::FindNew(
                SavedFile::Text,
            )),
            Step::ReadNewJournal => Ok(Syscall::CanAdopt),
            Step::OpenJournal => Ok(Syscall::Open(SavedFile::Journal)),
            Step::OpenText => Ok(Syscall::Open(SavedFile::Text)),
            Step::CreateText => Ok(Syscall::CreateNew(SavedFile::Text)),
            Step::CopyTextAttributes => Ok(Syscall::CopyAttributes(SavedFile::Text)),
            Step::WriteText => Ok(Syscall::Write(SavedFile::Text)),
            Step::SyncText => Ok(Syscall::Sync(SavedFile::Text)),
            Step::CreateJournal => Ok(Syscall::CreateNew(SavedFile::Journal)),
            Step::CopyJournalAttributes => Ok(Syscall::CopyAttributes(SavedFile::Journal)),
            Step::WriteJournal => Ok(Syscall::Write(SavedFile::Journal)),
            Step::SyncJournal => Ok(Syscall::Sync(SavedFile::Journal)),
            Step::SyncEarlierRename | Step::SyncJournalName | Step::SyncRemoval(_) => {
                Ok(Syscall::SyncDirectory(SavedFile::Journal))
            }
            Step::SyncTextName | Step::SyncRename => Ok(Syscall::SyncDirectory(SavedFile::Text)),
            Step::CompareNewJournal => Ok(Syscall::CompareNew(SavedFile::Journal)),
            Step::CompareNewText => Ok(Syscall::CompareNew(SavedFile::Text)),
            Step::CompareText | Step::CompareInPlace => Ok(Syscall::Compare),
            Step::RenameText => Ok(Syscall::Rename(SavedFile::Text)),
            Step::RenameJournal => Ok(Syscall::Rename(SavedFile::Journal)),
            Step::RemoveJournal(_) | Step::RemoveStray => Ok(Syscall::Remove(SavedFile::Journal)),
            Step::RemoveText(_) => Ok(Syscall::Remove(SavedFile::Text)),
            Step::Ended(end) => Err(end),
        }
    }

    /// Returns the step that follows, given the reply to this step's call.
    pub fn after(self, reply: Reply) -> Step
        ensures next { result ≡ step_after self reply }
        ensures falls { 0 < calls_left self → calls_left result < calls_left self }
    {
        let no_text = Step::Ended(End::Error(SavedFile::Text));
        let no_journal = Step::Ended(End::Error(SavedFile::Journal));
        let drop_text = Step::RemoveJournal(End::Error(SavedFile::Text));
        let drop_journal = Step::RemoveJournal(End::Error(SavedFile::Journal));
        let in_place = Step::RemoveJournal(End::InPlace);
        let text_in_place = Step::RemoveText(End::InPlace);
        let text_alone = Step::RemoveText(End::Error(SavedFile::Text));
        let unknown = Step::Ended(End::Unknown);
        match self {
            // a new journal without a new text: the text may have been renamed
            Step::FindNewJournal => reply.choose(
                Step::FindNewText { has_journal: true },
                Step::FindNewText { has_journal: false },
                unknown,
            ),
            Step::FindNewText { has_journal: true } => {
                reply.choose(
                    Step::RemoveJournal(End::Success),
                    Step::ReadNewJournal,
                    unknown,
                )
            }
            Step::FindNewText { has_journal: false } => reply.choose(
                Step::RemoveJournal(End::Success),
                Step::Ended(End::Success),
                unknown,
            ),
            // it belongs to the text, or it came from elsewhere
            Step::ReadNewJournal => reply.choose(Step::SyncRename, Step::RemoveStray, unknown),
            Step::RemoveStray => {
                reply.choose(
                    Step::Ended(End::Success),
                    Step::Ended(End::Success),
                    no_journal,
                )
            }
            Step::OpenJournal => reply.choose(Step::OpenText, Step::OpenText, no_journal),
            Step::OpenText => reply.choose(Step::SyncEarlierRename, no_text, no_text),
            Step::SyncEarlierRename => {
                reply.choose_or_in_place(Step::CreateText, Step::CompareInPlace, no_journal)
            }
            // a call that is reported as failed may have been done
            Step::CreateText => {
                reply.choose_or_in_place(Step::CopyTextAttributes, Step::CompareInPlace, drop_text)
            }
            Step::CopyTextAttributes => {
                reply.choose_or_in_place(Step::WriteText, text_in_place, text_alone)
            }
            Step::WriteText => reply.choose(Step::SyncText, text_alone, text_alone),
            Step::SyncText => reply.choose(Step::SyncTextName, text_alone, text_alone),
            Step::SyncTextName => {
                reply.choose_or_in_place(Step::CreateJournal, text_in_place, text_alone)
            }
            Step::CreateJournal => {
                reply.choose_or_in_place(Step::CopyJournalAttributes, text_in_place, drop_journal)
            }
            Step::CopyJournalAttributes => {
                reply.choose_or_in_place(Step::WriteJournal, in_place, drop_journal)
            }
            Step::WriteJournal => reply.choose(Step::SyncJournal, drop_journal, drop_journal),
            Step::SyncJournal => reply.choose(Step::SyncJournalName, drop_journal, drop_journal),
            Step::SyncJournalName => {
                reply.choose_or_in_place(Step::CompareNewJournal, in_place, drop_journal)
            }
            Step::CompareNewJournal => {
                reply.choose(Step::CompareNewText, drop_journal, drop_journal)
            }
            Step::CompareNewText => reply.choose(Step::CompareText, drop_text, drop_text),
            Step::CompareText => reply.choose(Step::RenameText, drop_text, drop_text),
            Step::CompareInPlace => { reply.choose(Step::Ended(End::InPlace), no_text, no_text) }
            Step::RenameText => {
                let check = Step::CheckRename(End::Error(SavedFile::Text));
                reply.choose_or_in_place(Step::SyncRename, Step::CheckRename(End::InPlace), check)
            }
            Step::CheckRename(end) => {
                reply.choose(Step::RemoveJournal(end), Step::SyncRename, unknown)
            }
            Step::SyncRename => {
                let late = Step::Ended(End::Late);
                reply.choose(Step::RenameJournal, late, late)
            }
            Step::RenameJournal => {
                let late = Step::Ended(End::Late);
                reply.choose(Step::Ended(End::Success), late, late)
            }
            // the journal is removed first: alone, it says that its text was renamed
            Step::RemoveJournal(end) => {
                let sync = Step::SyncRemoval(end);
                reply.choose(sync, sync, end.finish())
            }
            Step::SyncRemoval(end) => {
                reply.choose(Step::RemoveText(end), end.finish(), end.finish())
            }
            Step::RemoveText(end) => end.finish(),
            Step::Ended(end) => Step::Ended(end),
        }
    }
}
