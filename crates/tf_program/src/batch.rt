//! Files that a command changes: many are saved at once, and all are reported in the order in which
//! they were given.

ghost use Rattle.std.specs.Prelude.{◌≡◌, ◌≤◌, true, [], ℕ, List, Some, IfSome, length, vec_len};
ghost use Rattle.tf_program.specs.Inner.Entries.{AreApartFrom, HasNext, IsEntryIn, IsFoundIn};
ghost use Rattle.tf_program.specs.Inner.Entries.{IsWaitingIn, MayFinish, PutsIn, progress};
ghost use Rattle.tf_program.specs.Printing.{console_of};
ghost use Rattle.tf_program.specs.Tasks.{outcome_of_files};
ghost use Rattle.tf_program.specs.Work.{file_command};

use crate::entry::{Entry, none_may_share};
use crate::file_error::FileError;
use crate::files::{FileWork, Made, change_file};
use crate::streams::Streams;
use std::alloc::Global;
use std::io::{Read, Write};
use tf_cli::{Action, RunOutcome, Task};
use tf_files::{Store, Trouble};
use tf_session::{Command, RunFault};

/// How many files are held at most. More would hardly save any wait; and while a file is saved, two
/// are open.
const MAX_FILES: usize = 64;

/// How many bytes are held at most, unless one file has more: new texts, journals and lines. What
/// the allocator loses beside them makes it 16 MB at most.
const MAX_BYTES: usize = 12 << 20;

/// Files that are not saved yet, and what all those before them have met. No two of them have
/// anything in common, and the first is one that changed.
#[derive(Drop)]
pub struct Batch<'a, P> {
    pub alloc: Global,
    pub entries: Vec<Entry<'a, P>>,
    pub bytes: usize,
    /// What is done on each file.
    pub action: Action,
    /// Whether errors are located.
    pub locate: bool,
    /// What the files have met that are reported; those that are held are left.
    pub outcome: RunOutcome,
}

impl<'a, P: Drop> Batch<'a, P> {
    /// Returns a batch of no file, for the files of a task.
    pub fn new(alloc: Global, task: &Task<'_>) -> Batch<'a, P>
        ensures none { result.entries.items ≡ [] }
        ensures len { vec_len result.entries ≡ 0 }
        ensures outcome { result.outcome ≡ outcome_of_files (length task.now.files.items) }
        ensures action { result.action ≡ task.now.action }
        ensures locate { result.locate ≡ task.now.locate }
    {
        Batch {
            alloc,
            entries: Vec::new(alloc),
            bytes: 0,
            action: task.action,
            locate: task.locate,
            outcome: RunOutcome::of_files(task.files.len()),
        }
    }

    /// Does a command on a file, which is saved and reported at the latest by `finish`.
    pub fn change<S: Store<Place = P>, I: Read, O: Write, F: Write>(
        &mut self,
        store: &mut S,
        command: Command,
        name: &'a str,
        streams: &mut Streams<I, O, F>,
    )
        requires next { HasNext self.old }
        requires command { file_command self.old.action name.now ≡ Some command }
        requires waiting { IsWaitingIn S.spot self.old (S.known store.old) }
        ensures { PutsIn S.spot name.entry self.old
            (progress self.old (console_of I.remaining O.contents F.contents streams.old)
            (S.known store.old)) self.new
            (progress self.new (console_of I.remaining O.contents F.contents streams.new)
            (S.known store.new)) }
    {
        let place = self.admit(store, name, streams);
        let entry = self.make(store, command, name, place, streams);
        self.add(store, entry, streams);
    }

    /// Finds the file of this name, and saves what is held, unless it may be read before that.
    fn admit<S: Store<Place = P>, I: Read, O: Write, F: Write>(
        &mut self,
        store: &mut S,
        name: &str,
        streams: &mut Streams<I, O, F>,
    ) -> Result<P, Trouble>
        requires within { vec_len self.old.entries ≤ self.old.outcome.left }
        requires waiting { IsWaitingIn S.spot self.old (S.known store.old) }
        ensures found { IsFoundIn S.spot (S.known store.new) name.now result }
        ensures apart { AreApartFrom S.spot (S.known store.new) self.new.entries.items name.now }
        ensures step { MayFinish S.spot self.old
            (progress self.old (console_of I.remaining O.contents F.contents streams.old)
            (S.known store.old)) self.new
            (progress self.new (console_of I.remaining O.contents F.contents streams.new)
            (S.known store.new)) }
    {
        if let Some(place) = self.admitted(store, name) {
            return place;
        }
        self.finish(store, streams);
        // a link may lead elsewhere by now
        store.find(self.alloc, name)
    }

    /// Returns where the file of this name is, if it may be read before those that are held are
    /// saved.
    fn admitted<S: Store<Place = P>>(&self, store: &S, name: &str) -> Option<Result<P, Trouble>>
        ensures found { IfSome result (IsFoundIn S.spot (S.known store.now) name.now) }
        ensures apart { IfSome result
            (λ place. AreApartFrom S.spot (S.known store.now) self.now.entries.items name.now) }
    {
        let place = store.find(self.alloc, name);
        self.admits(store, &place).then_some(place)
    }

    /// Returns whether the file at this place may be read before those that are held are saved.
    fn admits<S: Store<Place = P>>(&self, store: &S, place: &Result<P, Trouble>) -> bool
        ensures { result ≡ true → (name : List ℕ) → IsFoundIn S.spot (S.known store.now) name place.now
            → AreApartFrom S.spot (S.known store.now) self.now.entries.items name }
    {
        if self.entries.is_empty() {
            return true;
        }
        match place {
            Ok(place) => none_may_share(store, &self.entries, place),
            Err(_) => false,
        }
    }

    /// Does a command on a file. If memory runs out while others are held, or it can't be read, as
    /// where too many files are open, these are saved, and it is done once more.
    fn make<S: Store<Place = P>, I: Read, O: Write, F: Write>(
        &mut self,
        store: &mut S,
        command: Command,
        name: &'a str,
        place: Result<P, Trouble>,
        streams: &mut Streams<I, O, F>,
    ) -> Entry<'a, P>
        requires found { IsFoundIn S.spot (S.known store.old) name.now place }
        requires command { file_command self.old.action name.now ≡ Some command }
        requires within { vec_len self.old.entries ≤ self.old.outcome.left }
        requires waiting { IsWaitingIn S.spot self.old (S.known store.old) }
        requires apart { AreApartFrom S.spot (S.known store.old) self.old.entries.items name.now }
        ensures name { result.name ≡ name.entry }
        ensures made { IsEntryIn S.spot self.old.action self.old.locate (S.known store.new) result }
        ensures step { MayFinish S.spot self.old
            (progress self.old (console_of I.remaining O.contents F.contents streams.old)
            (S.known store.old)) self.new
            (progress self.new (console_of I.remaining O.contents F.contents streams.new)
            (S.known store.new)) }
    {
        let locate = self.locate;
        let work = FileWork { command, name };
        let made = change_file(store, self.alloc, work, place, locate);
        if self.entries.is_empty() {
            return Entry { name, made };
        }
        if !may_be_done_later(&made) {
            return Entry { name, made };
        }
        // once those are saved there is more memory, and more files can be opened
        self.finish(store, streams);
        let place = store.find(self.alloc, name);
        let made = change_file(store, self.alloc, work, place, locate);
        Entry { name, made }
    }

    /// Holds an entry, or finishes it if it is not to wait.
    fn add<S: Store<Place = P>, I: Read, O: Write, F: Write>(
        &mut self,
        store: &mut S,
        next: Entry<'a, P>,
        streams: &mut Streams<I, O, F>,
    )
        requires next { HasNext self.old }
        requires made { IsEntryIn S.spot self.old.action self.old.locate (S.known store.old) next }
        requires waiting { IsWaitingIn S.spot self.old (S.known store.old) }
        requires apart { AreApartFrom S.spot (S.known store.old) self.old.entries.items
            next.name.now }
        ensures { PutsIn S.spot next.entry.name self.old
            (progress self.old (console_of I.remaining O.contents F.contents streams.old)
            (S.known store.old)) self.new
            (progress self.new (console_of I.remaining O.contents F.contents streams.new)
            (S.known store.new)) }
    {
        self.make_space(store, next.size(), streams);
        if self.lets_wait(store, &next) {
            return self.hold(store, next, streams);
        }
        self.finish_with(store, &next, streams);
    }

    /// Saves what is held, unless this many bytes more may be held.
    #[tactic(auto, using(crate::proofs::Holding::none_done))]
    fn make_space<S: Store<Place = P>, I: Read, O: Write, F: Write>(
        &mut self,
        store: &mut S,
        bytes: usize,
        streams: &mut Streams<I, O, F>,
    )
        requires within { vec_len self.old.entries ≤ self.old.outcome.left }
        requires waiting { IsWaitingIn S.spot self.old (S.known store.old) }
        ensures { MayFinish S.spot self.old
            (progress self.old (console_of I.remaining O.contents F.contents streams.old)
            (S.known store.old)) self.new
            (progress self.new (console_of I.remaining O.contents F.contents streams.new)
            (S.known store.new)) }
    {
        if self.has_space(bytes) {
            return;
        }
        self.finish(store, streams);
    }

    /// Returns whether this many bytes more may be held.
    fn has_space(&self, bytes: usize) -> bool {
        self.bytes.saturating_add(bytes) <= MAX_BYTES
    }

    /// Returns whether an entry may wait for others: one that has changed begins a batch, unless it
    /// is the last.
    fn lets_wait<S: Store<Place = P>>(&self, store: &S, entry: &Entry<'a, P>) -> bool {
        let is_alone = self.entries.is_empty();
        match entry.changed_file() {
            Some(file) => store.can_wait(&file.place) && (!is_alone || self.outcome.left > 1),
            None => !is_alone,
        }
    }

    /// Holds an entry, or finishes it if there is no memory for that.
    fn hold<S: Store<Place = P>, I: Read, O: Write, F: Write>(
        &mut self,
        store: &mut S,
        next: Entry<'a, P>,
        streams: &mut Streams<I, O, F>,
    )
        requires next { HasNext self.old }
        requires made { IsEntryIn S.spot self.old.action self.old.locate (S.known store.old) next }
        requires waiting { IsWaitingIn S.spot self.old (S.known store.old) }
        requires apart { AreApartFrom S.spot (S.known store.old) self.old.entries.items
            next.name.now }
        ensures { PutsIn S.spot next.entry.name self.old
            (progress self.old (console_of I.remaining O.contents F.contents streams.old)
            (S.known store.old)) self.new
            (progress self.new (console_of I.remaining O.contents F.contents streams.new)
            (S.known store.new)) }
    {
        let size = next.size();
        match self.entries.push(next) {
            Ok(()) => {
                self.bytes = self.bytes.saturating_add(size);
                self.finish_full(store, streams);
            }
            Err(refused) => self.finish_with(store, &refused.value, streams),
        }
    }

    /// Saves what is held if it is as much as may be held.
    #[tactic(auto, using(crate::proofs::Holding::none_done))]
    fn finish_full<S: Store<Place = P>, I: Read, O: Write, F: Write>(
        &mut self,
        store: &mut S,
        streams: &mut Streams<I, O, F>,
    )
        requires within { vec_len self.old.entries ≤ self.old.outcome.left }
        requires waiting { IsWaitingIn S.spot self.old (S.known store.old) }
        ensures { MayFinish S.spot self.old
            (progress self.old (console_of I.remaining O.contents F.contents streams.old)
            (S.known store.old)) self.new
            (progress self.new (console_of I.remaining O.contents F.contents streams.new)
            (S.known store.new)) }
    {
        if self.may_hold_more() {
            return;
        }
        self.finish(store, streams);
    }

    /// Returns whether another entry may be held: fewer than `MAX_FILES` are, with fewer than
    /// `MAX_BYTES` bytes.
    fn may_hold_more(&self) -> bool {
        self.entries.len() < MAX_FILES && self.bytes < MAX_BYTES
    }
}

/// Returns whether a command on a file may have failed since others are held.
fn may_be_done_later<P: Drop>(made: &Result<Made<P>, FileError>) -> bool {
    match made {
        Ok(_) => false,
        Err(error) => matches!(error.fault, RunFault::Memory | RunFault::Read),
    }
}
