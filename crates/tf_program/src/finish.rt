//! How files that are held are saved, together if there is memory for that, and reported.

ghost use Rattle.std.specs.Prelude.{◌≡◌, ◌<◌, ◌≤◌, [], Option, Result, IfOk, IfSome, IfNone, OnOk};
ghost use Rattle.std.specs.Prelude.{◌++◌, length, map, vec_len};
ghost use Rattle.std.specs.Vec.Iter.{into_iter_items, into_iter_len};
ghost use Rattle.tf_files.specs.Stores.{Files, Spot, SavesEach};
ghost use Rattle.tf_program.specs.Inner.Entries.{AreApartFrom, AreWaiting, HasNext, IsEntryIn};
ghost use Rattle.tf_program.specs.Inner.Entries.{IsWaitingIn, KeepsBatch, KeepsNames, MayFinish};
ghost use Rattle.tf_program.specs.Inner.Entries.{PutsIn, TakesResult, WasSaved, file_of, files_of};
ghost use Rattle.tf_program.specs.Inner.Entries.{names_of, progress, with_file};
ghost use Rattle.tf_program.specs.Printing.{console_of};
ghost use Rattle.tf_program.specs.Tasks.{DoesEach, DoesFile};

use crate::batch::Batch;
use crate::entry::Entry;
use crate::streams::Streams;
use std::alloc::{AllocError, Global};
use std::io::{Read, Write};
use std::mem;
use std::vec::IntoIter;
use tf_files::{ChangedFile, Store, Trouble};

impl<'a, P: Drop> Batch<'a, P> {
    /// Saves what is held, and then an entry.
    pub fn finish_with<S: Store<Place = P>, I: Read, O: Write, F: Write>(
        &mut self,
        store: &mut S,
        next: &Entry<'_, P>,
        streams: &mut Streams<I, O, F>,
    )
        requires next { HasNext self.old }
        requires made { IsEntryIn S.spot self.old.action self.old.locate (S.known store.old) next.now }
        requires waiting { IsWaitingIn S.spot self.old (S.known store.old) }
        requires apart { AreApartFrom S.spot (S.known store.old) self.old.entries.items
            next.now.name.now }
        ensures { PutsIn S.spot next.now.name self.old
            (progress self.old (console_of I.remaining O.contents F.contents streams.old)
            (S.known store.old)) self.new
            (progress self.new (console_of I.remaining O.contents F.contents streams.new)
            (S.known store.new)) }
    {
        self.finish(store, streams);
        self.finish_entry(store, next, streams);
    }

    /// Saves all files that are held, then reports each.
    pub fn finish<S: Store<Place = P>, I: Read, O: Write, F: Write>(
        &mut self,
        store: &mut S,
        streams: &mut Streams<I, O, F>,
    )
        requires within { vec_len self.old.entries ≤ self.old.outcome.left }
        requires waiting { IsWaitingIn S.spot self.old (S.known store.old) }
        ensures none { self.new.entries.items ≡ [] }
        ensures len { vec_len self.new.entries ≡ 0 }
        ensures step { MayFinish S.spot self.old
            (progress self.old (console_of I.remaining O.contents F.contents streams.old)
            (S.known store.old)) self.new
            (progress self.new (console_of I.remaining O.contents F.contents streams.new)
            (S.known store.new)) }
    {
        let entries = self.take_entries();
        match save_entries(store, self.alloc, &entries) {
            Some(results) => self.report_all(&entries, results, streams),
            None => self.finish_each(store, &entries, streams),
        }
    }

    /// Returns the entries that are held, and holds them no longer.
    fn take_entries(&mut self) -> Vec<Entry<'a, P>>
        ensures taken { result.items ≡ self.old.entries.items }
        ensures len { vec_len result ≡ vec_len self.old.entries }
        ensures none { self.new.entries.items ≡ [] }
        ensures left { vec_len self.new.entries ≡ 0 }
        ensures outcome { self.new.outcome ≡ self.old.outcome }
        ensures action { self.new.action ≡ self.old.action }
        ensures locate { self.new.locate ≡ self.old.locate }
    {
        self.bytes = 0;
        mem::replace(&mut self.entries, Vec::new(self.alloc))
    }

    /// Reports entries that were saved, those that have changed with these results.
    fn report_all<I: Read, O: Write, F: Write>(
        &mut self,
        entries: &[Entry<'_, P>],
        results: Vec<Result<(), Trouble>>,
        streams: &mut Streams<I, O, F>,
    )
        requires within { length entries.now ≤ self.old.outcome.left }
        ensures same { KeepsBatch (length entries.now) self.old self.new }
        ensures does { (spot : P → Spot) (old new : Option Files)
            → AreWaiting spot self.old.action self.old.locate old entries.now
            → SavesEach spot (files_of entries.now) results.items old new
            → DoesEach self.old.action self.old.locate (names_of entries.now)
            (progress self.old (console_of I.remaining O.contents F.contents streams.old) old)
            (progress self.new (console_of I.remaining O.contents F.contents streams.new) new) }
    {
        let mut rest = results.into_iter();
        for entry in entries {
            let saved = next_result(entry, &mut rest);
            self.report(entry, saved, streams);
        }
    }

    /// Saves and reports one entry after another.
    fn finish_each<S: Store<Place = P>, I: Read, O: Write, F: Write>(
        &mut self,
        store: &mut S,
        entries: &[Entry<'_, P>],
        streams: &mut Streams<I, O, F>,
    )
        requires within { length entries.now ≤ self.old.outcome.left }
        requires waiting { AreWaiting S.spot self.old.action self.old.locate (S.known store.old) entries.now }
        ensures same { KeepsBatch (length entries.now) self.old self.new }
        ensures kept { KeepsNames S.spot entries.now (S.known store.old) (S.known store.new) }
        ensures does { DoesEach self.old.action self.old.locate (names_of entries.now)
            (progress self.old (console_of I.remaining O.contents F.contents streams.old)
            (S.known store.old))
            (progress self.new (console_of I.remaining O.contents F.contents streams.new)
            (S.known store.new)) }
    {
        for entry in entries {
            self.finish_entry(store, entry, streams);
        }
    }

    /// Saves an entry, and reports it.
    fn finish_entry<S: Store<Place = P>, I: Read, O: Write, F: Write>(
        &mut self,
        store: &mut S,
        entry: &Entry<'_, P>,
        streams: &mut Streams<I, O, F>,
    )
        requires next { 0 < self.old.outcome.left }
        requires made { IsEntryIn S.spot self.old.action self.old.locate (S.known store.old) entry.now }
        ensures same { KeepsBatch 1 self.old self.new }
        ensures saved { (result : Result (Unit {0}) Trouble)
            × WasSaved S.spot (file_of entry.now.made) result (S.known store.old) (S.known store.new) }
        ensures does { DoesFile self.old.action self.old.locate entry.now.name.now
            (progress self.old (console_of I.remaining O.contents F.contents streams.old)
            (S.known store.old))
            (progress self.new (console_of I.remaining O.contents F.contents streams.new)
            (S.known store.new)) }
    {
        let saved = entry.save(store, self.alloc);
        self.report(entry, saved, streams);
    }
}

/// Returns the result of an entry's save: the next of these if the file has changed.
fn next_result<P: Drop>(
    entry: &Entry<'_, P>,
    rest: &mut IntoIter<Result<(), Trouble>>,
) -> Result<(), Trouble>
    requires { into_iter_len rest.old ≡ length (into_iter_items rest.old) }
    ensures taken { TakesResult (file_of entry.now.made) result (into_iter_items rest.old)
        (into_iter_items rest.new) }
    ensures len { into_iter_len rest.new ≡ length (into_iter_items rest.new) }
{
    match entry.changed_file() {
        Some(_) => rest.next().unwrap_or(Ok(())),
        None => Ok(()),
    }
}

/// Saves the files of entries that have changed together, and returns the result of each, in their
/// order. None is saved, and there are no results, if there are fewer than two, or no memory.
fn save_entries<S: Store>(
    store: &mut S,
    alloc: Global,
    entries: &[Entry<'_, S::Place>],
) -> Option<Vec<Result<(), Trouble>>>
    ensures saved { IfSome result (λ results. SavesEach S.spot (files_of entries.now)
        results.items (S.known store.old) (S.known store.new)) }
    ensures unsaved { IfNone result (S.known store.new ≡ S.known store.old) }
{
    let Ok(files) = changed_files(alloc, entries) else {
        return None;
    };
    if files.len() < 2 {
        return None;
    }
    match store.save_together(alloc, &files) {
        Ok(results) => Some(results),
        Err(_) => None,
    }
}

/// Returns the files of entries that have changed, in their order.
fn changed_files<'e, P: Drop>(
    alloc: Global,
    entries: &'e [Entry<'_, P>],
) -> Result<Vec<&'e ChangedFile<P>>, AllocError>
    ensures { IfOk result (λ files. map (λ file. file.now) files.items ≡ files_of entries.now) }
{
    let mut files = Vec::with_capacity(alloc, entries.len())?;
    for entry in entries {
        push_changed(&mut files, entry)?;
    }
    Ok(files)
}

/// Adds the file of an entry, if it has changed.
fn push_changed<'e, P: Drop>(
    files: &mut Vec<&'e ChangedFile<P>>,
    entry: &'e Entry<'_, P>,
) -> Result<(), AllocError>
    ensures { OnOk result (map (λ file. file.now) files.new.items
        ≡ map (λ file. file.now) files.old.items ++ with_file (file_of entry.now.made) []) }
{
    match entry.changed_file() {
        Some(file) => {
            files.push(file)?;
            Ok(())
        }
        None => Ok(()),
    }
}
