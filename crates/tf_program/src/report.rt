//! What is said of a file, once it is saved.

ghost use Rattle.std.specs.Prelude.{◌<◌, Option, Err};
ghost use Rattle.tf_files.specs.Stores.{Files, Spot};
ghost use Rattle.tf_program.specs.Inner.Entries.{IsEntryIn, KeepsBatch, WasSaved, file_of, progress};
ghost use Rattle.tf_program.specs.Printing.{console_of};
ghost use Rattle.tf_program.specs.Tasks.{DoesFile, IsMet};

use crate::batch::Batch;
use crate::entry::Entry;
use crate::file_error::FileError;
use crate::streams::Streams;
use std::io::{Read, Write};
use tf_cli::FileOutcome;
use tf_files::Trouble;

impl<'a, P: Drop> Batch<'a, P> {
    /// Reports an entry, which was saved with this result.
    pub fn report<I: Read, O: Write, F: Write>(
        &mut self,
        entry: &Entry<'_, P>,
        saved: Result<(), Trouble>,
        streams: &mut Streams<I, O, F>,
    )
        requires { 0 < self.old.outcome.left }
        ensures same { KeepsBatch 1 self.old self.new }
        ensures does { (spot : P → Spot) (old new : Option Files)
            → IsEntryIn spot self.old.action self.old.locate old entry.now
            → WasSaved spot (file_of entry.now.made) saved old new
            → DoesFile self.old.action self.old.locate entry.now.name.now
            (progress self.old (console_of I.remaining O.contents F.contents streams.old) old)
            (progress self.new (console_of I.remaining O.contents F.contents streams.new) new) }
    {
        match &entry.made {
            Ok(made) => {
                let met = made.print(saved, self.locate, &mut streams.output);
                self.note(entry.name, met, streams);
            }
            Err(error) => self.note_error(entry.name, error, streams),
        }
    }

    /// Notes the outcome of the work on a file. An error is reported, and does not stop the next
    /// file.
    pub fn note<I: Read, O: Write, F: Write>(
        &mut self,
        name: &str,
        met: Result<FileOutcome, FileError>,
        streams: &mut Streams<I, O, F>,
    )
        requires { 0 < self.old.outcome.left }
        ensures same { KeepsBatch 1 self.old self.new }
        ensures noted { (files : Option Files) → IsMet name.now self.old.locate met
            (progress self.old (console_of I.remaining O.contents F.contents streams.old) files)
            (progress self.new (console_of I.remaining O.contents F.contents streams.new) files) }
    {
        match met {
            Ok(file_outcome) => self.outcome = self.outcome.with_file(file_outcome),
            Err(error) => self.note_error(name, &error, streams),
        }
    }

    /// Notes and reports an error of a file.
    fn note_error<I: Read, O: Write, F: Write>(
        &mut self,
        name: &str,
        error: &FileError,
        streams: &mut Streams<I, O, F>,
    )
        requires { 0 < self.old.outcome.left }
        ensures same { KeepsBatch 1 self.old self.new }
        ensures noted { (files : Option Files) → IsMet name.now self.old.locate (Err error.now)
            (progress self.old (console_of I.remaining O.contents F.contents streams.old) files)
            (progress self.new (console_of I.remaining O.contents F.contents streams.new) files) }
    {
        self.outcome = self.outcome.with_fault();
        error.report(self.alloc, name, self.locate, &mut streams.errors);
    }
}
