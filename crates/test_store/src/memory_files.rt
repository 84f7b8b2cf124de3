//! Files in memory: it is known where each name leads and what each file holds.

ghost use Rattle.std.specs.Prelude.{◌≡◌, Some, IfOk, IfErr, length};
ghost use Rattle.tf_files.specs.Stores.{HasContentsAt, MayFailAt, contents_read};
ghost use Rattle.test_store.specs.Memory.{files_in, number_of, spot_of};

use std::alloc::{AllocError, Global};
use tf_files::{ChangedFile, ReadFile, Store, Trouble};
use tf_session::{RunFault, SessionPart};

/// A name, and the number of the file that it leads to.
#[derive(Drop)]
pub struct Name {
    pub name: String,
    pub file: usize,
}

/// Files, the names that lead to them, and the number of one that can't be saved.
#[derive(Drop)]
pub struct MemoryFiles {
    pub files: Vec<ReadFile>,
    pub names: Vec<Name>,
    pub refused: usize,
}

impl MemoryFiles {
    /// Returns the number of the file that a name leads to; one that no file has, if it leads to
    /// none.
    fn number_of(&self, name: &str) -> usize
        ensures { result ≡ number_of self.now.names.items (length self.now.files.items) name.now }
    {
        for entry in &self.names {
            if entry.name.as_str() == name {
                return entry.file;
            }
        }
        self.files.len()
    }

    /// Returns a copy of the file of this number.
    ///
    /// # Errors
    ///
    /// `Read` if there is none; `Memory`.
    fn copy_of(&self, alloc: Global, number: usize) -> Result<ReadFile, Trouble>
        ensures contents { IfOk result (λ read. HasContentsAt (Some (files_in self.now))
            (spot_of number) (contents_read read)) }
        ensures fault { IfErr result
            (λ trouble. MayFailAt (Some (files_in self.now)) (spot_of number) trouble.fault) }
    {
        match self.files.get(number) {
            Some(file) => Ok(ReadFile {
                text: Vec::from_slice(alloc, &file.text)?,
                journal: Vec::from_slice(alloc, &file.journal)?,
            }),
            None => Err(Trouble::from(RunFault::Read)),
        }
    }
}

impl Store for MemoryFiles {
    type Place = usize;

    ghost known = { λ memory. Some (files_in memory) };

    ghost spot = { spot_of };

    fn find(&self, _: Global, name: &str) -> Result<usize, Trouble> {
        Ok(self.number_of(name))
    }

    fn read(&mut self, alloc: Global, place: &mut usize) -> Result<ReadFile, Trouble> {
        self.copy_of(alloc, *place)
    }

    fn read_only(&self, alloc: Global, name: &str) -> Result<ReadFile, Trouble> {
        self.copy_of(alloc, self.number_of(name))
    }

    fn read_text(&self, alloc: Global, name: &str) -> Result<Vec<u8>, Trouble> {
        Ok(self.copy_of(alloc, self.number_of(name))?.text)
    }

    fn can_wait(&self, _: &usize) -> bool {
        true
    }

    fn may_share(&self, waiting: &usize, other: &usize) -> bool {
        *waiting == *other
    }

    fn save(&mut self, alloc: Global, file: &ChangedFile<usize>) -> Result<(), Trouble> {
        let number = file.place;
        if number == self.refused {
            return Err(Trouble::from(RunFault::Write {
                part: SessionPart::Text,
                sent: 0,
            }));
        }
        let saved = ReadFile {
            text: Vec::from_slice(alloc, &file.text)?,
            journal: Vec::from_slice(alloc, &file.journal)?,
        };
        match self.files.get_mut(number) {
            Some(old) => {
                *old = saved;
                Ok(())
            }
            None => Err(Trouble::from(RunFault::Read)),
        }
    }

    fn save_together(
        &mut self,
        alloc: Global,
        files: &[&ChangedFile<usize>],
    ) -> Result<Vec<Result<(), Trouble>>, AllocError> {
        let mut results = Vec::with_capacity(alloc, files.len())?;
        for file in files {
            results.push(self.save(alloc, file))?;
        }
        Ok(results)
    }
}
