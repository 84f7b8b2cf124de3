//! Saves files that were changed in memory, alone or many at once.

ghost use Rattle.std.specs.Prelude.{◌≡◌, true, None, map, IfOk, IfErr, IsOk, IsErrAnd};
ghost use Rattle.tf_session.specs.declared.fault.RunFault.{RunFault};
ghost use Rattle.tf_files.specs.Opening.{is_file_fault};
ghost use Rattle.tf_files.specs.Stores.{SavesEach};

use crate::cause::Trouble;
use crate::disk::DiskFile;
use crate::folder::SystemFiles;
use crate::overwrite_files::overwrite;
use crate::saves::{Attempt, NewContents, Save, save_in_rows};
use crate::store::ChangedFile;
use std::alloc::{AllocError, Global};

/// Saves text and journal: new files replace the old ones or, where none can, the old ones are
/// written in place. After an error they are as they were.
///
/// # Errors
///
/// `Write` with the part and the number of its bytes that were written, 0 where another program has
/// changed a file meanwhile; `Read` where it is not known what the next recovery will find.
pub fn save<R: SystemFiles>(
    rt: &R,
    alloc: Global,
    file: &ChangedFile<DiskFile>,
) -> Result<(), Trouble>
    ensures { IfErr result (λ trouble. is_file_fault trouble.fault ≡ true) }
{
    let mut save = new_save(file, false);
    match save.result(rt, alloc) {
        Ok(true) => Ok(()),
        Ok(false) => save_in_place(rt, alloc, file),
        Err(fault) => Err(Trouble {
            fault,
            cause: save.cause(),
        }),
    }
}

/// Saves files that have nothing in common, with few waits for the disk. Returns the result of each,
/// in their order.
///
/// # Errors
///
/// Where there is no memory for that nothing is done.
pub fn save_together<R: SystemFiles>(
    rt: &R,
    alloc: Global,
    files: &[&ChangedFile<DiskFile>],
) -> Result<Vec<Result<(), Trouble>>, AllocError>
    ensures { IfOk result (λ results. SavesEach (λ _. record { text = 0; journal = 0 })
        (map (λ file. file.now) files.now) results.items None None) }
{
    let mut results = Vec::with_capacity(alloc, files.len())?;
    let mut attempts = attempt_all(rt, alloc, files)?.into_iter();
    for file in files {
        let attempt = attempts.next().unwrap_or(Attempt::Refused);
        // there is capacity for it
        results.push(complete(rt, alloc, file, attempt))?;
    }
    Ok(results)
}

/// Attempts to save files in company, and returns how far each has come, in their order. What an
/// attempt has opened is closed at the end.
///
/// # Errors
///
/// Where there is no memory for that nothing is done.
fn attempt_all<R: SystemFiles>(
    rt: &R,
    alloc: Global,
    files: &[&ChangedFile<DiskFile>],
) -> Result<Vec<Attempt>, AllocError> {
    let mut saves = new_saves(alloc, files)?;
    let mut attempts = Vec::with_capacity(alloc, files.len())?;
    for _ in files {
        attempts.push(Attempt::Refused)?;
    }
    save_in_rows(rt, alloc, &mut saves);
    for (save, attempt) in saves.iter_mut().zip(attempts.iter_mut()) {
        *attempt = save.attempt(rt, alloc);
    }
    Ok(attempts)
}

/// Returns the saves of files, in their order, each of one file's text and journal under its names.
fn new_saves<'a>(
    alloc: Global,
    files: &[&'a ChangedFile<DiskFile>],
) -> Result<Vec<Save<'a>>, AllocError>
    ensures texts { IfOk result (λ saves. map (λ save. save.text.bytes.now) saves.items
        ≡ map (λ file. file.now.text.items) files.now) }
    ensures journals { IfOk result (λ saves. map (λ save. save.journal.bytes.now) saves.items
        ≡ map (λ file. file.now.journal.items) files.now) }
    ensures paths { IfOk result (λ saves. map (λ save. save.text.paths.now) saves.items
        ≡ map (λ file. file.now.place.paths) files.now) }
{
    let mut saves = Vec::with_capacity(alloc, files.len())?;
    for file in files {
        saves.push(new_save(file, true))?;
    }
    Ok(saves)
}

/// Returns the save of a file's text and journal under its names, before its first call.
fn new_save(file: &ChangedFile<DiskFile>, is_in_company: bool) -> Save<'_>
    ensures text { result.text.bytes.now ≡ file.now.text.items }
    ensures text_paths { result.text.paths.now ≡ file.now.place.paths }
    ensures text_read { result.text.read ≡ file.now.place.read }
    ensures journal { result.journal.bytes.now ≡ file.now.journal.items }
    ensures journal_paths { result.journal.paths.now ≡ file.now.place.paths }
    ensures journal_read { result.journal.read ≡ file.now.place.read }
{
    Save::new(
        &file.place.paths,
        contents(file),
        file.place.read,
        is_in_company,
    )
}

/// Does what an attempt to save a file in company has left to be done. A file that was refused is
/// saved alone: there is more space then, and more files may be opened. It is not recovered first: a
/// new journal that is there now is another command's, on its way.
///
/// # Errors
///
/// As those of [`save`].
fn complete<R: SystemFiles>(
    rt: &R,
    alloc: Global,
    file: &ChangedFile<DiskFile>,
    attempt: Attempt,
) -> Result<(), Trouble>
    ensures replaced { attempt ≡ Attempt.Replaced → IsOk result }
    ensures failed { (fault : RunFault) → attempt ≡ Attempt.Fault fault
        → IsErrAnd result (λ trouble. is_file_fault fault ≡ true → trouble.fault ≡ fault) }
    ensures fault { IfErr result (λ trouble. is_file_fault trouble.fault ≡ true) }
{
    match attempt {
        Attempt::Replaced => Ok(()),
        Attempt::InPlace => save_in_place(rt, alloc, file),
        Attempt::Refused => save(rt, alloc, file),
        Attempt::Fault(fault) => Err(Trouble::from(fault).of_files()),
    }
}

/// Writes text and journal in place, over the old ones.
///
/// # Errors
///
/// Those of [`overwrite`].
fn save_in_place<R: SystemFiles>(
    rt: &R,
    alloc: Global,
    file: &ChangedFile<DiskFile>,
) -> Result<(), Trouble>
    ensures { IfErr result (λ trouble. is_file_fault trouble.fault ≡ true) }
{
    match overwrite(
        rt,
        alloc,
        &file.place.paths,
        contents(file),
        file.place.read,
    ) {
        Ok(()) => Ok(()),
        Err(trouble) => Err(trouble.of_files()),
    }
}

/// Returns the bytes that the file and its journal are to have.
fn contents(file: &ChangedFile<DiskFile>) -> NewContents<'_>
    ensures text { result.text.now ≡ file.now.text.items }
    ensures journal { result.journal.now ≡ file.now.journal.items }
{
    NewContents {
        journal: &file.journal,
        text: &file.text,
    }
}
