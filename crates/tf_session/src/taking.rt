//! A take: a text and its records without one of the records.

ghost use Rattle.std.specs.Prelude.{◌≡◌, ◌≤◌, ◌<◌, ◌+◌, ◌^◌, ◌++◌, List, ℕ, length, take, IfOk, IfErr};
ghost use Rattle.edit_record.specs.Lists.ChangeResults.{IsChangeCallResult};
ghost use Rattle.edit_record.specs.Lists.Pieces.{Transforms};
ghost use Rattle.edit_record.specs.declared.lists.direction.Direction.TheVariants.{Backward};
ghost use Rattle.edit_record.specs.Swaps.MoveToEndResult.{moved_or};
ghost use Rattle.tf_lint.specs.Steps.{texts_differ};
ghost use Rattle.tf_session.specs.Machine.{done};
ghost use Rattle.tf_session.specs.RemovingRecord.{RemovesRecord, RefusesTake};
ghost use Rattle.tf_session.specs.Session.{with_records};

use crate::command::{Fault, fault_of_move};
use edit_record::laws::undo_is_exact;
use edit_record::lists::{Change as _, Edits, Record, Refused};
use edit_record::swaps::move_to_end;
use std::alloc::Global;

/// The text without a record, and the records that replace those from number `from` on, counted
/// from 0.
#[derive(Drop)]
pub struct TakeResult {
    pub text: Vec<u8>,
    pub from: usize,
    pub new_records: Vec<Record>,
}

/// Returns the text and its records without the record of this number, the oldest being 1.
///
/// # Errors
///
/// `NoRecord` if there is none of this number; `Blocked` by the first later record that has an edit
/// which meets one of it; `TooLong` if a text between would have more than `MAX_TEXT` bytes;
/// `Refused` if two records do not follow each other, or the text does not have what the record
/// added; `Memory`.
pub fn without_record(
    alloc: Global,
    text: &[u8],
    records: &[Record],
    number: usize,
) -> Result<TakeResult, Fault>
    ensures rewrites { IfOk result
        (λ left. RemovesRecord number (with_records text.now records.now)
        (done (texts_differ left.text.items text.now) 0 0)
        (with_records left.text.items (take left.from records.now ++ left.new_records.items))) }
    ensures no_longer { IfOk result (λ left. left.from + length left.new_records.items ≤ length records.now) }
    ensures refused { IfErr result
        (λ fault. RefusesTake number (with_records text.now records.now) fault) }
{
    if number == 0 || number > records.len() {
        return Err(Fault::NoRecord);
    }
    without_existing_record(alloc, text, records, number)
}

/// Returns the text and its records without the record of this number, which there is.
fn without_existing_record(
    alloc: Global,
    text: &[u8],
    records: &[Record],
    number: usize,
) -> Result<TakeResult, Fault>
    requires some { 1 ≤ number }
    requires there { number ≤ length records.now }
    requires small { length records.now < 2 ^ 64 }
    ensures rewrites { IfOk result
        (λ left. RemovesRecord number (with_records text.now records.now)
        (done (texts_differ left.text.items text.now) 0 0)
        (with_records left.text.items (take left.from records.now ++ left.new_records.items))) }
    ensures no_longer { IfOk result (λ left. left.from + length left.new_records.items ≤ length records.now) }
    ensures refused { IfErr result
        (λ fault. RefusesTake number (with_records text.now records.now) fault) }
{
    let record = &records[number - 1];
    match move_to_end(alloc, record.edits(), &records[number..]) {
        Ok((others, moved)) => match undo_edits(alloc, edits_at_end(record.edits(), &moved), text) {
            Ok(text) => Ok(TakeResult {
                text,
                from: number - 1,
                new_records: others,
            }),
            Err(refused) => Err(Fault::from(refused)),
        },
        Err(fault) => Err(fault_of_move(fault, number)),
    }
}

/// Returns the edits as they are after all records that follow.
fn edits_at_end<'a>(first: &'a Edits, moved: &'a Option<Edits>) -> &'a Edits
    ensures { result.now ≡ moved_or first.now moved.now }
{
    match moved {
        Some(edits) => edits,
        None => first,
    }
}

/// Returns the text before the edits.
fn undo_edits(alloc: Global, edits: &Edits, text: &[u8]) -> Result<Vec<u8>, Refused>
    ensures pieces { IsChangeCallResult Backward edits.now text.now result }
    ensures only { IfOk result (λ old. (v : List ℕ) → Transforms edits.now v text.now → v ≡ old.items) }
{
    undo_is_exact(edits);
    edits.undo(alloc, text)
}
