//! Reading a journal.
ghost use Rattle.std.specs.Prelude.{IfErr};
ghost use Rattle.edit_record.specs.Decoding.{RecordError, IsDecodeResult};
ghost use Rattle.edit_record.specs.Inner.ParseResults.{IsRead, ParsesAs, HasError, RecordAt, IsReadResult};
ghost use Rattle.edit_record.specs.Inner.Allocating.{record_allocates, allocates};
ghost use Rattle.edit_record.specs.Parsing.{record_at};

use crate::RecordFault;
use crate::fault::{DecodeStop, FaultKind};
use crate::lists::{Journal, Record};
use crate::readers::{expect, list_of_edits, word};
use crate::version_1::{is_version_1, old_record};
use std::alloc::Global;

/// Reads a record of version 2.
#[tactic(auto, unfolding(crate::specs::Parsing::record_at, crate::specs::Inner::Allocating::record_allocates))]
fn record(alloc: Global, text: &[u8]) -> Result<(Record, &[u8]), DecodeStop>
    ensures { IsRead (λ x. (x.0, x.1.now)) (record_allocates text.now) result (record_at text.now) }
{
    let rest = expect(b"tfrec 2 ", FaultKind::Head, text)?;
    let (word, rest) = word(rest)?;
    let (edits, rest) = list_of_edits(alloc, text.len(), rest)?;
    let rest = expect(b"end\n", FaultKind::End, rest)?;
    Ok((Record::make(word, edits), rest))
}

/// Reads a record of version 1, if `old`, or of version 2.
fn record_of_version(alloc: Global, old: bool, text: &[u8]) -> Result<(Record, &[u8]), DecodeStop>
    ensures parses { ParsesAs (λ x. x.0) (λ x. x.1.now) (allocates old text.now) result
        (RecordAt old text.now) }
    ensures error { IfErr result (λ stop. HasError stop (RecordError old text.now)) }
{
    if old {
        old_record(alloc, text)
    } else {
        record(alloc, text)
    }
}

/// Reads all records. The mark of the first one decides the version.
fn records(alloc: Global, text: &[u8]) -> Result<Journal, DecodeStop>
    ensures { IsReadResult text.now result }
{
    let old = is_version_1(text);
    let mut journal = Journal::empty(alloc);
    let mut rest = text;
    while !rest.is_empty() {
        let (record, after) = record_of_version(alloc, old, rest)?;
        journal.push(record)?;
        rest = after;
    }
    Ok(journal)
}

/// Returns the journal whose text this is.
///
/// A text is all of version 2, which [`encode`](crate::encode) writes, or all of version 1, in
/// which a record has steps; these are squashed into one list of edits. The first record decides
/// the version. Each journal has one text in version 2.
///
/// It is one pass over the text. Nothing is allocated before the first edit is read. At the first
/// edit of a list memory is reserved for as many as its head says, but for 1,024 at most, and for
/// no more than the rest of the text can have.
///
/// # Errors
///
/// Any other text is refused with its first error from left to right.
pub fn decode(alloc: Global, text: &[u8]) -> Result<Journal, RecordFault>
    ensures { IsDecodeResult text.now result }
{
    match records(alloc, text) {
        Ok(journal) => Ok(journal),
        Err(stop) => Err(stop.into_fault(text.len())),
    }
}

/// Returns the journal whose text this is, as [`decode`] does, and keeps the text, so that it can
/// be copied where its records are written again. A text of version 1 is not kept, nor one whose
/// memory is more than four times its length.
///
/// # Errors
///
/// As for [`decode`].
pub fn decode_owned(alloc: Global, text: Vec<u8>) -> Result<Journal, RecordFault>
    ensures { IsDecodeResult text.items result }
{
    let mut journal = decode(alloc, text.as_slice())?;
    if !is_version_1(&text) {
        journal.keep_text(text);
    }
    Ok(journal)
}
