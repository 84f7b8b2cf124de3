//! Writing a journal.
ghost use Rattle.std.specs.Prelude.{◌≡◌, ◌+◌, ◌-◌, ◌^◌, ◌≤◌, ◌++◌, List, length, min, OnOk, IfOk, IfErr, ◌<◌};
ghost use Rattle.std.specs.List.{flat_map};
ghost use Rattle.edit_record.specs.Text.{edit_text, list_head, record_head, record_text, journal_text};
ghost use Rattle.edit_record.specs.Text.{IsCurrentText};
ghost use Rattle.edit_record.specs.Inner.KnownText.{SplitsKnown};
ghost use Rattle.edit_record.specs.Inner.PartText.{part_text};
ghost use Rattle.edit_record.specs.Lists.Journal.{JournalEntry};
ghost use Rattle.edit_record.specs.Lists.Validity.{IsValidList};

use crate::columns::MOST_BYTES;
use crate::digits::{NINE_DIGITS, digit_count};
use crate::lists::{Edit, Journal, Record, Word};
use crate::short_texts::{push_edit, push_list_head, short_len, write_long_edit};
use itoa::Buffer;
use std::alloc::{AllocError, Global};

/// A part of a record's text. Lengths are added up part by part, and so is written what does not
/// fit into memory that is reserved.
#[derive(Clone, Copy)]
enum RecordPart<'a> {
    Bytes(&'a [u8]),
    /// A number in decimal, and the byte that ends it.
    Number(usize, u8),
}

/// Returns the head of a record.
fn mark_bytes(word: Word) -> &'static [u8; 12]
    ensures { result.now ≡ record_head word }
{
    match word {
        Word::Fmt => b"tfrec 2 fmt ",
        Word::Fix => b"tfrec 2 fix ",
    }
}

/// Returns the parts of an edit: its columns in order. Short edits have fast forms (columns.rt).
fn edit_parts(edit: &Edit) -> [RecordPart<'_>; 6]
    ensures { flat_map part_text result ≡ edit_text edit.now }
{
    let removed = edit.removed();
    let added = edit.added();
    [
        RecordPart::Number(edit.at(), b' '),
        RecordPart::Number(removed.len(), b' '),
        RecordPart::Number(added.len(), b'\n'),
        RecordPart::Bytes(removed),
        RecordPart::Bytes(added),
        RecordPart::Bytes(b"\n"),
    ]
}

/// Returns the parts of the head of a list of edits: its columns in order.
fn list_parts(old_len: usize, count: usize) -> [RecordPart<'static>; 2]
    ensures { flat_map part_text result ≡ list_head old_len count }
{
    [
        RecordPart::Number(old_len, b' '),
        RecordPart::Number(count, b'\n'),
    ]
}

/// The last part of a record.
const END: &[u8] = b"end\n";

/// Returns the length of the text of a part.
fn part_len(part: RecordPart) -> usize
    ensures { result ≡ length (part_text part.entry) }
{
    match part {
        RecordPart::Bytes(bytes) => bytes.len(),
        RecordPart::Number(number, _) => digit_count(number) + 1,
    }
}

/// Returns the length of the text of some parts, or the greatest `usize` if it is longer.
fn parts_len(parts: &[RecordPart]) -> usize
    ensures { result ≡ min (length (flat_map part_text parts.now)) (2 ^ 64 - 1) }
{
    let mut len = 0usize;
    for part in parts {
        len = len.saturating_add(part_len(*part));
    }
    len
}

/// Returns the length of the head of a record and of its list of edits.
fn heads_len(rec: &Record) -> usize
    ensures { result
        ≡ min (length (record_head rec.now.word
        ++ list_head rec.now.edits.old_len (length rec.now.edits.entries))) (2 ^ 64 - 1) }
{
    let list = rec.edits();
    let parts = list_parts(list.old_len(), list.edits().len());
    mark_bytes(rec.word())
        .len()
        .saturating_add(parts_len(&parts))
}

/// Returns the length of the text of an edit, or the greatest `usize` if it is longer.
#[inline(always)]
fn edit_len(edit: &Edit) -> usize
    ensures { result ≡ min (length (edit_text edit.now)) (2 ^ 64 - 1) }
{
    if let Some((removed, added, texts)) = edit.inline_texts() {
        return short_len(edit.at(), removed, added, texts);
    }
    parts_len(&edit_parts(edit))
}

/// Returns the length of the text of a record, or the greatest `usize` if it is longer.
fn record_len(rec: &Record) -> usize
    ensures { result ≡ min (length (record_text rec.now)) (2 ^ 64 - 1) }
{
    let mut len = heads_len(rec).saturating_add(END.len());
    for edit in rec.edits().edits() {
        len = len.saturating_add(edit_len(edit));
    }
    len
}

/// Returns the length of the text of some records, or the greatest `usize` if it is longer.
pub(crate) fn records_len(records: &[Record]) -> usize
    ensures { result ≡ min (length (journal_text records.now)) (2 ^ 64 - 1) }
{
    let mut len = 0usize;
    for rec in records {
        len = len.saturating_add(record_len(rec));
    }
    len
}

/// Returns the length of the text of a journal, or the greatest `usize` if it is longer. It
/// allocates nothing.
pub fn encoded_len(journal: &Journal) -> usize
    ensures { result ≡ min (length (journal_text journal.now)) (2 ^ 64 - 1) }
{
    let (text, others) = journal.known_text();
    text.len().saturating_add(records_len(others))
}

/// Writes parts in order.
fn write_parts(out: &mut Vec<u8>, parts: &[RecordPart]) -> Result<(), AllocError>
    ensures { OnOk result (out.new.items ≡ out.old.items ++ flat_map part_text parts.now) }
{
    for part in parts {
        write_part(out, *part)?;
    }
    Ok(())
}

/// Writes one part.
fn write_part(out: &mut Vec<u8>, part: RecordPart) -> Result<(), AllocError>
    ensures { OnOk result (out.new.items ≡ out.old.items ++ part_text part.entry) }
{
    match part {
        RecordPart::Bytes(bytes) => out.extend_from_slice(bytes),
        RecordPart::Number(number, stop) => {
            out.extend_from_slice(Buffer::new().format(number).as_bytes())?;
            out.push(stop)?;
            Ok(())
        }
    }
}

/// Writes an edit: at once if it is short and memory for it is reserved.
#[inline(always)]
fn write_edit(out: &mut Vec<u8>, edit: &Edit) -> Result<(), AllocError>
    ensures { OnOk result (out.new.items ≡ out.old.items ++ edit_text edit.now) }
{
    let at = edit.at();
    let spare = out.capacity() - out.len();
    if spare >= MOST_BYTES && at < NINE_DIGITS {
        if let Some((removed, added, texts)) = edit.inline_texts() {
            push_edit(out, at, removed, added, texts);
            return Ok(());
        }
    }
    write_any_edit(out, edit)
}

/// Writes an edit of any length: its head at once if memory for it is reserved, else all of it part
/// by part.
#[inline(never)]
fn write_any_edit(out: &mut Vec<u8>, edit: &Edit) -> Result<(), AllocError>
    ensures { OnOk result (out.new.items ≡ out.old.items ++ edit_text edit.now) }
{
    let at = edit.at();
    let removed = edit.removed();
    let added = edit.added();
    let spare = out.capacity() - out.len();
    if spare < MOST_BYTES
        || at >= NINE_DIGITS
        || removed.len() >= NINE_DIGITS
        || added.len() >= NINE_DIGITS
    {
        return write_parts(out, &edit_parts(edit));
    }
    write_long_edit(out, at, removed, added)
}

/// Writes the head of a record and of its list of edits: at once if memory for it is reserved, else
/// part by part.
fn write_heads(out: &mut Vec<u8>, rec: &Record) -> Result<(), AllocError>
    ensures { OnOk result (out.new.items
        ≡ out.old.items
        ++ (record_head rec.now.word
        ++ list_head rec.now.edits.old_len (length rec.now.edits.entries))) }
{
    let list = rec.edits();
    let old_len = list.old_len();
    let count = list.edits().len();
    out.extend_from_slice(mark_bytes(rec.word()))?;
    let spare = out.capacity() - out.len();
    if spare < MOST_BYTES || old_len >= NINE_DIGITS || count >= NINE_DIGITS {
        return write_parts(out, &list_parts(old_len, count));
    }
    push_list_head(out, old_len, count);
    Ok(())
}

/// Writes a record. It is inlined, as a part of its caller's loop.
#[inline(always)]
fn write_record(out: &mut Vec<u8>, rec: &Record) -> Result<(), AllocError>
    ensures text { OnOk result (out.new.items ≡ out.old.items ++ record_text rec.now) }
    ensures made { OnOk result (IsValidList rec.now.edits) }
{
    write_heads(out, rec)?;
    for edit in rec.edits().edits() {
        write_edit(out, edit)?;
    }
    out.extend_from_slice(END)?;
    Ok(())
}

/// Writes records after the text of those before them. It is inlined so that the list's length
/// stays in a register.
#[inline(always)]
fn write_records(out: &mut Vec<u8>, records: &[Record]) -> Result<(), AllocError>
    ensures text { OnOk result
        ((all : List JournalEntry) → SplitsKnown all out.old.items records.now
        → IsCurrentText out.new.items all) }
    ensures allocates { IfErr result (λ _. 0 < length records.now) }
{
    for rec in records {
        write_record(out, rec)?;
    }
    Ok(())
}

/// Copies a text. It takes no memory for a text without bytes.
fn copy_text(out: &mut Vec<u8>, text: &[u8]) -> Result<(), AllocError>
    ensures text { OnOk result (out.new.items ≡ out.old.items ++ text.now) }
    ensures allocates { IfErr result (λ _. 0 < length text.now) }
{
    if text.is_empty() {
        return Ok(());
    }
    out.extend_from_slice(text)
}

/// Returns the text of a journal, in version 2: its records in order, the oldest first. A record
/// is the line `tfrec 2 COMMAND LENGTH EDITS` (the command `fmt` or `fix`, the length of the texts
/// that it applies to, and how many edits follow), the edits, and the line `end`. An edit is the
/// line `PLACE REMOVED ADDED` (its place, and how many bytes it removes and adds), these bytes, and
/// a line end. Numbers are decimal without leading zeros.
///
/// The capacity is reserved once, so only that allocation can fail. The text of an empty journal
/// has no bytes. The text of records that [`decode_owned`](crate::decode_owned) read is copied.
///
/// # Errors
///
/// Returns `AllocError` if memory runs out; never for a journal without records.
pub fn encode(alloc: Global, journal: &Journal) -> Result<Vec<u8>, AllocError>
    ensures text { IfOk result (λ text. IsCurrentText text.items journal.now) }
    ensures allocates { IfErr result (λ _. 0 < length journal.now) }
{
    encode_with_len(alloc, journal, encoded_len(journal))
}

/// Returns the text of a journal as [`encode`] does, where its length is known: `len` is what
/// [`encoded_len`] returns for it.
///
/// # Errors
///
/// Returns `AllocError` if memory runs out; never for a journal without records.
pub fn encode_with_len(alloc: Global, journal: &Journal, len: usize) -> Result<Vec<u8>, AllocError>
    requires { len ≡ min (length (journal_text journal.now)) (2 ^ 64 - 1) }
    ensures text { IfOk result (λ text. IsCurrentText text.items journal.now) }
    ensures allocates { IfErr result (λ _. 0 < length journal.now) }
{
    let mut out = Vec::with_capacity(alloc, len)?;
    let (text, others) = journal.known_text();
    copy_text(&mut out, text)?;
    write_records(&mut out, others)?;
    Ok(out)
}

/// Returns the text of a journal as [`encode_with_len`] does, and consumes the journal: the text
/// that [`decode_owned`](crate::decode_owned) kept is not copied to another list, but the other
/// records are written after it. The capacity can be up to four times the length, if records were
/// removed.
///
/// # Errors
///
/// Returns `AllocError` if memory runs out; never for a journal without records.
pub fn encode_owned(journal: Journal, len: usize) -> Result<Vec<u8>, AllocError>
    requires { len ≡ min (length (journal_text journal)) (2 ^ 64 - 1) }
    ensures text { IfOk result (λ text. IsCurrentText text.items journal) }
    ensures allocates { IfErr result (λ _. 0 < length journal) }
{
    let (text, records, known) = journal.into_known_text();
    let mut out = text;
    out.reserve_exact(len.saturating_sub(out.len()))?;
    write_records(&mut out, &records[known..])?;
    Ok(out)
}
