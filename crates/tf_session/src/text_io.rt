//! Whole texts from readers and to writers.

ghost use Rattle.std.specs.Prelude.{◌≡◌, ◌↔◌, true, false, OnOk, IfOk, IfErr, IsErrOf, is_ok};
ghost use Rattle.tf_stream.specs.Told.{has_failed};
ghost use Rattle.tf_stream.specs.Streams.{source_of, target_of, WritesBytes};
ghost use Rattle.tf_session.specs.Streams.{ReadsText, IsReadStreamFault, IsWriteFault};

use crate::fault::{RunFault, SessionPart};
use hcl_scan::MAX_TEXT;
use std::alloc::Global;
use std::io::{Read, Write};
use tf_stream::{Told, read_to_limit, write_and_flush};

/// Reads all the bytes that the reader has left, up to its end. At most `MAX_TEXT` bytes and one
/// more are read.
///
/// # Errors
///
/// `Endless` if there is such a byte; `Read` if a read fails, whatever its error, and it is not
/// tried again; `Memory`.
pub fn take_text<R: Read>(alloc: Global, reader: &mut Told<R>) -> Result<Vec<u8>, RunFault>
    ensures text { IfOk result
        (λ text. ReadsText (source_of R.remaining reader.old reader.new) text.items) }
    ensures fault { IfErr result
        (λ fault. IsReadStreamFault fault (source_of R.remaining reader.old reader.new)) }
    ensures read { has_failed reader.old ≡ false
        → (IsErrOf result RunFault.Read ↔ has_failed reader.new ≡ true) }
    ensures failed { has_failed reader.old ≡ true → has_failed reader.new ≡ true }
{
    match read_to_limit(alloc, MAX_TEXT, reader) {
        Ok(text) => Ok(text),
        Err(fault) => Err(RunFault::from(fault)),
    }
}

/// Writes all the bytes of a text and flushes.
///
/// # Errors
///
/// `Write` of the text: with the number of bytes that were sent before a write that fails or takes
/// nothing, which is not tried again; with all bytes sent if the flush fails.
pub fn put_text<W: Write>(bytes: &[u8], writer: &mut Told<W>) -> Result<(), RunFault>
    ensures text { OnOk result (WritesBytes (target_of W.contents writer.old writer.new) bytes.now) }
    ensures fault { IfErr result
        (λ fault. IsWriteFault SessionPart.Text fault
        (target_of W.contents writer.old writer.new) bytes.now) }
    ensures write { has_failed writer.old ≡ false
        → (is_ok result ≡ false ↔ has_failed writer.new ≡ true) }
    ensures failed { has_failed writer.old ≡ true → has_failed writer.new ≡ true }
{
    write_part(SessionPart::Text, bytes, writer)
}

/// Writes all the bytes of a journal's text and flushes.
///
/// # Errors
///
/// `Write` of the journal, as [`put_text`] has it of the text.
pub fn put_journal<W: Write>(bytes: &[u8], writer: &mut Told<W>) -> Result<(), RunFault>
    ensures text { OnOk result (WritesBytes (target_of W.contents writer.old writer.new) bytes.now) }
    ensures fault { IfErr result
        (λ fault. IsWriteFault SessionPart.Journal fault
        (target_of W.contents writer.old writer.new) bytes.now) }
    ensures write { has_failed writer.old ≡ false
        → (is_ok result ≡ false ↔ has_failed writer.new ≡ true) }
    ensures failed { has_failed writer.old ≡ true → has_failed writer.new ≡ true }
{
    write_part(SessionPart::Journal, bytes, writer)
}

/// Writes all bytes of a part and flushes. An error is `Write` of that part.
fn write_part<W: Write>(
    part: SessionPart,
    bytes: &[u8],
    writer: &mut Told<W>,
) -> Result<(), RunFault>
    ensures text { OnOk result (WritesBytes (target_of W.contents writer.old writer.new) bytes.now) }
    ensures fault { IfErr result
        (λ fault. IsWriteFault part fault (target_of W.contents writer.old writer.new) bytes.now) }
    ensures write { has_failed writer.old ≡ false
        → (is_ok result ≡ false ↔ has_failed writer.new ≡ true) }
    ensures failed { has_failed writer.old ≡ true → has_failed writer.new ≡ true }
{
    match write_and_flush(bytes, writer) {
        Ok(()) => Ok(()),
        Err(fault) => Err(RunFault::Write {
            part,
            sent: fault.sent,
        }),
    }
}
