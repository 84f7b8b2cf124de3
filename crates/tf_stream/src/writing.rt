//! Whole texts to writers.

ghost use Rattle.std.specs.Prelude.{◌≡◌, ◌↔◌, true, false, OnOk, IfErr, is_ok};
ghost use Rattle.tf_stream.specs.Told.{has_failed};
ghost use Rattle.tf_stream.specs.Streams.{target_of, WritesBytes, WritesPrefix};

use crate::fault::WriteFault;
use crate::told::Told;
use std::io::Write;

/// Writes all the bytes and flushes.
///
/// # Errors
///
/// A write that fails or takes nothing, with the number of bytes that were sent before it, and a
/// flush that fails, with all bytes sent. Neither is tried again.
pub fn write_and_flush<W: Write>(bytes: &[u8], writer: &mut Told<W>) -> Result<(), WriteFault>
    ensures ok { OnOk result (WritesBytes (target_of W.contents writer.old writer.new) bytes.now) }
    ensures fault { IfErr result
        (λ fault. WritesPrefix fault.sent (target_of W.contents writer.old writer.new) bytes.now) }
    ensures write { has_failed writer.old ≡ false
        → (is_ok result ≡ false ↔ has_failed writer.new ≡ true) }
    ensures failed { has_failed writer.old ≡ true → has_failed writer.new ≡ true }
{
    let mut sent = 0;
    while sent < bytes.len() {
        match writer.write(&bytes[sent..]) {
            Ok(0) => return Err(WriteFault { sent }),
            Ok(n) => sent += n,
            Err(_) => return Err(WriteFault { sent }),
        }
    }
    match writer.flush() {
        Ok(()) => Ok(()),
        Err(_) => Err(WriteFault { sent }),
    }
}
