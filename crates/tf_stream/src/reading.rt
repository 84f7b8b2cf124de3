//! Whole texts from readers.

ghost use Rattle.std.specs.Prelude.{◌≡◌, ◌↔◌, ◌^◌, ◌<◌, true, false, IfOk, IfErr, IsErrOf};
ghost use Rattle.tf_stream.specs.Told.{has_failed};
ghost use Rattle.tf_stream.specs.Streams.{source_of, ReadsAll, ReadAtFault};

use crate::fault::ReadFault;
use crate::told::Told;
use std::alloc::Global;
use std::io::Read;

/// The most bytes that one read may give. The buffer is set to zero for each reader, so that a
/// large one costs small files more than the reads that it spares large ones.
const CHUNK_LEN: usize = 16_384;

/// Reads all the bytes that the reader has left, up to its end, if they are no more than the limit.
/// At most one byte over the limit is read.
///
/// # Errors
///
/// `Endless` if there is a byte over the limit; `Read` if a read fails, whatever its error, and it
/// is not tried again; `Memory` if an allocation fails.
pub fn read_to_limit<R: Read>(
    alloc: Global,
    limit: usize,
    reader: &mut Told<R>,
) -> Result<Vec<u8>, ReadFault>
    requires { limit < 2 ^ 40 }
    ensures reads_all { IfOk result
        (λ text. ReadsAll limit (source_of R.remaining reader.old reader.new) text.items) }
    ensures fault { IfErr result
        (λ fault. ReadAtFault limit fault (source_of R.remaining reader.old reader.new)) }
    ensures read { has_failed reader.old ≡ false
        → (IsErrOf result ReadFault.Read ↔ has_failed reader.new ≡ true) }
    ensures failed { has_failed reader.old ≡ true → has_failed reader.new ≡ true }
{
    let mut text = Vec::new(alloc);
    let mut chunk = [0u8; CHUNK_LEN];
    // for the proof: the label names the loop's invariant
    'chunks: loop {
        let allowed = limit - text.len();
        match reader.read(&mut chunk[..CHUNK_LEN.min(allowed + 1)]) {
            Ok(0) => return Ok(text),
            Ok(n) => {
                if n > allowed {
                    return Err(ReadFault::Endless);
                }
                if text.extend_from_slice(&chunk[..n]).is_err() {
                    return Err(ReadFault::Memory);
                }
            }
            Err(_) => return Err(ReadFault::Read),
        }
    }
}
