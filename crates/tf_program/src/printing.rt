//! Prints bytes.

ghost use Rattle.std.specs.Prelude.{OnOk, IfErr};
ghost use Rattle.tf_program.specs.Printing.{channel_of, PrintsAll, FailsToPrint};

use std::io::Write;
use tf_session::{RunFault, Told, put_text};

/// Prints all of these bytes, and makes no call where there are none.
///
/// # Errors
///
/// `Write`, with the number of bytes that were sent before the call that failed.
pub fn print<W: Write>(bytes: &[u8], stream: &mut Told<W>) -> Result<(), RunFault>
    ensures done { OnOk result (PrintsAll bytes.now (channel_of W.contents stream.old)
        (channel_of W.contents stream.new)) }
    ensures fault { IfErr result (λ fault. FailsToPrint bytes.now fault
        (channel_of W.contents stream.old) (channel_of W.contents stream.new)) }
{
    if bytes.is_empty() {
        return Ok(());
    }
    put_text(bytes, stream)
}
