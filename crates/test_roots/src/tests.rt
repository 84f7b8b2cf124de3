//! What the tests share.

ghost use Rattle.std.specs.Prelude.{◌≡◌, Ok};

mod edits;
mod sessions;
mod streams;
mod texts;

use std::process::Abort;

/// What the helpers take of the runtime of a test.
pub trait Host: Abort + AllocGlobal {}

impl<R: Abort + AllocGlobal> Host for R {}

/// Two attributes that are not formatted.
pub const UNFORMATTED: &[u8] = b"a=1\nbcd=2\n";

/// Their layout.
pub const FORMATTED: &[u8] = b"a   = 1\nbcd = 2\n";

/// A line with two issues.
pub const ISSUES: &[u8] = b"x = \"${var.a}\"  // c\n";

/// That line without them.
pub const FIXED: &[u8] = b"x = var.a  # c\n";

/// Returns the value of a call that has to succeed.
pub fn given<T, E: Drop>(rt: &impl Host, answer: Result<T, E>) -> T
    ensures { answer ≡ Ok result }
{
    answer.ok().expect(rt, "a call failed")
}

/// Returns a list of these bytes.
pub fn bytes_of(rt: &impl Host, bytes: &[u8]) -> Vec<u8> {
    given(rt, Vec::from_slice(rt.alloc(), bytes))
}
