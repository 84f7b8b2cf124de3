//! What the tests share.

ghost use Rattle.std.specs.Prelude.{◌≡◌, Ok};

mod memory;
mod streams;

use std::io::Print;
use std::process::Abort;

/// What is taken of the runtime of a test.
pub trait Host: Abort + AllocGlobal + Print {}

impl<R: Abort + AllocGlobal + Print> Host for R {}

/// The value of a call that is to succeed.
pub fn given<T, E: Drop>(rt: &impl Host, answer: Result<T, E>) -> T
    ensures { answer ≡ Ok result }
{
    answer.ok().expect(rt, "a call failed")
}
