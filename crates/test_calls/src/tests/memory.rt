//! Each call of the libraries once, for runs in which allocations are made to fail from outside.
//!
//! A test has the name of its call. It makes the input, writes a line, makes the call and looks at
//! the answer. It passes with the right answer. If the call ran out of memory and left all that was
//! lent as it was, the test stops with the message `memory`; in every other case with another one.
//! Nothing is written before the input is made and nothing is allocated after the call, so all
//! requests to the allocator after the first line are the call's. A call whose name begins with
//! `no_memory_` takes none.

mod edits;
mod equality;
mod explanations;
mod fixtures;
mod journals;
mod no_allocation;
mod one_text;
mod sessions;
mod stream_calls;

use crate::tests::{Host, given};

/// The input is made, and the call is next.
pub fn begin(rt: &impl Host) {
    given(rt, println!(rt; "called"));
}

/// The value that a call gave. If the call ran out of memory, the test stops here.
pub fn answered<T, E: PartialEq + Drop>(
    rt: &impl Host,
    answer: Result<T, E>,
    memory: E,
    is_as_before: bool,
) -> T {
    match answer {
        Ok(value) => value,
        Err(fault) => {
            assert!(rt; fault == memory, "another fault");
            wanted(rt, is_as_before)
        }
    }
}

/// The call gave this text, or ran out of memory and had changed nothing.
pub fn gave<E: PartialEq + Drop>(
    rt: &impl Host,
    answer: Result<Vec<u8>, E>,
    memory: E,
    right: &[u8],
) {
    let text = answered(rt, answer, memory, true);
    assert!(rt; text.as_slice() == right, "another text");
}

/// The call ran out of memory: the test stops, and says so if all that was lent is as it was.
pub fn wanted(rt: &impl Host, is_as_before: bool) -> ! {
    assert!(rt; is_as_before, "what was lent is changed");
    panic!(rt; "memory")
}
