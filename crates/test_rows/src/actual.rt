//! What is answered to a row.

use crate::row::Row;
use std::alloc::Global;
use std::fmt::{self, Display, Write};
use std::str::from_utf8;

/// Text that is appended to, and whether it can be the answer to a row. No call here returns an
/// error: a failed allocation, or a check that does not hold, makes it a wrong answer, which is
/// printed with all others.
#[derive(Drop)]
pub struct Answer {
    pub alloc: Global,
    text: Vec<u8>,
    is_right: bool,
}

impl Answer {
    pub fn new(alloc: Global) -> Answer {
        Answer {
            alloc,
            text: Vec::new(alloc),
            is_right: true,
        }
    }

    pub fn text(&self) -> &[u8] {
        self.text.as_slice()
    }

    /// Whether this is what the row wants.
    pub fn is_of(&self, row: &Row) -> bool {
        self.is_right && row.says(self.text())
    }

    pub fn as_text(&self) -> &str {
        from_utf8(self.text()).unwrap_or("bytes that are not UTF-8")
    }

    pub fn put(&mut self, text: &str) {
        self.put_bytes(text.as_bytes());
    }

    pub fn put_bytes(&mut self, bytes: &[u8]) {
        let is_put = self.text.extend_from_slice(bytes).is_ok();
        self.is_right = self.is_right && is_put;
    }

    pub fn show<T: Display>(&mut self, value: &T) {
        let _ = write!(self, "{value}");
    }

    pub fn refuse<T: Display>(&mut self, fault: &T) {
        self.put("refused: ");
        self.show(fault);
    }

    /// Where this does not hold, nothing is right.
    pub fn hold(&mut self, holds: bool, what: &str) {
        if !holds {
            self.put(what);
            self.is_right = false;
        }
    }
}

impl Write for Answer {
    fn write_str(&mut self, text: &str) -> fmt::Result {
        self.put(text);
        Ok(())
    }
}
