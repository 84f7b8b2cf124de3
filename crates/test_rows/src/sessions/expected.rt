//! The outcome of a row, the bytes of a field, and the reply to a command.

use crate::row::Row;
use std::alloc::Global;
use tf_session::{Done, RunFault};

/// The outcome of a row.
#[derive(Drop)]
pub struct Outcome {
    pub reply: String,
    pub text: Vec<u8>,
    pub journal: Vec<u8>,
}

impl Outcome {
    /// Whether it is what these fields say, as far as there are any.
    pub fn is(&self, reading: &mut Reading, want: &str) -> bool {
        let outcome = [
            self.reply.as_bytes(),
            self.text.as_slice(),
            self.journal.as_slice(),
        ];
        let mut is = true;
        for (field, bytes) in want.split(" | ").zip(outcome) {
            is = is && reading.decoded(field).as_slice() == bytes;
        }
        is
    }
}

/// How the parts of rows are read. One that can't be read, or whose allocation fails, is lost:
/// another value replaces it, and the rows continue.
#[derive(Drop)]
pub struct Reading {
    pub alloc: Global,
    pub is_lost: bool,
}

impl Reading {
    /// The value, or `other` in its place.
    pub fn kept<T: Drop, E: Drop>(&mut self, made: Result<T, E>, other: T) -> T {
        match made {
            Ok(value) => value,
            Err(_) => {
                self.is_lost = true;
                other
            }
        }
    }

    pub fn number(&mut self, word: Option<&str>) -> usize {
        let number = word.unwrap_or("").parse::<usize>();
        self.kept(number, 0)
    }

    pub fn copied(&mut self, bytes: &[u8]) -> Vec<u8> {
        let copy = Vec::from_slice(self.alloc, bytes);
        self.kept(copy, Vec::new(self.alloc))
    }

    /// The bytes of a field of a row; one of `-` has none.
    pub fn decoded(&mut self, field: &str) -> Vec<u8> {
        if field == "-" {
            return Vec::new(self.alloc);
        }
        let row = Row::read(self.alloc, field);
        self.is_lost = self.is_lost || !row.is_whole();
        self.copied(row.text(0))
    }

    pub fn said(&mut self, answer: Result<Done, RunFault>) -> String {
        match answer {
            Ok(done) => {
                let changed = if done.changed { "changed" } else { "unchanged" };
                let said = format!(in self.alloc; "{changed} {} {}", done.fixed, done.left);
                self.kept(said, String::new(self.alloc))
            }
            Err(fault) => self.message_of(fault),
        }
    }

    pub fn message_of(&mut self, fault: RunFault) -> String {
        let message = fault.to_string(self.alloc);
        self.kept(message, String::new(self.alloc))
    }
}
