//! What is not as it is to be.

use anyhow::Result;
use std::alloc::Global;

/// Prints how many there are: exactly, if there are fewer than there are to be.
pub fn print_least(rt: &HostRuntime, count: usize, least: usize, what: &str) -> Result<()> {
    if count < least {
        println!(rt; "only {count} {what}")?;
    } else {
        println!(rt; "at least {least} {what}")?;
    }
    Ok(())
}

/// The first thing that does not hold, if there is one.
#[derive(Drop)]
pub struct Report {
    pub alloc: Global,
    wrong: Option<&'static str>,
}

impl Report {
    pub fn new(alloc: Global) -> Report {
        Report { alloc, wrong: None }
    }

    pub fn wrong(&self) -> Option<&'static str> {
        self.wrong
    }

    /// Notes what does not hold.
    pub fn hold(&mut self, holds: bool, what: &'static str) {
        if !holds && self.wrong.is_none() {
            self.wrong = Some(what);
        }
    }

    /// The bytes that a call gives; none where it is refused, which is noted.
    pub fn bytes<E: Drop>(&mut self, answer: Result<Vec<u8>, E>) -> Vec<u8> {
        match answer {
            Ok(bytes) => bytes,
            Err(_) => {
                self.hold(false, "memory is wanting");
                Vec::new(self.alloc)
            }
        }
    }

    pub fn copy(&mut self, bytes: &[u8]) -> Vec<u8> {
        self.bytes(Vec::from_slice(self.alloc, bytes))
    }
}
