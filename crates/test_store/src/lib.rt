//! Files in memory as a store of which all is known, and tests of the program over it.
#![tactic(auto)]

mod memory_files;

pub use memory_files::MemoryFiles;

#[cfg(test)]
mod tests;
