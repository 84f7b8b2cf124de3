//! The greatest size that this program may give a file (`ulimit -f`): a longer write would end it.

use crate::folder::SystemFiles;
use std::io::Read;
use std::{fs, str};

/// Where the system shows the limits of this process: proc_pid_limits(5).
const LIMITS: &str = "/proc/self/limits";

/// More bytes than that has.
const MOST_BYTES: usize = 4096;

/// How the line of this limit begins.
const FILE_SIZE: &str = "Max file size";

/// Returns the most bytes that this program may give a file; none if there is no limit, or the
/// system does not say it. It takes no memory.
pub fn size_limit<R: SystemFiles>(rt: &R) -> Option<u64> {
    let mut file = fs::open(rt, LIMITS).ok()?;
    let mut limits = [0; MOST_BYTES];
    let count = file.read(&mut limits).ok()?;
    let limits = str::from_utf8(limits.get(..count)?).ok()?;
    for line in limits.lines() {
        if let Some(rest) = line.strip_prefix(FILE_SIZE) {
            return rest.split_whitespace().next()?.parse().ok();
        }
    }
    None
}
