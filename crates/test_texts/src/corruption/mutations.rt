//! The corrupted forms of bytes: each prefix, and each byte replaced by another.

use crate::report::Report;

/// What replaces a byte; last the byte plus one.
const OTHERS: [u8; 5] = [0, 0xff, b'"', b'{', b'\n'];

/// How many other bytes replace each byte.
const CHOICES: usize = 6;

/// How many corrupted forms there are of `len` bytes.
pub fn count(len: usize) -> usize {
    len.saturating_mul(CHOICES + 1).saturating_add(1)
}

/// The length of the prefix that the form of this number is, if it is one.
pub fn prefix(len: usize, number: usize) -> Option<usize> {
    if number <= len { Some(number) } else { None }
}

/// The form of this number: the prefixes are first, the shortest first.
pub fn of(bytes: &[u8], number: usize, report: &mut Report) -> Vec<u8> {
    if number <= bytes.len() {
        return report.copy(&bytes[..number]);
    }
    let rest = number.saturating_sub(bytes.len()).saturating_sub(1);
    let mut changed = report.copy(bytes);
    if let Some(byte) = changed.get_mut(rest / CHOICES) {
        *byte = match OTHERS.get(rest % CHOICES) {
            Some(other) => *other,
            None => byte.wrapping_add(1),
        };
    }
    changed
}
