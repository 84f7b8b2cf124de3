//! A token with its place.

use crate::kind::Kind;

/// A token and the gap before it. All offsets are in bytes, from 0: the gap is the bytes from
/// `gap_at` to `start`, the spelling of the token those from `start` to `stop`.
#[derive(Clone, Copy, Debug, PartialEq, Eq)]
pub struct Item {
    pub gap_at: u32,
    pub start: u32,
    pub stop: u32,
    pub kind: Kind,
}
