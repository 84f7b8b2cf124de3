//! The shape of a journal's lines in numbers: how many numbers and ends they have, and how long
//! they are. Whatever depends on the shape of a line, and not on its columns, takes it from here.
//!
//! The columns themselves are defined in `specs/CurrentText`, written, and their lengths added up,
//! by the lists `edit_parts` and `list_parts` (encoder.rt), and read by `edit_head` and `list_head`
//! (readers.rt). What repeats a part of the columns for speed alone is in short_texts.rt and
//! short_edits.rt, whose heads say which part.

use crate::digits::MOST_DIGITS;
use crate::lists::INLINE_CAPACITY;

/// How many numbers an edit has: its place, and how many bytes it removes and adds.
const EDIT_NUMBERS: usize = 3;

/// How many ends the text of an edit has: one after each number, and the line end after its bytes.
pub(crate) const EDIT_ENDS: usize = EDIT_NUMBERS + 1;

/// The length of the shortest text of an edit: a digit of each number, the ends, and a byte.
pub(crate) const LEAST_BYTES: usize = EDIT_NUMBERS + EDIT_ENDS + 1;

/// The length of the longest text that is written at once: that of an edit which stores its bytes
/// inline, so that how many they are has two digits at most.
pub(crate) const MOST_BYTES: usize = MOST_DIGITS
    + 2 * (EDIT_NUMBERS - 1)
    + EDIT_ENDS
    + INLINE_CAPACITY;

// Heads are written at once, too.
const _: () = prove!(EDIT_NUMBERS * (MOST_DIGITS + 1) <= MOST_BYTES);

/// The most digits of a place that is read at once.
pub(crate) const QUICK_DIGITS: usize = 7;

/// The length of the other numbers of an edit that is read at once: a digit and an end of each.
pub(crate) const QUICK_LENGTHS: usize = 2 * (EDIT_NUMBERS - 1);

/// How many bytes such an edit has after its place, besides those that it removes and adds.
pub(crate) const QUICK_REST: usize = QUICK_LENGTHS + 1;

/// The length of the longest text of an edit that is read at once.
pub(crate) const QUICK_BYTES: usize = QUICK_DIGITS + 1 + QUICK_REST + INLINE_CAPACITY;
