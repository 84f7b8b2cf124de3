//! Lists that change places, and records that are removed.

use crate::actual::Answer;
use crate::edit_syntax::{journal_of, list_of, name_of, spell};
use crate::row::Row;
use edit_record::laws::{move_to_end_is_unique, swap_is_unique};
use edit_record::{Edits, MoveFault, Record, SwapFault, move_to_end, swap};

pub fn answer(row: &Row, out: &mut Answer) {
    match row.word(0) {
        "second" | "first" => swapped(row, out),
        "others" | "moved" => move_to_end_row(row, out),
        _ => {
            out.show(&SwapFault::Memory);
            out.put(", ");
            out.show(&MoveFault::Memory);
        }
    }
}

/// The second list as it comes first, or the first as it comes second.
fn swapped(row: &Row, out: &mut Answer) {
    let first = list_of(row.word(1), out);
    let second = list_of(row.word(2), out);
    swap_is_unique();
    match swap(out.alloc, &first, &second) {
        Ok((second, first)) => {
            let is_second = row.word(0) == "second";
            spell(if is_second { &second } else { &first }, out);
        }
        Err(fault) => out.refuse(&fault),
    }
}

/// The records without the edits before them, or the edits as they are after the records.
fn move_to_end_row(row: &Row, out: &mut Answer) {
    let first = list_of(row.word(1), out);
    let journal = journal_of(row.word(2), out);
    move_to_end_is_unique();
    match move_to_end(out.alloc, &first, journal.records()) {
        Ok((others, moved)) => {
            if row.word(0) == "others" {
                write_reordered(&others, out);
            } else {
                write_moved(&moved, out);
            }
        }
        Err(fault) => out.refuse(&fault),
    }
}

/// All the records, in order, as a row spells them.
fn write_reordered(others: &[Record], out: &mut Answer) {
    for record in others {
        out.put(name_of(record.word()));
        out.put(" ");
        spell(record.edits(), out);
        out.put("&");
    }
}

fn write_moved(moved: &Option<Edits>, out: &mut Answer) {
    match moved {
        Some(list) => spell(list, out),
        None => out.put("stays"),
    }
}
