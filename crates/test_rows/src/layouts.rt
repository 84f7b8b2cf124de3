//! Texts and their layouts.

use crate::actual::Answer;
use crate::records::turned;
use crate::row::Row;
use edit_record::Edits;
use hcl_layout::gaps::laws::{cells_in_columns, keeps_tokens, lines_have_all_tokens, own_layout};
use hcl_layout::gaps::{LayoutFault, is_laid_out, layout};
use hcl_scan::scan;
use std::alloc::Global;
use std::fmt::Write;

pub fn answer(row: &Row, out: &mut Answer) {
    match row.word(0) {
        "laws" => laws(out),
        "memory" => out.show(&LayoutFault::Memory),
        call => match &layout_of(out.alloc, row.text(1)) {
            Some((Ok(edits), Ok(is_laid_out))) => write_layout(call, row, edits, *is_laid_out, out),
            Some((Err(fault), Err(other))) => {
                let _ = write!(out, "{fault}, {other}");
            }
            _ => out.put("no tokens, or one of the two is refused"),
        },
    }
}

type TextLayout = (Result<Edits, LayoutFault>, Result<bool, LayoutFault>);

/// The edits that lay a text out, and whether it is laid out.
fn layout_of(alloc: Global, text: &[u8]) -> Option<TextLayout> {
    match scan(alloc, text) {
        Ok(scanned) => Some((layout(alloc, &scanned), is_laid_out(alloc, &scanned))),
        Err(_) => None,
    }
}

fn write_layout(call: &str, row: &Row, edits: &Edits, is_laid_out: bool, out: &mut Answer) {
    match call {
        "layout" => write_text(row.text(1), edits, is_laid_out, out),
        "edits" => write_edits(edits, out),
        _ => {
            let len = edits.new_len();
            let _ = write!(out, "{len} {is_laid_out}");
        }
    }
}

/// Writes the layout of a text, which has to undo to the text and be its own layout; and
/// `is_laid_out` has to say whether the text is its layout.
fn write_text(text: &[u8], edits: &Edits, is_laid_out: bool, out: &mut Answer) {
    turned(edits, "both", text, out);
    let is_said = is_laid_out == (out.text() == text);
    out.hold(is_said, "`is_laid_out` is wrong");
    let is_own = match &layout_of(out.alloc, out.text()) {
        Some((Ok(edits), Ok(is_laid_out))) => *is_laid_out && edits.edits().is_empty(),
        _ => false,
    };
    out.hold(is_own, "the layout is not laid out");
}

/// For each edit its place, how many bytes it removes, and how many it adds.
fn write_edits(edits: &Edits, out: &mut Answer) {
    for edit in edits.edits() {
        let (at, removed, added) = (edit.at(), edit.removed().len(), edit.added().len());
        let _ = write!(out, "{at}-{removed}+{added} ");
    }
}

fn laws(out: &mut Answer) {
    lines_have_all_tokens();
    keeps_tokens();
    own_layout();
    cells_in_columns();
    out.put("hold");
}
