//! Texts that parse or not: the place of the error, or the tree's description.

use crate::actual::Answer;
use crate::lints::searched;
use crate::row::Row;
use hcl_scan::{Scanned, scan};
use hcl_tree::{ParseFault, Tree, parse};
use std::fmt::Write;

pub fn answer(row: &Row, out: &mut Answer) {
    if row.word(0) == "memory" {
        return out.show(&ParseFault::Memory);
    }
    read(row, row.text(1), out);
}

/// Writes the tree of a text that parses, or else the place of its error.
pub fn read(row: &Row, text: &[u8], out: &mut Answer) {
    match scan(out.alloc, text) {
        Ok(scanned) => match parse(out.alloc, &scanned) {
            Ok(tree) => {
                check_says(&scanned, None, out);
                write_tree(row, &scanned, &tree, out);
            }
            Err(fault) => {
                check_says(&scanned, Some(fault), out);
                out.show(&fault);
            }
        },
        Err(fault) => out.refuse(&fault),
    }
}

/// The parser that makes no tree has the same answer, with the same error at the same byte.
fn check_says(scanned: &Scanned<'_>, fault: Option<ParseFault>, out: &mut Answer) {
    let is_said = hcl_tree::check(out.alloc, scanned).err() == fault;
    out.hold(is_said, "the check says otherwise");
}

/// That there is a tree, or how many tokens it has, how many its body, and how many members that
/// has, or what is found in it.
fn write_tree(row: &Row, scanned: &Scanned<'_>, tree: &Tree, out: &mut Answer) {
    match row.word(0) {
        "parse" => out.put("parses"),
        "body" => {
            let (all, past, members) = (tree.past, tree.body.past, tree.body.members.len());
            let _ = write!(out, "{all} {past} {members}");
        }
        _ => searched(row, scanned, tree, out),
    }
}
