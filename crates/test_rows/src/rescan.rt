//! Tokens of a text beside those of another, and tokens that were kept without their text.

use crate::actual::Answer;
use crate::row::Row;
use crate::tokens::{write_each_token, yes_or_no};
use hcl_rescan::{ReplacedRange, rescan};
use hcl_scan::{Scanned, scan};
use hcl_text_laws::laws::parsed_tokens_are_apart;

pub fn answer(row: &Row, out: &mut Answer) {
    match row.word(0) {
        "kept" => kept(row.text(1), out),
        "again" => again(row, out),
        _ => same(row, out),
    }
}

/// The tokens of a text that were stored without it.
fn kept(text: &[u8], out: &mut Answer) {
    match scan(out.alloc, text) {
        Ok(scanned) => {
            let list = scanned.detach();
            write_each_token(&Scanned::attach(text, list), out);
        }
        Err(fault) => out.refuse(&fault),
    }
}

fn to_u32(number: usize) -> u32 {
    u32::try_from(number).unwrap_or(u32::MAX)
}

/// The tokens of a text that are made from those of an old text, of which a piece was replaced.
fn again(row: &Row, out: &mut Answer) {
    let piece = ReplacedRange {
        at: to_u32(row.number(3)),
        removed: to_u32(row.number(4)),
        added: to_u32(row.number(5)),
    };
    match scan(out.alloc, row.text(1)) {
        Ok(old) => tokenize_again(&old, row.text(2), piece, out),
        Err(fault) => out.refuse(&fault),
    }
}

fn tokenize_again(old: &Scanned<'_>, text: &[u8], piece: ReplacedRange, out: &mut Answer) {
    parsed_tokens_are_apart();
    let _old_text = old.text();
    match hcl_tree::check(out.alloc, old) {
        Ok(()) => match rescan(out.alloc, Vec::new(out.alloc), text, old, &[piece]) {
            Ok(scanned) => write_each_token(&scanned, out),
            Err(fault) => out.refuse(&fault),
        },
        Err(_) => out.put("the old text does not parse"),
    }
}

/// Whether both texts have the given number of equal tokens, with equal gaps between them.
fn same(row: &Row, out: &mut Answer) {
    match scan(out.alloc, row.text(1)) {
        Ok(one) => same_in(&one, row, out),
        Err(fault) => out.refuse(&fault),
    }
}

fn same_in(one: &Scanned<'_>, row: &Row, out: &mut Answer) {
    match scan(out.alloc, row.text(2)) {
        Ok(other) => same_stretch(one, &other, row, out),
        Err(fault) => out.refuse(&fault),
    }
}

fn same_stretch(one: &Scanned<'_>, other: &Scanned<'_>, row: &Row, out: &mut Answer) {
    let (from, to, count) = (row.number(3), row.number(4), row.number(5));
    let (len, other_len) = (one.len(), other.len());
    if count > len || from > len - count || count > other_len || to > other_len - count {
        return out.put("no such tokens");
    }
    yes_or_no(one.has_same_tokens(from, other, to, count), out);
}
