//! Large texts, as programs generate them.

use crate::results::Results;
use crate::templates::{Blocks, put_reference};
use crate::text::Text;

/// All that can be done to texts of 12, 3, 3 and 2 thousand bytes, times `size`.
pub fn run(size: u32, results: &mut Results) {
    let thousand = (size as usize).saturating_mul(1000);
    for (kind, share) in [(0usize, 12usize), (1, 3), (2, 3), (3, 2)] {
        let mut text = Text::new(results.alloc, results.chance);
        let len = thousand.saturating_mul(share);
        match kind {
            0 => put_blocks(len, results, &mut text),
            1 => put_lists(len, &mut text),
            2 => put_heredocs(len, &mut text),
            _ => put_long_lines(len, &mut text),
        }
        results.chance = text.chance;
        results.check(&text.bytes);
        results.lint(&text.bytes);
        results.format(&text.bytes);
        results.fix(text.bytes);
    }
}

/// Blocks of all kinds: one in 20 is untidy, and one in ten has issues.
fn put_blocks(len: usize, results: &Results, text: &mut Text) {
    let tidy = Blocks::tidy(results.alloc);
    let with_findings = Blocks::with_findings(results.alloc);
    let untidy = Blocks::untidy(results.alloc);
    for _ in 0..len {
        if text.len() >= len {
            return;
        }
        match text.chance.below(20) {
            0 => untidy.put(text),
            1 | 2 => with_findings.put(text),
            _ => tidy.put(text),
        }
        text.put("\n");
    }
}

/// Lists and maps of some hundred elements, one a line.
fn put_lists(len: usize, text: &mut Text) {
    text.put("locals {\n");
    for _ in 0..len {
        if text.len() >= len {
            break;
        }
        put_list(text);
    }
    text.put("}\n");
}

fn put_list(text: &mut Text) {
    text.put("  ");
    text.name();
    if text.chance.one_in(2) {
        text.put(" = [\n");
        for _ in 0..200 {
            text.put("    \"");
            text.word();
            text.put("-");
            text.number(100_000);
            text.put("\",\n");
        }
        text.put("  ]\n");
    } else {
        text.put(" = {\n");
        for _ in 0..200 {
            text.put("    ");
            text.name();
            text.put(" = { cidr = \"10.");
            text.number(256);
            text.put(".0.0/16\", zone = ");
            text.number(9);
            text.put(" }\n");
        }
        text.put("  }\n");
    }
}

/// Policies and scripts in heredocs.
fn put_heredocs(len: usize, text: &mut Text) {
    for _ in 0..len {
        if text.len() >= len {
            return;
        }
        text.put("resource \"aws_iam_policy\" \"");
        text.name();
        text.put("\" {\n  policy = <<EOT\n{\n  \"Version\": \"2012-10-17\",\n  \"Statement\": [\n");
        for _ in 0..20 {
            text.put("    { \"Effect\": \"Allow\", \"Action\": \"s3:Get");
            text.word();
            text.put("\", \"Resource\": \"arn:aws:s3:::");
            text.word();
            text.put("-${");
            put_reference(text);
            text.put("}/*\" },\n");
        }
        text.put("  ]\n}\nEOT\n}\n\n");
    }
}

/// Attributes of several thousand bytes on one line each.
fn put_long_lines(len: usize, text: &mut Text) {
    for _ in 0..len {
        if text.len() >= len {
            return;
        }
        text.name();
        text.put(" = [");
        for _ in 0..200 {
            put_reference(text);
            text.put(", \"");
            text.word();
            text.put(" größe ");
            text.number(1000);
            text.put("\", ");
        }
        text.put("1]\n");
    }
}
