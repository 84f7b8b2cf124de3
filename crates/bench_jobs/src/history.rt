//! Files with histories: commands on a text whose journal has many records.

use crate::results::{Results, State};
use crate::text::Text;
use std::alloc::Global;
use tf_session::{Command, RuleSet};

/// How many records a journal has, how many edits each record, and how many lines the text.
const HISTORIES: [(usize, usize, usize); 5] = [
    (10, 1000, 2000),
    (100, 100, 1000),
    (1000, 10, 400),
    (5000, 1, 200),
    (300, 40, 600),
];

/// How many lines a group has, whose length is kept.
const GROUP: usize = 16;

/// A line's text before the place that changes, its older and newer form there, and the text after
/// it.
const LINES: [(&str, &str, &str, &str); 4] = [
    ("  setting_", "=", " = ", "\"eu-central\"\n"),
    ("  subnet_id = var.subnets_", ".0", "[0]", ".id\n"),
    ("  ", "//", "#", " kept as it was\n"),
    ("  zones = [\"a\",", "", " ", "\"b\"]\n"),
];

/// Runs all commands on `count` files of each kind of history.
pub fn run(count: u32, results: &mut Results) {
    for _ in 0..count {
        for (records, edits, lines) in HISTORIES {
            let mut state = history(records, edits, lines, results);
            let middle = u32::try_from(records / 2).unwrap_or(1);
            results.change(Command::Take(middle), &mut state);
            results.change(Command::Revert, &mut state);
            results.change(Command::Revert, &mut state);
            results.change(Command::Fmt, &mut state);
            results.change(Command::Fix(RuleSet::all()), &mut state);
            results.list(&state);
        }
    }
}

/// The lines of a text: for each whether it has its newer form, and how long it is.
#[derive(Drop)]
struct Lines {
    is_new: Vec<bool>,
    lens: Vec<usize>,
    /// The lengths of groups of lines.
    groups: Vec<usize>,
    len: usize,
}

fn line_kind(line: usize) -> (&'static str, &'static str, &'static str, &'static str) {
    match LINES.get(line % 4) {
        Some(kind) => *kind,
        None => ("", "", "", ""),
    }
}

/// The length of the text before the place that changes: lines of the last two kinds have no number.
fn prefix_len(line: usize) -> usize {
    let (prefix, ..) = line_kind(line);
    if line % 4 < 2 {
        prefix.len().saturating_add(4)
    } else {
        prefix.len()
    }
}

fn put_prefix(line: usize, out: &mut Text) {
    let (prefix, ..) = line_kind(line);
    out.put(prefix);
    if line % 4 < 2 {
        out.put_number((line % 9000).saturating_add(1000));
    }
}

/// The text before the first line.
const HEAD: &str = "locals {\n";

/// The text after the last line.
const FOOT: &str = "}\n";

impl Lines {
    /// Lines in their older form.
    fn new(alloc: Global, count: usize) -> Lines {
        let mut lines = Lines {
            is_new: Vec::new(alloc),
            lens: Vec::new(alloc),
            groups: Vec::new(alloc),
            len: HEAD.len() + FOOT.len(),
        };
        for line in 0..count {
            let (_, old, _, end) = line_kind(line);
            let len = prefix_len(line)
                .saturating_add(old.len())
                .saturating_add(end.len());
            let _ = lines.is_new.push(false);
            let _ = lines.lens.push(len);
            if line % GROUP == 0 {
                let _ = lines.groups.push(0);
            }
            lines.lengthen(line, len);
        }
        lines
    }

    fn lengthen(&mut self, line: usize, by: usize) {
        self.len = self.len.saturating_add(by);
        if let Some(group) = self.groups.get_mut(line / GROUP) {
            *group = group.saturating_add(by);
        }
    }

    fn shorten(&mut self, line: usize, by: usize) {
        self.len = self.len.saturating_sub(by);
        if let Some(group) = self.groups.get_mut(line / GROUP) {
            *group = group.saturating_sub(by);
        }
    }

    /// Where a line begins.
    fn start_of(&self, line: usize) -> usize {
        let group = line / GROUP;
        let mut at = HEAD.len();
        for len in self.groups.iter().take(group) {
            at = at.saturating_add(*len);
        }
        for len in self
            .lens
            .iter()
            .skip(group.saturating_mul(GROUP))
            .take(line % GROUP)
        {
            at = at.saturating_add(*len);
        }
        at
    }

    /// Gives a line its other form, and writes the edit at `at` into the journal.
    fn toggle(&mut self, line: usize, at: usize, journal: &mut Text) {
        let (_, old, new, _) = line_kind(line);
        let Some(is_new) = self.is_new.get_mut(line) else {
            return;
        };
        let (removed, added) = if *is_new { (new, old) } else { (old, new) };
        *is_new = !*is_new;
        put_edit(at, removed, added, journal);
        if let Some(len) = self.lens.get_mut(line) {
            *len = len
                .saturating_add(added.len())
                .saturating_sub(removed.len());
        }
        self.lengthen(line, added.len());
        self.shorten(line, removed.len());
    }

    /// The text.
    fn text(&self, alloc: Global, journal: &Text) -> Text {
        let mut text = Text::new(alloc, journal.chance);
        text.put(HEAD);
        for (line, is_new) in self.is_new.iter().enumerate() {
            let (_, old, new, end) = line_kind(line);
            put_prefix(line, &mut text);
            text.put(if *is_new { new } else { old });
            text.put(end);
        }
        text.put(FOOT);
        text
    }
}

fn put_edit(at: usize, removed: &str, added: &str, journal: &mut Text) {
    journal.put_number(at);
    journal.put(" ");
    journal.put_number(removed.len());
    journal.put(" ");
    journal.put_number(added.len());
    journal.put("\n");
    journal.put(removed);
    journal.put(added);
    journal.put("\n");
}

/// A text with a journal of `records` records of `edits` edits each. The record in the middle edits
/// every eighth line, which no other record edits.
fn history(records: usize, edits: usize, count: usize, results: &mut Results) -> State {
    let alloc = results.alloc;
    let mut journal = Text::new(alloc, results.chance);
    let mut lines = Lines::new(alloc, count);
    for number in 1..records.saturating_add(1) {
        put_record(
            number == records / 2,
            edits,
            count,
            &mut lines,
            &mut journal,
        );
    }
    let text = lines.text(alloc, &journal);
    results.chance = text.chance;
    State {
        text: text.bytes,
        journal: journal.bytes,
    }
}

fn put_record(is_middle: bool, edits: usize, count: usize, lines: &mut Lines, journal: &mut Text) {
    let edits = if is_middle {
        edits.min(count / 8)
    } else {
        edits
    };
    let stride = if is_middle { 8 } else { 1 };
    let width = edits.saturating_mul(stride).saturating_add(edits / 4);
    let first = journal.chance.below(count.saturating_sub(width));
    let mut line = if is_middle { 0 } else { first };
    journal.choose(&["tfrec 2 fmt ", "tfrec 2 fix "]);
    journal.put_number(lines.len);
    journal.put(" ");
    journal.put_number(edits);
    journal.put("\n");
    let mut at = lines.start_of(line);
    for _ in 0..edits {
        if !is_middle && line % 8 == 0 {
            at = at.saturating_add(lines.lens.get(line).copied().unwrap_or(0));
            line = line.saturating_add(1);
        }
        let place = at.saturating_add(prefix_len(line));
        for next in line..line.saturating_add(stride) {
            at = at.saturating_add(lines.lens.get(next).copied().unwrap_or(0));
        }
        lines.toggle(line, place, journal);
        line = line.saturating_add(stride);
    }
    journal.put("end\n");
}
