//! Repositories of many small files.

use crate::results::{Results, State};
use crate::templates::Blocks;
use crate::text::Text;
use tf_session::{Command, RuleSet};

/// How many blocks a file has at most.
const MOST_BLOCKS: usize = 14;

/// The kinds of blocks of which files are made.
#[derive(Drop)]
struct Kinds {
    tidy: Blocks,
    with_findings: Blocks,
    untidy: Blocks,
}

impl Kinds {
    fn new(results: &Results) -> Kinds {
        Kinds {
            tidy: Blocks::tidy(results.alloc),
            with_findings: Blocks::with_findings(results.alloc),
            untidy: Blocks::untidy(results.alloc),
        }
    }

    /// Makes a file. One block in `untidy` is badly laid out, and one in `findings` has issues; none
    /// if the number is 0.
    fn file(&self, results: &mut Results, untidy: usize, findings: usize) -> Text {
        let mut text = Text::new(results.alloc, results.chance);
        let blocks = text.chance.below(MOST_BLOCKS).saturating_add(1);
        for number in 0..blocks {
            if number > 0 {
                text.put("\n");
            }
            if untidy > 0 && text.chance.one_in(untidy) {
                self.untidy.put(&mut text);
            } else if findings > 0 && text.chance.one_in(findings) {
                self.with_findings.put(&mut text);
            } else {
                self.tidy.put(&mut text);
            }
        }
        results.chance = text.chance;
        text
    }
}

/// Runs `fmt --check` and `lint` on `count` files: most are laid out and without issues.
pub fn check(count: u32, results: &mut Results) {
    let kinds = Kinds::new(results);
    for _ in 0..count {
        let kind = results.chance.below(20);
        let untidy = if kind == 0 { 6 } else { 0 };
        let findings = if kind < 4 { 6 } else { 0 };
        let text = kinds.file(results, untidy, findings);
        results.check(&text.bytes);
        results.lint(&text.bytes);
    }
}

/// Runs `fix`, then `fmt`, on `count` files; then adds a block to each, and runs both again. A tenth
/// is badly laid out, and a third has issues.
pub fn adopt(count: u32, results: &mut Results) {
    let kinds = Kinds::new(results);
    for _ in 0..count {
        let kind = results.chance.below(30);
        let untidy = if kind < 3 { 2 } else { 0 };
        let findings = if kind < 12 { 4 } else { 0 };
        let text = kinds.file(results, untidy, findings);
        let mut state = State {
            text: text.bytes,
            journal: Vec::new(results.alloc),
        };
        fix_and_format(&mut state, results);
        add_block(&kinds, &mut state, results);
        fix_and_format(&mut state, results);
    }
}

fn fix_and_format(state: &mut State, results: &mut Results) {
    results.change(Command::Fix(RuleSet::all()), state);
    results.change(Command::Fmt, state);
}

/// Writes one more block at the end, as a user does.
fn add_block(kinds: &Kinds, state: &mut State, results: &mut Results) {
    let mut block = Text::new(results.alloc, results.chance);
    block.put("\n");
    kinds.tidy.put(&mut block);
    results.chance = block.chance;
    let _ = state.text.extend_from_slice(&block.bytes);
}
