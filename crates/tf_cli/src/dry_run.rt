//! Whether the arguments say to write nothing, in the words of any program.

/// Options that say to write nothing, or only to compare or to list.
const READING: &[&str] = &[
    "check",
    "c",
    "check-only",
    "dry-run",
    "dryrun",
    "dry",
    "fix-dry-run",
    "n",
    "no-write",
    "nowrite",
    "no-op",
    "noop",
    "no-act",
    "no-fix",
    "no-modify",
    "read-only",
    "readonly",
    "preview",
    "what-if",
    "whatif",
    "simulate",
    "pretend",
    "just-print",
    "plan",
    "diff",
    "show-diff",
    "print-diff",
    "d",
    "list",
    "l",
    "list-different",
    "stdout",
    "output",
    "o",
];

/// Options that say to write in place, or with the value false to write nothing.
const WRITING: &[&str] = &["write", "w", "in-place", "i", "fix"];

/// How false is written, in programs made with Go's package flag too.
const FALSE: &[&str] = &["false", "f", "0", "no", "off"];

/// Returns the first argument before `--` that says to write nothing.
pub fn dry_run_word<'a>(args: &[&'a str]) -> Option<&'a str> {
    for arg in args {
        if *arg == "--" {
            return None;
        }
        if is_dry_run(arg) {
            return Some(*arg);
        }
    }
    None
}

/// Returns whether an argument is an option, with one dash or two, that says to write nothing.
fn is_dry_run(arg: &str) -> bool {
    match option_name(arg) {
        Some(name) => is_dry_run_name(name),
        None => false,
    }
}

/// Returns whether an option of this name, which may have a value, says to write nothing.
fn is_dry_run_name(name: &str) -> bool {
    match name.split_once('=') {
        Some((option, value)) if is_one_of(value, FALSE) => is_one_of(option, WRITING),
        Some((option, _)) => is_one_of(option, READING),
        None => is_one_of(name, READING),
    }
}

/// Returns whether a word is one of these, with letters of either case, and with `_` for `-`.
fn is_one_of(word: &str, words: &[&str]) -> bool {
    words.iter().any(|other| is_written_as(word, other))
}

/// Returns whether a word is another one, with letters of either case, and with `_` for `-`.
fn is_written_as(word: &str, other: &str) -> bool {
    word.len() == other.len() && word.bytes().zip(other.bytes()).all(|(a, b)| is_same(a, b))
}

/// Returns whether two bytes are the same, in either case, where `_` is `-`.
fn is_same(a: u8, b: u8) -> bool {
    a.eq_ignore_ascii_case(&b) || a == b'_' && b == b'-'
}

/// Returns an option without the dash or two that it begins with; none if it begins with none.
pub fn option_name(arg: &str) -> Option<&str> {
    match arg.strip_prefix("--") {
        Some(name) => Some(name),
        None => arg.strip_prefix('-'),
    }
}
