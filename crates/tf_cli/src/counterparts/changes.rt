//! Options that show changes, write nothing or write in place, and other options of revert.

use crate::counterparts::{
    Counterpart, DRY_RUN, LINTED, LISTED, Place, REVERT, SEVERAL_LISTS, UNDO,
};

/// The command that shows what `fix` would do.
const SHOWN_CHANGES: &str =
    "tfk fix - < FILE | diff -u -- FILE - shows the changes; see tfk fix --help";

const SHOWN_FIXES: &str =
    "lint writes nothing; tfk fix - < FILE | diff -u -- FILE - shows the fixes";

const ONE_FILE: &str = "revert takes one FILE; see tfk revert --help";

pub fn change_rows() -> &'static [Counterpart] {
    CHANGE_ROWS
}

pub fn revert_rows() -> &'static [Counterpart] {
    REVERT_ROWS
}

/// Options that show changes, write nothing or write in place, of lint, fix and revert.
const CHANGE_ROWS: &[Counterpart] = &[
    Counterpart {
        words: &["diff", "d", "write", "w", "in-place", "i"],
        places: &[Place::Lint],
        line: SHOWN_FIXES,
    },
    Counterpart {
        words: DRY_RUN,
        places: &[Place::Lint],
        line: SHOWN_FIXES,
    },
    Counterpart {
        words: &["l", "list-different"],
        places: &[Place::Lint],
        line: "lint prints the issues, and writes nothing; see tfk lint --help",
    },
    Counterpart {
        words: &["check"],
        places: &[Place::Lint],
        line: "lint writes nothing; tfk fmt --check -- FILE checks the layout",
    },
    Counterpart {
        words: &["diff", "d"],
        places: &[Place::Fix],
        line: SHOWN_CHANGES,
    },
    Counterpart {
        words: DRY_RUN,
        places: &[Place::Fix],
        line: SHOWN_CHANGES,
    },
    Counterpart {
        words: &["check", "l", "list-different"],
        places: &[Place::Fix],
        line: LINTED,
    },
    Counterpart {
        words: &["diff", "d", "check", "c", "list-different"],
        places: REVERT,
        line: LISTED,
    },
    Counterpart {
        words: DRY_RUN,
        places: REVERT,
        line: LISTED,
    },
    Counterpart {
        words: &["stdout", "output", "o"],
        places: REVERT,
        line: LISTED,
    },
    Counterpart {
        words: &["write", "w", "in-place", "i"],
        places: &[Place::List],
        line: "revert --list writes nothing; see tfk revert --help",
    },
];

/// Other options of revert.
const REVERT_ROWS: &[Counterpart] = &[
    Counterpart {
        words: &["recursive", "r", "R"],
        places: &[Place::List],
        line: SEVERAL_LISTS,
    },
    Counterpart {
        words: &["recursive", "r", "R"],
        places: &[Place::Take],
        line: ONE_FILE,
    },
    Counterpart {
        words: &["exclude", "filter"],
        places: REVERT,
        line: ONE_FILE,
    },
    Counterpart {
        words: &["force", "f"],
        places: REVERT,
        line: "a command is undone only if what it wrote is still there; see tfk revert --help",
    },
    Counterpart {
        words: &["all", "to", "t"],
        places: &[Place::List],
        line: "tfk revert --list -- FILE lists all commands; see tfk revert --help",
    },
    Counterpart {
        words: &[
            "quiet",
            "q",
            "silent",
            "s",
            "format",
            "output-format",
            "json",
        ],
        places: UNDO,
        line: "revert prints nothing but errors; see tfk revert --help",
    },
    Counterpart {
        words: &["quiet", "q", "silent", "s"],
        places: &[Place::List],
        line: "for no list add > /dev/null; see tfk revert --help",
    },
    Counterpart {
        words: &["format", "output-format", "json"],
        places: &[Place::List],
        line: "the list has one format; see tfk revert --help",
    },
    Counterpart {
        words: &["fix"],
        places: REVERT,
        line: "fix is a command of its own; see tfk fix --help",
    },
];
