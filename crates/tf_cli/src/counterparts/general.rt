//! Options for standard input and output, those of all commands, and those of what tfk doesn't do.

use crate::counterparts::{ANY, ANY_BUT_REVERT, COMMANDS, Counterpart, FORMATTER, Place, REVERT};

const PLANS: &str = "nothing is planned or applied, so leave it out; see tfk --help";

pub fn stream_rows() -> &'static [Counterpart] {
    STREAM_ROWS
}

pub fn general_rows() -> &'static [Counterpart] {
    GENERAL_ROWS
}

pub fn plan_rows() -> &'static [Counterpart] {
    PLAN_ROWS
}

/// Options for standard input and output, and those of TFLint for what it starts.
const STREAM_ROWS: &[Counterpart] = &[
    Counterpart {
        words: &["stdin", "stdin-filename", "stdin-filepath"],
        places: ANY_BUT_REVERT,
        line: "write - in place of FILE; see tfk --help",
    },
    Counterpart {
        words: &["stdin", "stdin-filename", "stdin-filepath"],
        places: REVERT,
        line: "standard input has no journal: name the file; see tfk revert --help",
    },
    Counterpart {
        words: &["stdout", "output", "o"],
        places: FORMATTER,
        line: "tfk fmt - < FILE prints it formatted; see tfk fmt --help",
    },
    Counterpart {
        words: &["stdout", "output", "o"],
        places: &[Place::Lint],
        line: "lint prints the issues on standard output; see tfk lint --help",
    },
    Counterpart {
        words: &["stdout", "output", "o"],
        places: &[Place::Fix],
        line: "tfk fix - < FILE prints it fixed; see tfk fix --help",
    },
    Counterpart {
        words: &["init", "enable-plugin"],
        places: ANY,
        line: "there are no plugins: all rules are built in; tfk lint --help lists them",
    },
    Counterpart {
        words: &["max-workers", "no-parallel-runners", "parallelism"],
        places: ANY,
        line: "there are no workers: one file is processed after the other",
    },
    Counterpart {
        words: &["langserver"],
        places: ANY,
        line: "there is no language server; docs/INTEGRATING.md says how editors run tfk",
    },
];

/// Options of all commands.
const GENERAL_ROWS: &[Counterpart] = &[
    Counterpart {
        words: &["quiet", "q", "silent"],
        places: &[Place::Start],
        line: "for no output add > /dev/null; see tfk --help",
    },
    Counterpart {
        words: &["chdir"],
        places: ANY,
        line: "run cd first; see tfk --help",
    },
    Counterpart {
        words: &["color", "no-color"],
        places: ANY,
        line: "nothing is in color; see tfk --help",
    },
    Counterpart {
        words: &["config"],
        places: ANY,
        line: "there is no configuration file; see tfk --help",
    },
    Counterpart {
        words: &["verbose", "loglevel"],
        places: ANY,
        line: "--locate says where each error is, and why; see tfk --help",
    },
    Counterpart {
        words: &["v"],
        places: COMMANDS,
        line: "--locate says where each error is, and why; tfk --version is the version",
    },
];

/// The options of `terraform validate`, `plan` and `apply`, of what tfk doesn't do.
const PLAN_ROWS: &[Counterpart] = &[
    Counterpart {
        words: &[
            "target",
            "out",
            "auto-approve",
            "lock",
            "lock-timeout",
            "state",
        ],
        places: ANY,
        line: PLANS,
    },
    Counterpart {
        words: &[
            "refresh",
            "refresh-only",
            "replace",
            "destroy",
            "input",
            "backend",
            "upgrade",
        ],
        places: ANY,
        line: PLANS,
    },
    Counterpart {
        words: &["detailed-exitcode", "compact-warnings"],
        places: ANY,
        line: PLANS,
    },
    Counterpart {
        words: &["no-tests", "test-directory"],
        places: ANY,
        line: "files of tests are read only if they are named; see tfk --help",
    },
];
