//! The options of linters.

use crate::counterparts::{ANY, ANY_BUT_REVERT, Counterpart, Place};

/// The options of TFLint, and of other linters.
const LINTER: &[Place] = &[Place::Start, Place::Lint, Place::Fix];

pub fn lint_rows() -> &'static [Counterpart] {
    LINT_ROWS
}

/// The options of TFLint and of other linters.
const LINT_ROWS: &[Counterpart] = &[
    Counterpart {
        words: &["fix"],
        places: &[Place::Check],
        line: "tfk lint -- FILE reports the issues; see tfk fix --help",
    },
    Counterpart {
        words: &["filter"],
        places: ANY_BUT_REVERT,
        line: "name the files; see tfk lint --help",
    },
    Counterpart {
        words: &["only", "select", "rule", "rules"],
        places: LINTER,
        line: "--disable-rule all --enable-rule RULE enables one; see tfk lint --help",
    },
    Counterpart {
        words: &["ignore", "skip"],
        places: LINTER,
        line: "--disable-rule RULE disables one; see tfk lint --help",
    },
    Counterpart {
        words: &["format", "output-format", "f", "json"],
        places: LINTER,
        line: "there is one format of issues; docs/INTEGRATING.md makes JSON of it, with jq",
    },
    Counterpart {
        words: &["force", "exit-zero"],
        places: LINTER,
        line: "issues give status 2; for 0 add || test $? -eq 2",
    },
    Counterpart {
        words: &["minimum-failure-severity", "severity"],
        places: LINTER,
        line: "each issue gives status 2, unless its rule is disabled; see tfk lint --help",
    },
    Counterpart {
        words: &["var-file", "var"],
        places: ANY,
        line: "nothing is evaluated, so no values are read",
    },
    Counterpart {
        words: &["call-module-type", "module", "no-module", "ignore-module"],
        places: ANY,
        line: "modules are not followed: each FILE is read by itself",
    },
    Counterpart {
        words: &["quiet", "q", "silent", "s"],
        places: &[Place::Lint],
        line: "for no list of issues add > /dev/null; the exit status is 2 if there are any",
    },
    Counterpart {
        words: &["quiet", "q", "silent", "s"],
        places: &[Place::Fix],
        line: "for no list of issues add > /dev/null, or with - as FILE 2> /dev/null",
    },
    Counterpart {
        words: &["c"],
        places: &[Place::Check, Place::Lint],
        line: "there is no configuration file; see tfk --help",
    },
    Counterpart {
        words: &["c"],
        places: &[Place::Fix],
        line: "tfk lint -- FILE checks and writes nothing; there is no configuration file",
    },
];
