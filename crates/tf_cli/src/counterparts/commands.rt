//! Options and commands of tfk that are written otherwise, and words in a command's place.

use crate::counterparts::{ANY, COMMANDS, Counterpart, LISTED, Place, REVERT};

/// The options of commands that have no rules.
const WITHOUT_RULES: &[Place] = &[
    Place::Fmt,
    Place::Check,
    Place::Revert,
    Place::Take,
    Place::List,
];

const VERSION: &str = "tfk --version prints it";

pub fn own_rows() -> &'static [Counterpart] {
    OWN_ROWS
}

pub fn command_rows() -> &'static [Counterpart] {
    COMMAND_ROWS
}

/// Options of tfk, with a value that they don't have, before a command, shortened, or of another
/// command.
const OWN_ROWS: &[Counterpart] = &[
    Counterpart {
        words: &["check=true"],
        places: &[Place::Fmt, Place::Check],
        line: "write --check",
    },
    Counterpart {
        words: &["check=false", "diff=false", "d=false", "dry-run=false"],
        places: COMMANDS,
        line: "leave it out",
    },
    Counterpart {
        words: &["list=true", "l", "history", "status"],
        places: REVERT,
        line: "write --list",
    },
    Counterpart {
        words: &["list=false"],
        places: REVERT,
        line: "leave it out",
    },
    Counterpart {
        words: &["locate=true"],
        places: COMMANDS,
        line: "write --locate",
    },
    Counterpart {
        words: &["locate=false"],
        places: COMMANDS,
        line: "leave it out",
    },
    Counterpart {
        words: &["locate"],
        places: &[Place::Start],
        line: "a command comes first: tfk lint --locate -- FILE; see tfk --help",
    },
    Counterpart {
        words: &["disable-rule"],
        places: &[Place::Start],
        line: "a command comes first: tfk lint --disable-rule RULE -- FILE; see tfk lint --help",
    },
    Counterpart {
        words: &["enable-rule"],
        places: &[Place::Start],
        line: "a command comes first: tfk lint --enable-rule RULE -- FILE; see tfk lint --help",
    },
    Counterpart {
        words: &["list"],
        places: &[Place::Lint, Place::Fix],
        line: "only revert has it; see tfk revert --help",
    },
    Counterpart {
        words: &["take"],
        places: &[Place::Fmt, Place::Check, Place::Lint, Place::Fix],
        line: "only revert has it; see tfk revert --help",
    },
    Counterpart {
        words: &[
            "disable-rule",
            "enable-rule",
            "only",
            "rule",
            "skip",
            "minimum-failure-severity",
            "severity",
        ],
        places: WITHOUT_RULES,
        line: "only lint and fix have rules; see tfk lint --help",
    },
];

/// Words in a command's place; some are options too.
const COMMAND_ROWS: &[Counterpart] = &[
    Counterpart {
        words: &["version", "v"],
        places: &[Place::Command, Place::Start],
        line: VERSION,
    },
    Counterpart {
        words: &["version"],
        places: COMMANDS,
        line: VERSION,
    },
    Counterpart {
        words: &["check", "c", "status"],
        places: &[Place::Command, Place::Start],
        line: "tfk fmt --check -- FILE checks the layout, tfk lint -- FILE reports issues",
    },
    Counterpart {
        words: &["format"],
        places: &[Place::Command],
        line: "the command is fmt; see tfk fmt --help",
    },
    Counterpart {
        words: &["undo", "restore", "rollback"],
        places: &[Place::Command],
        line: LISTED,
    },
    Counterpart {
        words: &["diff", "preview", "dry-run"],
        places: &[Place::Command],
        line: "tfk fmt - < FILE | diff -u -- FILE - shows what fmt would change; see tfk --help",
    },
    Counterpart {
        words: &["history"],
        places: &[Place::Command, Place::Start],
        line: "tfk revert --list -- FILE lists the commands that changed it; \
            see tfk revert --help",
    },
    Counterpart {
        words: &["list"],
        places: &[Place::Command, Place::Start],
        line: "tfk revert --list -- FILE lists the commands that changed it, \
            tfk lint --help the rules",
    },
    Counterpart {
        words: &["rules", "list-rules"],
        places: &[Place::Command],
        line: "tfk lint --help lists them",
    },
    Counterpart {
        words: &["list-rules"],
        places: ANY,
        line: "tfk lint --help lists them",
    },
    Counterpart {
        words: &["validate"],
        places: &[Place::Command],
        line: "tfk lint -- FILE reports syntax errors and issues; for more run terraform validate",
    },
    Counterpart {
        words: &["init", "plan", "apply", "destroy"],
        places: &[Place::Command],
        line: "init, validate, plan and apply are terraform's; tfk has fmt, lint, fix and revert; \
            see tfk --help",
    },
];
