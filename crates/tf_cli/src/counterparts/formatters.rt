//! The options of formatters, and those for folders.

use crate::counterparts::{CHECKED, Counterpart, DRY_RUN, FOLDERS, FORMATTER, Place};

pub fn format_rows() -> &'static [Counterpart] {
    FORMAT_ROWS
}

pub fn folder_rows() -> &'static [Counterpart] {
    FOLDER_ROWS
}

/// The options of `terraform fmt`, gofmt, prettier and black.
const FORMAT_ROWS: &[Counterpart] = &[
    Counterpart {
        words: &["diff", "d"],
        places: FORMATTER,
        line: "tfk fmt - < FILE | diff -u -- FILE - shows the changes; see tfk fmt --help",
    },
    Counterpart {
        words: DRY_RUN,
        places: FORMATTER,
        line: CHECKED,
    },
    Counterpart {
        words: &["write", "w", "in-place", "i", "force"],
        places: &[Place::Check],
        line: "fmt --check writes nothing; see tfk fmt --help",
    },
    Counterpart {
        words: &["list", "format", "output-format", "f", "json"],
        places: &[Place::Fmt],
        line: "fmt prints the names of the files that it changes; see tfk fmt --help",
    },
    Counterpart {
        words: &["list", "format", "output-format", "f", "json"],
        places: &[Place::Check],
        line: "fmt --check prints the names of the files that are not formatted",
    },
    Counterpart {
        words: &["list=false", "quiet", "q", "silent"],
        places: &[Place::Fmt, Place::Check],
        line: "for no list of files add > /dev/null; see tfk fmt --help",
    },
    Counterpart {
        words: &["list=false"],
        places: &[Place::Start],
        line: "for no list of files add > /dev/null; see tfk fmt --help",
    },
    Counterpart {
        words: &["l", "list-different"],
        places: FORMATTER,
        line: "tfk fmt --check -- FILE prints FILE if it is not formatted; see tfk fmt --help",
    },
    Counterpart {
        words: &["s"],
        places: &[Place::Check],
        line: "tfk lint -- FILE reports what could be simpler, > /dev/null drops the names",
    },
    Counterpart {
        words: &["c"],
        places: &[Place::Fmt],
        line: "tfk fmt --check -- FILE checks the layout; there is no configuration file",
    },
];

/// Options for folders, if more is given, and for what is left out of them.
const FOLDER_ROWS: &[Counterpart] = &[
    Counterpart {
        words: FOLDERS,
        places: &[Place::Fmt, Place::Check],
        line: "folders are not searched; \
            tfk fmt --help has a line for the files of a folder that git tracks",
    },
    Counterpart {
        words: FOLDERS,
        places: &[Place::Start, Place::Lint],
        line: "folders are not searched; \
            tfk lint --help has a line for the files of a folder that git tracks",
    },
    Counterpart {
        words: &["exclude"],
        places: &[Place::Fmt, Place::Check],
        line: "name the files; \
            ':!:PATH' before the | of the line in tfk fmt --help leaves out PATH",
    },
    Counterpart {
        words: &["exclude"],
        places: &[Place::Start, Place::Lint],
        line: "name the files; \
            ':!:PATH' before the | of the line in tfk lint --help leaves out PATH",
    },
];
