//! Lines that name a command that writes FILE, or say how FILE is written; of those for folders
//! only the ones at `fmt` and `fix` do.

use crate::counterparts::{Counterpart, FOLDERS, Place, SEVERAL, UNDO};
use crate::tracked::on_tracked_files;

/// Makes the line of an option for folders, which ends in this command.
macro_rules! for_folders {
    ($command:literal) => {
        on_tracked_files!(
            "folders are not searched; for the files that git tracks: ",
            " ",
            $command
        )
    };
}

pub fn writing_rows() -> &'static [Counterpart] {
    WRITING_ROWS
}

pub fn tracked_rows() -> &'static [Counterpart] {
    TRACKED_ROWS
}

/// Words whose line names a command that writes FILE, or says how FILE is written.
const WRITING_ROWS: &[Counterpart] = &[
    Counterpart {
        words: &["write", "w", "in-place", "i"],
        places: &[Place::Start],
        line: "tfk fmt -- FILE formats it in place; see tfk --help",
    },
    Counterpart {
        words: &["write", "w", "in-place", "i", "force"],
        places: &[Place::Fmt],
        line: "fmt writes FILE without it; see tfk fmt --help",
    },
    Counterpart {
        words: &["s"],
        places: &[Place::Fmt],
        line: "fmt only formats; tfk fix -- FILE simplifies, > /dev/null drops the names",
    },
    Counterpart {
        words: &["s"],
        places: &[Place::Start],
        line: "tfk fmt -- FILE formats, tfk lint -- FILE lints; see tfk --help",
    },
    Counterpart {
        words: &["fix"],
        places: &[Place::Start, Place::Lint],
        line: "tfk fix has the options of tfk lint, and fixes what it can; see tfk fix --help",
    },
    Counterpart {
        words: &["fix"],
        places: &[Place::Fmt],
        line: "tfk fix -- FILE fixes what it can; see tfk fix --help",
    },
    Counterpart {
        words: &["write", "w", "in-place", "i", "fix"],
        places: &[Place::Fix],
        line: "fix writes FILE without it; see tfk fix --help",
    },
    Counterpart {
        words: &["write", "w", "in-place", "i"],
        places: UNDO,
        line: "revert writes FILE without it; see tfk revert --help",
    },
    Counterpart {
        words: FOLDERS,
        places: &[Place::Fix],
        line: "folders are not searched; \
            tfk fix --help has a line for the files of a folder that git tracks",
    },
    Counterpart {
        words: &["exclude"],
        places: &[Place::Fix],
        line: "name the files; \
            ':!:PATH' before the | of the line in tfk fix --help leaves out PATH",
    },
    Counterpart {
        words: &["recursive", "r", "R"],
        places: &[Place::Revert],
        line: SEVERAL,
    },
    Counterpart {
        words: &["all"],
        places: &[Place::Revert],
        line: "while tfk revert -- FILE; do :; done undoes all commands; see tfk revert --help",
    },
    Counterpart {
        words: &["to"],
        places: &[Place::Revert],
        line: "run tfk revert -- FILE until tfk revert --list -- FILE ends with the one to keep",
    },
    Counterpart {
        words: &["all", "to"],
        places: &[Place::Take],
        line: "--take N undoes command N alone; see tfk revert --help",
    },
    Counterpart {
        words: &["take"],
        places: &[Place::Start],
        line: "a command comes first: tfk revert --take N -- FILE; see tfk revert --help",
    },
    Counterpart {
        words: &["undo", "restore", "rollback"],
        places: &[
            Place::Command,
            Place::Start,
            Place::Fmt,
            Place::Fix,
            Place::Revert,
            Place::Take,
        ],
        line: "tfk revert undoes what fmt and fix changed; see tfk revert --help",
    },
    Counterpart {
        words: &["t"],
        places: UNDO,
        line: "write --take",
    },
];

/// Options for folders: the line for all files that git tracks.
const TRACKED_ROWS: &[Counterpart] = &[
    Counterpart {
        words: FOLDERS,
        places: &[Place::Start],
        line: on_tracked_files!(
            "folders are not searched, and a command comes first: ",
            " ",
            "lint --"
        ),
    },
    Counterpart {
        words: FOLDERS,
        places: &[Place::Fmt],
        line: for_folders!("fmt --"),
    },
    Counterpart {
        words: FOLDERS,
        places: &[Place::Check],
        line: for_folders!("fmt --check --"),
    },
    Counterpart {
        words: FOLDERS,
        places: &[Place::Lint],
        line: for_folders!("lint --"),
    },
    Counterpart {
        words: FOLDERS,
        places: &[Place::Fix],
        line: for_folders!("fix --"),
    },
];
