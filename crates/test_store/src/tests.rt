//! The program over files in memory.

ghost use Rattle.std.specs.Prelude.{◌≡◌, Ok};

use crate::memory_files::{MemoryFiles, Name};
use std::alloc::Global;
use std::io::Print;
use std::process::Abort;
use tf_files::ReadFile;
use tf_program::{Streams, work_in};

/// What is taken of the runtime of a test.
pub trait Host: Abort + AllocGlobal + Print {}

impl<R: Abort + AllocGlobal + Print> Host for R {}

/// The value of a call that is to succeed.
fn given<T, E: Drop>(rt: &impl Host, answer: Result<T, E>) -> T
    ensures { answer ≡ Ok result }
{
    answer.ok().expect(rt, "a call failed")
}

/// A file with this text, and no journal.
fn file(rt: &impl Host, text: &str) -> ReadFile {
    ReadFile {
        text: given(rt, Vec::from_slice(rt.alloc(), text.as_bytes())),
        journal: Vec::new(rt.alloc()),
    }
}

/// A name of the file of this number.
fn name(rt: &impl Host, name: &str, file: usize) -> Name {
    Name {
        name: given(rt, String::from_str(rt.alloc(), name)),
        file,
    }
}

/// Three files: one is not formatted and has a second name, one does not parse, one has an issue.
fn three_files(rt: &impl Host) -> MemoryFiles {
    let alloc = rt.alloc();
    let mut files = Vec::new(alloc);
    given(rt, files.push(file(rt, "a=1\n")));
    given(rt, files.push(file(rt, "a = \n")));
    given(rt, files.push(file(rt, "b={ }\n")));
    let mut names = Vec::new(alloc);
    given(rt, names.push(name(rt, "a.tf", 0)));
    given(rt, names.push(name(rt, "link.tf", 0)));
    given(rt, names.push(name(rt, "bad.tf", 1)));
    given(rt, names.push(name(rt, "b.tf", 2)));
    MemoryFiles {
        files,
        names,
        refused: 9,
    }
}

/// What a run has returned and printed.
#[derive(Drop)]
struct Ran {
    status: u8,
    output: Vec<u8>,
    errors: Vec<u8>,
}

/// Runs the program with these arguments over files in memory.
fn run(rt: &impl Host, files: &mut MemoryFiles, words: &[&str]) -> Ran {
    let alloc = rt.alloc();
    let mut args = Vec::new(alloc);
    for word in words {
        given(rt, args.push(given(rt, String::from_str(alloc, word))));
    }
    let mut streams = Streams::new(b"".as_slice(), Vec::new(alloc), Vec::new(alloc));
    let status = work_in(files, alloc, &args, &mut streams);
    let Streams { output, errors, .. } = streams;
    Ran {
        status,
        output: output.into_inner(),
        errors: errors.into_inner(),
    }
}

/// A run has ended with this status, and has printed these lines.
fn assert_ran(rt: &impl Host, ran: &Ran, status: u8, output: &str, errors: &str) {
    assert!(rt; ran.status == status, "another status");
    assert!(rt;
        ran.output.as_slice() == output.as_bytes(),
        "other lines on standard output"
    );
    assert!(rt;
        ran.errors.as_slice() == errors.as_bytes(),
        "other lines on standard error"
    );
}

/// The file of this number has this text.
fn assert_text(rt: &impl Host, files: &MemoryFiles, number: usize, text: &str) {
    let file = files.files.get(number).expect(rt, "no such file");
    assert!(rt; file.text.as_slice() == text.as_bytes(), "another text");
}

#[test]
fn an_error_stops_no_other_file(rt: HostRuntime) {
    let mut files = three_files(&rt);
    let ran = run(
        &rt,
        &mut files,
        &["fmt", "a.tf", "bad.tf", "b.tf", "absent.tf"],
    );
    assert_ran(
        &rt,
        &ran,
        1,
        "a.tf\nb.tf\n",
        "tfk: bad.tf: byte 4: syntax error\ntfk: absent.tf: cannot read\n",
    );
    assert_text(&rt, &files, 0, "a = 1\n");
    assert_text(&rt, &files, 1, "a = \n");
    assert_text(&rt, &files, 2, "b = {}\n");
}

#[test]
fn a_file_that_is_not_saved_stays(rt: HostRuntime) {
    let mut files = three_files(&rt);
    files.refused = 0;
    let ran = run(&rt, &mut files, &["fmt", "a.tf", "b.tf"]);
    assert_ran(
        &rt,
        &ran,
        1,
        "b.tf\n",
        "tfk: a.tf: cannot write, 0 bytes sent\n",
    );
    assert_text(&rt, &files, 0, "a=1\n");
    assert_text(&rt, &files, 2, "b = {}\n");
}

/// A name that leads to a file which was changed before is read after that is saved.
#[test]
fn two_names_lead_to_one_file(rt: HostRuntime) {
    let mut files = three_files(&rt);
    let ran = run(&rt, &mut files, &["fmt", "b.tf", "a.tf", "link.tf"]);
    assert_ran(&rt, &ran, 0, "b.tf\na.tf\n", "");
    assert_text(&rt, &files, 0, "a = 1\n");
    assert_ran(
        &rt,
        &run(&rt, &mut files, &["revert", "--list", "a.tf"]),
        0,
        "1 fmt 2 edits\n",
        "",
    );
    assert_ran(
        &rt,
        &run(&rt, &mut files, &["revert", "link.tf"]),
        0,
        "",
        "",
    );
    assert_text(&rt, &files, 0, "a=1\n");
    assert_text(&rt, &files, 2, "b = {}\n");
}

#[test]
fn what_changes_no_file_is_printed(rt: HostRuntime) {
    let mut files = three_files(&rt);
    let ran = run(&rt, &mut files, &["fmt", "--check", "a.tf", "b.tf"]);
    assert_ran(&rt, &ran, 3, "a.tf\nb.tf\n", "");
    assert_text(&rt, &files, 0, "a=1\n");
}
