//! The program `tfk`, a formatter and linter for Terraform files: it hands its arguments, the files
//! of the system and its standard streams to `work` of tf_program.
#![tactic(auto)]

use std::io::ErrorKind;
use std::process::ExitCode;
use std::{env, io};
use tf_program::{Streams, work};

/// Runs the program, and returns its exit status: that of [`work`], or 1 if the arguments can't be
/// read.
fn main(rt: HostRuntime) -> ExitCode {
    match args_of(&rt) {
        Ok(args) => ExitCode::from(work(
            &rt,
            rt.alloc(),
            args.as_slice(),
            &mut Streams::new(rt.stdin(), rt.stdout(), rt.stderr()),
        )),
        Err(error) => {
            let text = match error.kind() {
                ErrorKind::OutOfMemory => "out of memory",
                _ => "the command line is not UTF-8",
            };
            // if standard error takes nothing, the exit status still reports it
            let _ = eprintln!(rt; "tfk: {text}");
            ExitCode::FAILURE
        }
    }
}

/// Returns the arguments, without the name of the program.
fn args_of(rt: &HostRuntime) -> io::Result<Vec<String>> {
    let mut all_args = env::args(rt)?;
    let _program = all_args.next();
    let mut args = Vec::new(rt.alloc());
    for arg in all_args {
        args.push(arg)?;
    }
    Ok(args)
}
