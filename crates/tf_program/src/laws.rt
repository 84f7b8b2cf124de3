//! What runs of the program do to a file, one after another. The function does nothing: its clause is
//! the law.

ghost use Rattle.tf_program.specs.ProgramRuns.{ProgramRunsAreOneRun};

use tf_session::journal_laws::{
    invocations_are_history_run, invocations_are_stack_run, invocations_step_files,
};

/// What runs of the program do to a file that had no journal, whatever their arguments, is one run of
/// the stack of whole texts, or with takes of the layers of edits, over the commands that they do to
/// it; none is left out if no run ends with an error.
pub fn program_runs_are_one_run()
    ensures { ProgramRunsAreOneRun }
{
    invocations_step_files();
    invocations_are_stack_run();
    invocations_are_history_run();
}
