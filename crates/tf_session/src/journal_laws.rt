//! Laws of texts with their journals. The functions do nothing: a call makes a law's clause
//! available to the proof of its caller.

ghost use Rattle.tf_session.specs.Invocations.{InvocationsAreStackRun, InvocationsAreHistoryRun};
ghost use Rattle.tf_session.specs.Invocations.{InvocationsStepFiles, LimitsChangeNothing};
ghost use Rattle.tf_session.specs.Layers.{HistoryStep};
ghost use Rattle.tf_session.specs.Machine.{StackStep};
ghost use Rattle.tf_session.specs.RevertRestores.{RevertRestores, RevertSucceeds};

use edit_record::laws::{
    change_result_is_unique, move_to_end_is_unique, text_is_unambiguous, transformed_lengths_match,
};

/// A fmt or a fix that changed the text, and then a revert over what it wrote, give the first text
/// and the journal as it was read.
pub fn revert_restores_text_and_journal()
    ensures { RevertRestores }
{
    text_is_unambiguous();
}

/// After a fmt or a fix that changed the text, a revert over what it wrote fails only if memory
/// runs out, or a read or a write fails.
pub fn revert_fails_only_from_outside()
    ensures { RevertSucceeds }
{
    change_result_is_unique();
    text_is_unambiguous();
}

/// Fmt, fix and revert on a file that has no journal, each on what the one before it saved, are one
/// run of the stack of whole texts: text and results are those of `run`, and the journal is one that
/// the next command can read. A command that ran out of memory, or whose journal would be too long,
/// might as well not have been given.
pub fn invocations_are_stack_run()
    ensures { InvocationsAreStackRun }
{}

/// What `invoke` does to any file is, for a file whose journal was saved, what it is said to do to
/// such a file.
pub fn invocations_step_files()
    ensures { InvocationsStepFiles }
{
    text_is_unambiguous();
    change_result_is_unique();
}

/// A command that ended at a limit might as well not have been given: of each such run the others,
/// alone, are a run of the machine, with its replies.
pub fn limits_change_nothing()
    ensures stack { LimitsChangeNothing StackStep }
    ensures layers { LimitsChangeNothing HistoryStep }
{}

/// Fmt, fix, revert and take on a file that has no journal, each on what the one before it saved,
/// are one run of the layers of edits.
pub fn invocations_are_history_run()
    ensures { InvocationsAreHistoryRun }
{
    text_is_unambiguous();
    change_result_is_unique();
    move_to_end_is_unique();
    transformed_lengths_match();
}
