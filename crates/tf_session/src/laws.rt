//! Laws of the machines that `run` is proved to be. The functions do nothing: a call makes a law's
//! clause available to the proof of its caller.

ghost use Rattle.std.specs.Prelude.{ℕ};
ghost use Rattle.tf_session.specs.ResultIsUnique.{CommandResultIsUnique};
ghost use Rattle.tf_session.specs.Session.{SessionContents};
ghost use Rattle.tf_session.specs.FmtLaws.{FmtKeepsTokens, FmtIsIdempotent};
ghost use Rattle.tf_session.specs.JournalLaws.{JournalSquashesToOne};
ghost use Rattle.tf_session.specs.TakeLaws.{CommandResultIsUniqueOverLayers, TakeResultIsUnique};
ghost use Rattle.tf_session.specs.TakeLaws.{TakePreservesHistory, RevertsRestoreTheFirstAfterTakes};
ghost use Rattle.tf_session.specs.TakeLaws.{OutOfMemoryChangesNothingOverLayers};
ghost use Rattle.tf_session.specs.TakeLaws.{JournalSquashesToOneAfterTakes};
ghost use Rattle.tf_session.specs.TakeLaws.{TakeResultIsUniqueOverRecords, LastTakeIsRevert};
ghost use Rattle.tf_session.specs.MachinesAgree.{MachinesAgreeWithoutTake};
ghost use Rattle.tf_session.specs.RunLaws.{OutOfMemoryChangesNothing, RevertsPop, RevertsRestoreTheFirst};

use edit_record::laws::{
    apply_is_deterministic, change_result_is_unique, composable_lists_squash,
    move_to_end_is_unique, squash_all_is_unique, swap_is_unique, transformed_lengths_match,
};
use hcl_layout::laws::{layout_keeps_tokens, layout_of_layout, one_layout};
use hcl_scan::laws::{no_tokenization_with_fault, one_fault, one_tokenization};
use tf_lint::laws::{fix_has_edits, fix_is_unique};

/// A command that ran out of memory might as well not be in the list.
pub fn out_of_memory_changes_nothing()
    ensures { OutOfMemoryChangesNothing }
{}

/// Reverts pop exactly the last texts, one each, byte for byte.
pub fn reverts_pop_the_last()
    ensures { RevertsPop }
{}

/// After any commands enough reverts give back the first bytes.
pub fn reverts_restore_the_first_text()
    ensures { RevertsRestoreTheFirst }
{}

/// A command over a stack of texts has at most one reply, but for which `Parse` error it is, and
/// leaves at most one stack.
pub fn command_result_is_unique()
    ensures { CommandResultIsUnique }
{
    one_tokenization();
    no_tokenization_with_fault();
    one_fault();
    one_layout();
    fix_is_unique();
}

/// If a fmt returns `Done`, the new text has the tokens of the old one, comments and line ends
/// among them.
pub fn fmt_keeps_tokens()
    ensures { FmtKeepsTokens }
{
    layout_keeps_tokens();
}

/// A fmt after a fmt changes nothing.
pub fn fmt_is_idempotent()
    ensures { FmtIsIdempotent }
{
    layout_of_layout();
}

/// The records of the journal of any run, squashed from the first on, are one list of edits, which
/// turns the first text into the last. On the way squashing fails only if memory runs out.
pub fn journal_squashes_to_one()
    ensures { JournalSquashesToOne }
{
    transformed_lengths_match();
    composable_lists_squash();
    squash_all_is_unique();
}

/// Without take among the commands, the machine that keeps the edits is the machine of whole texts.
pub fn machines_agree_without_take()
    ensures { MachinesAgreeWithoutTake }
{
    fix_has_edits();
}

/// What a take leaves is a history again, whose text is the one before it without what the command
/// did.
pub fn take_preserves_history()
    ensures { TakePreservesHistory }
{
    move_to_end_is_unique();
    apply_is_deterministic();
}

/// A take has at most one reply, and leaves at most one history.
pub fn take_result_is_unique()
    ensures { TakeResultIsUnique }
{
    swap_is_unique();
    move_to_end_is_unique();
    apply_is_deterministic();
}

/// A take over any text and journal, from outside too, has one result, memory aside: it is not both
/// done and refused, and it is refused for one reason.
pub fn take_result_is_unique_over_records()
    ensures { (n : ℕ) (contents : SessionContents) → TakeResultIsUniqueOverRecords n contents }
{
    swap_is_unique();
    move_to_end_is_unique();
    change_result_is_unique();
}

/// A take of the last record is a revert, over any text and journal.
pub fn last_take_is_revert()
    ensures { (contents : SessionContents) → LastTakeIsRevert contents }
{}

/// A command over a first text with its layers of edits has at most one reply, but for which
/// `Parse` error it is, and leaves at most one history.
pub fn command_result_is_unique_over_layers()
    ensures { CommandResultIsUniqueOverLayers }
{
    one_tokenization();
    no_tokenization_with_fault();
    one_fault();
    one_layout();
    fix_is_unique();
    swap_is_unique();
    move_to_end_is_unique();
    apply_is_deterministic();
}

/// A command that ran out of memory might as well not be in the list, with takes in the list too.
pub fn out_of_memory_changes_nothing_over_layers()
    ensures { OutOfMemoryChangesNothingOverLayers }
{}

/// After any commands, takes among them, enough reverts give back the first bytes.
pub fn reverts_restore_the_first_text_after_takes()
    ensures { RevertsRestoreTheFirstAfterTakes }
{}

/// The records of the journal of any run, takes among its commands, are one list of edits from the
/// first text to the last.
pub fn journal_squashes_to_one_after_takes()
    ensures { JournalSquashesToOneAfterTakes }
{
    transformed_lengths_match();
    composable_lists_squash();
    squash_all_is_unique();
}
