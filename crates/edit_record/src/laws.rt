//! Laws of the text of journals. The functions do nothing: a call makes a law's clause available to
//! the proof of its caller.
ghost use Rattle.std.specs.Prelude.{◌≡◌, ◌↔◌, ◌++◌, List, ℕ};
ghost use Rattle.edit_record.specs.Lists.Journal.{JournalEntry, journal_transforms};
ghost use Rattle.edit_record.specs.Lists.Sequence.{TransformsInOrder};
ghost use Rattle.edit_record.specs.Decoding.{IsFirstError};
ghost use Rattle.edit_record.specs.declared.fault.TextError.{TextError};
ghost use Rattle.edit_record.specs.Text.{IsCurrentText, IsJournalText, OldRecord, MigrateAllTo};
ghost use Rattle.edit_record.specs.Text.{old_transforms};

pub use crate::lists::laws::{
    apply_is_deterministic, apply_is_exact, change_is_one_to_one, change_result_is_unique,
    edit_results_are_exact, equality_is_exact, journal_results_are_exact, make_is_exact,
    pieces_make_valid_edits, pieces_transform, transformed_lengths_match, undo_is_exact,
};
pub use crate::squashes::laws::{
    composable_lists_squash, edits_are_valid, squash_all_is_unique, squash_is_associative,
    squash_is_unique,
};
pub use crate::swaps::laws::{move_to_end_is_unique, swap_is_unique};

/// A text is the text of one journal at most, of either version.
pub fn text_is_unambiguous()
    ensures { (text : List ℕ) (rs ss : List JournalEntry) → IsJournalText text rs
        → IsJournalText text ss
        → rs ≡ ss }
{}

/// A text has one first error at most: memory aside, `decode` refuses it in one way.
pub fn first_error_is_unique()
    ensures { (text : List ℕ) (e f : TextError) → IsFirstError text e → IsFirstError text f
        → e ≡ f }
{}

/// If the text of some records, followed by more bytes, is the text of a journal, then the journal
/// begins with these records, and the bytes are the text of the others.
pub fn text_prefix_is_unambiguous()
    ensures { (prefix more : List ℕ) (rs ss : List JournalEntry) → IsCurrentText prefix rs
        → IsCurrentText (prefix ++ more) ss
        → (others : List JournalEntry) × (ss ≡ rs ++ others) × IsCurrentText more others }
{}

/// Old records and those that they migrate to turn the same texts into each other.
pub fn migration_preserves_meaning()
    ensures { (olds : List OldRecord) (rs : List JournalEntry) → MigrateAllTo olds rs
        → (t u : List ℕ)
        → journal_transforms rs t u ↔ TransformsInOrder old_transforms olds t u }
{}
