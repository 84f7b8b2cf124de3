//! Laws of changes and of edits. The functions do nothing: a call makes a law's clause available to
//! the proof of its caller.
ghost use Rattle.std.specs.Prelude.{◌≡◌, ◌≤◌, ◌↔◌, List, ℕ, Ok, length, true};
ghost use Rattle.edit_record.specs.Lists.Pieces.{EditEntry, EditList, Piece, Transforms, old_text};
ghost use Rattle.edit_record.specs.Lists.Validity.{MakeIsExact, LengthsMatch, ApplyIsDeterministic};
ghost use Rattle.edit_record.specs.Lists.PieceEdits.{ChangesAreNonempty, PiecesTransform};
ghost use Rattle.edit_record.specs.Lists.PieceEdits.{PiecesMakeValidEdits};
ghost use Rattle.edit_record.specs.Lists.ChangeResults.{IsChangeResult, ChangeResultIsUnique};
ghost use Rattle.edit_record.specs.Lists.Journal.{JournalEntry, journal_forward, journal_backward};
ghost use Rattle.edit_record.specs.Lists.JournalResults.{IsJournalResult};
ghost use Rattle.edit_record.specs.Lists.Equality.{is_same_edit, is_same_list, is_same_record};
ghost use Rattle.edit_record.specs.Lists.Equality.{is_same_journal};
ghost use Rattle.edit_record.specs.declared.lists.edits.TheConstants.{MAX_TEXT};
ghost use Rattle.edit_record.specs.Lists.Apply.{apply_edits};
ghost use Rattle.edit_record.specs.declared.lists.direction.Direction.TheVariants.{Forward, Backward};

use crate::lists::{Change, Edits};

/// A text has a new one if and only if the change turns it into that.
pub fn apply_is_exact<C: Change>(change: &C)
    ensures { (t u : List ℕ) → (C.forward change.now t ≡ Ok u) ↔ C.turns change.now t u }
{}

/// A text has an old one if and only if the change turns that into it.
pub fn undo_is_exact<C: Change>(change: &C)
    ensures { (t u : List ℕ) → (C.backward change.now u ≡ Ok t) ↔ C.turns change.now t u }
{}

/// A change is one-to-one: the old text determines the new one, and the new text determines the old
/// one.
pub fn change_is_one_to_one<C: Change>(change: &C)
    ensures new { (t u v : List ℕ) → C.turns change.now t u → C.turns change.now t v → u ≡ v }
    ensures old { (t u v : List ℕ) → C.turns change.now t v → C.turns change.now u v → t ≡ u }
{}

/// States what `apply` and `undo` of edits return: the other text; else `Length` if the length
/// differs; else `Differs` with the number of the first edit whose bytes the text does not have.
pub fn edit_results_are_exact(edits: &Edits)
    ensures forward { (t : List ℕ)
        → IsChangeResult Forward edits.now t (apply_edits Forward edits.now t) }
    ensures backward { (u : List ℕ)
        → IsChangeResult Backward edits.now u (apply_edits Backward edits.now u) }
{}

/// What edits return for a text is unique: a text that they refuse has no text on the other side,
/// and is refused for one reason.
pub fn change_result_is_unique()
    ensures { ChangeResultIsUnique }
{}

/// What applying and undoing a journal returns: the text on the other side, or why the first record
/// that refuses its input does so.
pub fn journal_results_are_exact()
    ensures forward { (rs : List JournalEntry) (t : List ℕ)
        → IsJournalResult Forward rs t (journal_forward rs t) }
    ensures backward { (rs : List JournalEntry) (u : List ℕ)
        → IsJournalResult Backward rs u (journal_backward rs u) }
{}

/// Edits turn texts of their old length into texts of their new length.
pub fn transformed_lengths_match()
    ensures { (e : EditList) (t u : List ℕ) → Transforms e t u → LengthsMatch e t u }
{}

/// Edits turn a text into one text at most.
pub fn apply_is_deterministic()
    ensures { ApplyIsDeterministic }
{}

/// `Edits::make` accepts edits if and only if they are in order, disjoint, not empty, and within
/// the limit.
pub fn make_is_exact()
    ensures { (old_len : ℕ) (es : List EditEntry) → MakeIsExact old_len es }
{}

/// Edits, lists, records and journals are equal by `==` if and only if clauses see one value.
pub fn equality_is_exact()
    ensures edits { (a b : EditEntry) → (is_same_edit a b ≡ true) ↔ (a ≡ b) }
    ensures lists { (a b : EditList) → (is_same_list a b ≡ true) ↔ (a ≡ b) }
    ensures records { (a b : JournalEntry) → (is_same_record a b ≡ true) ↔ (a ≡ b) }
    ensures journals { (a b : List JournalEntry) → (is_same_journal a b ≡ true) ↔ (a ≡ b) }
{}

/// The changed pieces of a text turn it into the new text.
pub fn pieces_transform()
    ensures { (ps : List Piece) → PiecesTransform ps }
{}

/// `Edits::make` accepts the changed pieces of a text within the limit, if none of them is empty on
/// both sides, and the new text is within the limit too; else the new text is too long.
pub fn pieces_make_valid_edits()
    ensures { (ps : List Piece) → ChangesAreNonempty ps → length (old_text ps) ≤ MAX_TEXT
        → PiecesMakeValidEdits ps }
{}
