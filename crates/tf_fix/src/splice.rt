//! The edits of replacements, in one pass over these.

ghost use Rattle.std.specs.Prelude.{◌≡◌, ◌≤◌, ◌+◌, ◌*◌, length, take, slice_range, IfOk};
ghost use Rattle.edit_record.specs.Lists.Pieces.{changed_entries};
ghost use Rattle.tf_fix.specs.Edits.Parts.{parts, text_of_parts, boundary_index};
ghost use Rattle.tf_fix.specs.Edits.FindingReplacements.{pairs_parts};
ghost use Rattle.tf_fix.specs.Insertions.{inserted};
ghost use Rattle.tf_fix.specs.Edits.Replacements.{AreReplacementsInOrder, added, replaced_pieces};
ghost use Rattle.tf_fix.specs.Inner.Views.{next_index, prev_view, replacement_parts, HasByte, replacements};
ghost use Rattle.tf_fix.specs.Inner.Views.{HaveBytes};

use crate::boundary::{Boundary, offset, text_between};
use crate::insertion::{added_text, prev_after_insertion};
use crate::packed::PackedReplacement;
use crate::prev_token::{PrevToken, is_glued, prev_before};
use edit_record::lists::Edit;
use hcl_scan::Scanned;
use std::alloc::{AllocError, Global};
use tf_rules::Insertion;

/// The parts from one place to another are replaced by `insertion`. `first` is the number of the
/// finding's first token.
#[derive(Clone, Copy)]
pub struct Replacement {
    pub from: Boundary,
    pub to: Boundary,
    pub first: u32,
    pub insertion: Insertion,
}

/// Returns the place where the next replacement begins, or the end of the text if none is left.
fn next_boundary(scanned: &Scanned<'_>, rest: &[PackedReplacement]) -> Boundary
    ensures { boundary_index result
        ≡ next_index (2 * length scanned.now.pairs + 1) (replacements scanned.now.pairs rest.now) }
{
    match rest.first() {
        Some(next) => next.unpack().from,
        None => Boundary::Token(scanned.count()),
    }
}

/// Returns the text that a replacement adds after `prev`, if the parts from `one.to` up to `end`
/// follow it: with a space before or after it where tokens would join.
fn settled_text(
    alloc: Global,
    scanned: &Scanned<'_>,
    prev: PrevToken<'_>,
    one: Replacement,
    end: Boundary,
) -> Result<Vec<u8>, AllocError>
    requires order { boundary_index one.to ≤ boundary_index end }
    requires within { boundary_index end ≤ 2 * length scanned.now.pairs + 1 }
    requires byte { HasByte scanned.now.pairs one.first }
    ensures { IfOk result
        (λ text. text.items
        ≡ added (prev_view prev.entry)
        (pairs_parts (inserted scanned.now.pairs one.first one.insertion))
        (slice_range (parts scanned.now) (boundary_index one.to) (boundary_index end))) }
{
    let mut text = added_text(alloc, scanned, prev, one)?;
    let last = prev_after_insertion(prev, one.insertion);
    if is_glued(scanned, last, one.to, end) {
        text.push(b' ')?;
    }
    Ok(text)
}

/// Returns the edit of a replacement after `prev`, if the parts from its end up to `end` follow it.
#[tactic(auto, using(crate::proofs::InsertionLemmas::insertion_added))]
fn replacement_edit(
    alloc: Global,
    scanned: &Scanned<'_>,
    prev: PrevToken<'_>,
    one: Replacement,
    end: Boundary,
) -> Result<Edit, AllocError>
    requires from { boundary_index one.from ≤ boundary_index one.to }
    requires to { boundary_index one.to ≤ boundary_index end }
    requires within { boundary_index one.to ≤ 2 * length scanned.now.pairs }
    requires end { boundary_index end ≤ 2 * length scanned.now.pairs + 1 }
    requires byte { HasByte scanned.now.pairs one.first }
    ensures at { IfOk result
        (λ edit. edit.at ≡ length (text_of_parts (take (boundary_index one.from) (parts scanned.now)))) }
    ensures removed { IfOk result
        (λ edit. edit.removed
        ≡ text_of_parts (slice_range (parts scanned.now) (boundary_index one.from) (boundary_index one.to))) }
    ensures added { IfOk result
        (λ edit. edit.added
        ≡ added (prev_view prev.entry)
        (replacement_parts scanned.now.pairs one.from one.to one.first one.insertion)
        (slice_range (parts scanned.now) (boundary_index one.to) (boundary_index end))) }
{
    let added = settled_text(alloc, scanned, prev, one, end)?;
    let removed = text_between(scanned, one.from, one.to);
    Edit::new(alloc, offset(scanned, one.from), removed, &added)
}

/// Returns the edits that make the replacements, one for each, in their order.
pub fn replacement_edits(
    alloc: Global,
    scanned: &Scanned<'_>,
    all: &[PackedReplacement],
) -> Result<Vec<Edit>, AllocError>
    requires order { AreReplacementsInOrder 0 (replacements scanned.now.pairs all.now)
        (2 * length scanned.now.pairs) }
    requires bytes { HaveBytes scanned.now.pairs all.now }
    ensures { IfOk result
        (λ edits. edits.items
        ≡ changed_entries 0 (replaced_pieces (parts scanned.now)
        (replacements scanned.now.pairs all.now))) }
{
    let mut edits = Vec::with_capacity(alloc, all.len())?;
    let mut prev = PrevToken::Nothing;
    let mut at = Boundary::Gap(0);
    let mut left = all;
    while let [first, rest @ ..] = left {
        let one = first.unpack();
        prev = prev_before(scanned, prev, at, one.from);
        edits.push(replacement_edit(alloc, scanned, prev, one, next_boundary(scanned, rest))?)?;
        prev = prev_after_insertion(prev, one.insertion);
        at = one.to;
        left = rest;
    }
    Ok(edits)
}
