//! The openings that are not closed, and what a token does to them.

ghost use Rattle.std.specs.Prelude.{◌≡◌, ◌+◌, ◌≤◌, ◌∷◌, ℕ, List, true, false, OnOk, drop, length};
ghost use Rattle.std.specs.List.{prefix_len};
ghost use Rattle.hcl_scan.specs.Modes as spec;
ghost use Rattle.hcl_scan.specs.Modes.{mode_of, is_braces, is_in_sequence, is_at_line_start, marker_of};
ghost use Rattle.hcl_scan.specs.Modes.{modes_after};
ghost use Rattle.hcl_scan.specs.Modes.Mode.{Sequence, Heredoc};
ghost use Rattle.hcl_scan.specs.Runs.{is_line_start_after};
ghost use Rattle.hcl_token.specs.declared.kind.Kind.TheVariants.{HereLit};
ghost use Rattle.hcl_scan.specs.Inner.OpeningPlaces.{opening_places_after, innermost_place};
ghost use Rattle.hcl_scan.specs.Inner.Openings.{mode_view, region_of, modes_of, places_of, with_line_start};
ghost use Rattle.hcl_scan.specs.Inner.Openings.{with_line_start_in, is_not_line_break};

use crate::bytes::{byte_at, slice};
use hcl_token::Kind;
use std::alloc::AllocError;

/// How the text at a place is read.
#[derive(Clone, Copy)]
pub enum Mode<'t> {
    /// Outside of every template.
    Expression,
    /// In a template sequence.
    Sequence,
    /// After a `{` in a template sequence.
    Braces,
    /// In quoted text.
    Quoted,
    /// In the text of a heredoc with this marker; whether a line of it begins here.
    Heredoc {
        marker: &'t [u8],
        at_line_start: bool,
    },
}

/// An opening that is not closed: where its token begins, in bytes from 0, and how the text after
/// it is read.
#[derive(Clone, Copy)]
pub struct Opening<'t> {
    pub at: usize,
    pub mode: Mode<'t>,
}

/// A mode without the marker of its heredoc: one byte, which the loop over tokens keeps.
#[derive(Clone, Copy)]
pub enum Region {
    Expression,
    Sequence,
    Braces,
    Quoted,
    Heredoc,
}

/// Returns the mode without its marker.
fn region_of(mode: Mode<'_>) -> Region
    ensures { result ≡ region_of (mode_view mode.entry) }
{
    match mode {
        Mode::Expression => Region::Expression,
        Mode::Sequence => Region::Sequence,
        Mode::Braces => Region::Braces,
        Mode::Quoted => Region::Quoted,
        Mode::Heredoc {
            marker: _,
            at_line_start: _,
        } => Region::Heredoc,
    }
}

/// Returns the region after the last of the openings.
fn region_after(openings: &[Opening<'_>]) -> Region
    ensures { result ≡ region_of (mode_of (modes_of openings.now)) }
{
    match openings.last() {
        Some(opening) => region_of(opening.mode),
        None => Region::Expression,
    }
}

/// Returns how the text after the last of the openings is read, which is in this region. Only a
/// heredoc is looked up.
pub fn mode_in<'t>(region: Region, openings: &Vec<Opening<'t>>) -> Mode<'t>
    requires { region ≡ region_of (mode_of (modes_of openings.now.items)) }
    ensures { mode_view result ≡ mode_of (modes_of openings.now.items) }
{
    match region {
        Region::Expression => Mode::Expression,
        Region::Sequence => Mode::Sequence,
        Region::Braces => Mode::Braces,
        Region::Quoted => Mode::Quoted,
        Region::Heredoc => mode_of(openings),
    }
}

/// Returns how the text after the last of the openings is read.
pub fn mode_of<'t>(openings: &[Opening<'t>]) -> Mode<'t>
    ensures { mode_view result ≡ mode_of (modes_of openings.now) }
{
    match openings.last() {
        Some(opening) => opening.mode,
        None => Mode::Expression,
    }
}

/// Whether a place of this mode is directly in a template sequence, or in braces of it.
fn is_in_sequence(mode: Mode<'_>) -> bool
    ensures { result ≡ is_in_sequence (mode_view mode.entry) }
{
    match mode {
        Mode::Sequence | Mode::Braces => true,
        _ => false,
    }
}

/// Whether a place of this mode is after a `{` in a template sequence.
fn is_braces(mode: Mode<'_>) -> bool
    ensures { result ≡ is_braces (mode_view mode.entry) }
{
    match mode {
        Mode::Braces => true,
        _ => false,
    }
}

/// Whether a place of this mode is at the start of a line of a heredoc.
fn is_at_line_start(mode: Mode<'_>) -> bool
    ensures { result ≡ is_at_line_start (mode_view mode.entry) }
{
    match mode {
        Mode::Heredoc {
            marker: _,
            at_line_start,
        } => at_line_start,
        _ => false,
    }
}

/// Returns the mode of a heredoc at a place where a line of it begins or not; any other mode as it
/// is.
fn with_line_start<'t>(mode: Mode<'t>, at_line_start: bool) -> Mode<'t>
    ensures { mode_view result ≡ with_line_start at_line_start (mode_view mode.entry) }
{
    match mode {
        Mode::Heredoc {
            marker,
            at_line_start: _,
        } => Mode::Heredoc {
            marker,
            at_line_start,
        },
        other => other,
    }
}

/// Whether a line begins after a text; `at_line_start` says whether one begins at its start.
fn is_line_start_after(at_line_start: bool, text: &[u8]) -> bool
    ensures { result ≡ is_line_start_after at_line_start text.now }
{
    if text.is_empty() {
        at_line_start
    } else {
        text[text.len() - 1] == b'\n'
    }
}

/// Returns the marker that the opening of a heredoc names.
fn marker_of(spelling: &[u8]) -> &[u8]
    ensures { result.now ≡ marker_of spelling.now }
{
    let from = if byte_at(spelling, 2) == b'-' { 3 } else { 2 };
    if from < spelling.len() {
        slice(spelling, from, marker_end(spelling, from))
    } else {
        &[]
    }
}

/// Whether a byte is neither LF nor CR.
fn is_not_line_break(b: u8) -> bool
    ensures { result ≡ is_not_line_break b }
{
    !((b == b'\n') | (b == b'\r'))
}

/// Returns the place of the first LF or CR from a place on, or the end of the text.
fn marker_end(text: &[u8], from: usize) -> usize
    requires { from ≤ length text.now }
    ensures value { result ≡ from + prefix_len is_not_line_break (drop from text.now) }
    ensures within { result ≤ length text.now }
{
    let mut at = from;
    while at < text.len() && is_not_line_break(text[at]) {
        at += 1;
    }
    at
}

/// Adds an opening whose token begins at byte `at`.
///
/// # Errors
///
/// Returns `AllocError` if memory runs out.
#[tactic(auto, using(crate::proofs::OpeningLemmas::opening_lemmas))]
fn push<'t>(openings: &mut Vec<Opening<'t>>, at: usize, mode: Mode<'t>) -> Result<(), AllocError>
    ensures modes { OnOk result
        (modes_of openings.new.items ≡ mode_view mode.entry ∷ modes_of openings.old.items) }
    ensures places { OnOk result
        (places_of openings.new.items ≡ at ∷ places_of openings.old.items) }
{
    openings.reserve(1)?;
    openings.push_reserved(Opening { at, mode });
    Ok(())
}

/// Removes the innermost opening, if there is one.
#[tactic(auto, using(crate::proofs::OpeningLemmas::opening_lemmas))]
fn pop<'t>(openings: &mut Vec<Opening<'t>>)
    ensures modes { modes_of openings.new.items ≡ drop 1 (modes_of openings.old.items) }
    ensures places { places_of openings.new.items ≡ drop 1 (places_of openings.old.items) }
{
    let _ = openings.pop();
}

/// Updates the innermost opening, if it is a heredoc, at a place where a line of it begins or not.
///
/// # Errors
///
/// Returns `AllocError` if memory runs out.
#[tactic(auto, using(crate::proofs::OpeningLemmas::opening_lemmas))]
fn set_line_start<'t>(
    openings: &mut Vec<Opening<'t>>,
    at_line_start: bool,
) -> Result<(), AllocError>
    ensures modes { OnOk result
        (modes_of openings.new.items
        ≡ with_line_start_in at_line_start (modes_of openings.old.items)) }
    ensures places { OnOk result (places_of openings.new.items ≡ places_of openings.old.items) }
{
    // for the proof: popped and pushed, by the clauses on the list of both calls
    match openings.pop() {
        Some(opening) => push(
            openings,
            opening.at,
            with_line_start(opening.mode, at_line_start),
        ),
        None => Ok(()),
    }
}

/// Adds a template sequence that begins at byte `at`.
///
/// # Errors
///
/// Returns `AllocError` if memory runs out.
#[inline(always)]
fn open_sequence<'t>(
    openings: &mut Vec<Opening<'t>>,
    region: Region,
    at: usize,
) -> Result<(), AllocError>
    requires { region ≡ region_of (mode_of (modes_of openings.old.items)) }
    ensures modes { OnOk result
        (modes_of openings.new.items
        ≡ Sequence ∷ with_line_start_in false (modes_of openings.old.items)) }
    ensures places { OnOk result
        (places_of openings.new.items ≡ at ∷ places_of openings.old.items) }
{
    match region {
        Region::Heredoc => open_sequence_in_heredoc(openings, at),
        _ => push(openings, at, Mode::Sequence),
    }
}

/// Adds a template sequence in a heredoc, where no line begins after it.
///
/// # Errors
///
/// Returns `AllocError` if memory runs out.
#[inline(never)]
fn open_sequence_in_heredoc<'t>(
    openings: &mut Vec<Opening<'t>>,
    at: usize,
) -> Result<(), AllocError>
    ensures modes { OnOk result
        (modes_of openings.new.items
        ≡ Sequence ∷ with_line_start_in false (modes_of openings.old.items)) }
    ensures places { OnOk result
        (places_of openings.new.items ≡ at ∷ places_of openings.old.items) }
{
    set_line_start(openings, false)?;
    push(openings, at, Mode::Sequence)
}

/// Adds a heredoc that begins at byte `at`, with the marker that its spelling names.
///
/// # Errors
///
/// Returns `AllocError` if memory runs out.
#[inline(never)]
fn open_heredoc<'t>(
    openings: &mut Vec<Opening<'t>>,
    spelling: &'t [u8],
    at: usize,
) -> Result<(), AllocError>
    ensures modes { OnOk result
        (modes_of openings.new.items
        ≡ Heredoc (marker_of spelling.now) true ∷ modes_of openings.old.items) }
    ensures places { OnOk result
        (places_of openings.new.items ≡ at ∷ places_of openings.old.items) }
{
    let marker = marker_of(spelling);
    let at_line_start = true;
    push(
        openings,
        at,
        Mode::Heredoc {
            marker,
            at_line_start,
        },
    )
}

/// Updates the innermost opening, a heredoc, after a piece of its text.
///
/// # Errors
///
/// Returns `AllocError` if memory runs out.
#[inline(never)]
fn continue_heredoc<'t>(openings: &mut Vec<Opening<'t>>, piece: &[u8]) -> Result<(), AllocError>
    ensures modes { OnOk result
        (modes_of openings.new.items
        ≡ modes_after HereLit piece.now (modes_of openings.old.items)) }
    ensures places { OnOk result (places_of openings.new.items ≡ places_of openings.old.items) }
{
    let at_line_start = is_line_start_after(is_at_line_start(mode_of(openings)), piece);
    set_line_start(openings, at_line_start)
}

/// Whether a token of the kind can do anything to the openings.
pub fn can_change_openings(kind: Kind) -> bool
    ensures modes { (spelling : List ℕ) (modes : List spec.Mode) → result ≡ false
        → modes_after kind spelling modes ≡ modes }
    ensures places { (at : ℕ) (modes : List spec.Mode) (places : List ℕ) → result ≡ false
        → opening_places_after kind at modes places ≡ places }
{
    matches!(
        kind,
        Kind::QuoteOpen
            | Kind::HereOpen
            | Kind::InterpOpen
            | Kind::DirectiveOpen
            | Kind::QuoteClose
            | Kind::HereClose
            | Kind::SeqClose
            | Kind::OpenBrace
            | Kind::CloseBrace
            | Kind::HereLit
    )
}

/// Whether a token of the kind can do anything to the openings in a mode: outside of every template
/// braces can't.
#[inline(always)]
pub fn can_change_openings_in(mode: Mode<'_>, kind: Kind) -> bool
    ensures modes { (spelling : List ℕ) (modes : List spec.Mode)
        → mode_view mode.entry ≡ mode_of modes
        → result ≡ false → modes_after kind spelling modes ≡ modes }
    ensures places { (at : ℕ) (modes : List spec.Mode) (places : List ℕ)
        → mode_view mode.entry ≡ mode_of modes → result ≡ false
        → opening_places_after kind at modes places ≡ places }
{
    match kind {
        Kind::OpenBrace | Kind::CloseBrace => !matches!(mode, Mode::Expression),
        _ => can_change_openings(kind),
    }
}

/// Updates the openings, and the region after the last of them, for a token of this kind and
/// spelling that begins at byte `at`.
///
/// # Errors
///
/// Returns `AllocError` if memory runs out.
pub fn update_openings<'t>(
    openings: &mut Vec<Opening<'t>>,
    region: &mut Region,
    kind: Kind,
    spelling: &'t [u8],
    at: usize,
) -> Result<(), AllocError>
    requires { region.old ≡ region_of (mode_of (modes_of openings.old.items)) }
    ensures modes { OnOk result
        (modes_of openings.new.items
        ≡ modes_after kind spelling.now (modes_of openings.old.items)) }
    ensures places { OnOk result
        (places_of openings.new.items
        ≡ opening_places_after kind at (modes_of openings.old.items)
        (places_of openings.old.items)) }
    ensures region { OnOk result
        (region.new ≡ region_of (mode_of (modes_of openings.new.items))) }
{
    match kind {
        Kind::QuoteOpen => {
            push(openings, at, Mode::Quoted)?;
            *region = Region::Quoted;
        }
        Kind::HereOpen => {
            open_heredoc(openings, spelling, at)?;
            *region = Region::Heredoc;
        }
        Kind::InterpOpen | Kind::DirectiveOpen => {
            open_sequence(openings, *region, at)?;
            *region = Region::Sequence;
        }
        Kind::QuoteClose | Kind::HereClose | Kind::SeqClose => {
            pop(openings);
            *region = region_after(openings);
        }
        Kind::OpenBrace => {
            if is_in_sequence(mode_in(*region, openings)) {
                push(openings, at, Mode::Braces)?;
                *region = Region::Braces;
            }
        }
        Kind::CloseBrace => {
            if is_braces(mode_in(*region, openings)) {
                pop(openings);
                *region = region_after(openings);
            }
        }
        Kind::HereLit => {
            continue_heredoc(openings, spelling)?;
            *region = region_after(openings);
        }
        _ => {}
    }
    Ok(())
}

/// Returns where the innermost template, or template sequence, begins, in bytes from 0; 0 if there
/// is none.
pub fn innermost_template_start(openings: &[Opening<'_>]) -> usize
    ensures { result ≡ innermost_place (modes_of openings.now) (places_of openings.now) }
{
    let mut i = openings.len();
    while i > 0 {
        i -= 1;
        let opening = openings[i];
        if !is_braces(opening.mode) {
            return opening.at;
        }
    }
    0
}
