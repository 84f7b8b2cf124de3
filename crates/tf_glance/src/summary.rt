//! Summaries of nodes: of each, whether it is clean or suspect, and what the rules on the nodes
//! around it need. `Value`, `Count` and `Pieces` are of tf_rules. A node is clean if no rule finds
//! anything in it, suspect if one may.

ghost use Rattle.std.specs.Prelude.{◌≡◌, IfOk};
ghost use Rattle.tf_glance.specs.Inner.Summary as spec;
ghost use Rattle.tf_rules.specs.Summaries.{text_value};

use std::alloc::AllocError;
use tf_rules::{Count, Pieces, Value, may_find_at_operand, may_find_at_quoted};

/// The summary of a part of a template.
#[derive(Clone, Copy)]
pub enum Piece {
    /// A rule may find something in it.
    Suspect,
    /// It is no interpolation.
    Other,
    Interpolation,
}

/// The summary of some attributes and blocks.
#[derive(Clone, Copy)]
pub struct BodyContent {
    /// No rule on nodes finds anything in them.
    pub clean: bool,
    /// It is an attribute, or a block at which no rule on blocks finds anything.
    pub complete: bool,
    /// There is an attribute `type`, if such are looked for.
    pub typed: bool,
    /// There is an attribute `description`, if such are looked for.
    pub described: bool,
}

/// Whether no rule finds anything in it as an operand of an operator, or at the operator.
#[inline(always)]
pub fn is_clean_operand(operand: Value) -> bool
    ensures { result ≡ spec.is_clean_operand operand }
{
    operand.is_clean() && !may_find_at_operand(operand)
}

/// Whether no rule finds anything in it as a description.
#[inline(always)]
pub fn is_clean_description(value: Value) -> bool
    ensures { result ≡ spec.is_clean_description value }
{
    match value {
        Value::Suspect | Value::EmptyText => false,
        _ => true,
    }
}

/// Whether no rule finds anything in an expression, if there is one.
#[inline(always)]
pub fn is_clean_option(value: Option<Value>) -> bool
    ensures { result ≡ spec.is_clean_option value }
{
    match value {
        None => true,
        Some(value) => value.is_clean(),
    }
}

/// Returns what is neither `[]` nor `""`.
///
/// # Errors
///
/// If it is suspect: no more has to be read.
#[inline(always)]
pub fn plain_if(is_clean: bool) -> Result<Value, AllocError>
    ensures { IfOk result (λ s. s ≡ spec.plain_if is_clean) }
{
    if is_clean {
        Ok(Value::Plain)
    } else {
        Err(AllocError)
    }
}

/// Returns the number with one more.
#[inline(always)]
fn next_count(count: Count) -> Count
    ensures { result ≡ spec.next_count count }
{
    match count {
        Count::Suspect => Count::Suspect,
        Count::Zero => Count::One,
        Count::One => Count::Two,
        Count::Two => Count::Many,
        Count::Many => Count::Many,
    }
}

/// Returns the number with one more.
///
/// # Errors
///
/// If it is suspect: no more has to be read.
#[inline(always)]
pub fn add_one(count: Count, is_clean: bool) -> Result<Count, AllocError>
    ensures { IfOk result (λ s. s ≡ spec.add_one count is_clean) }
{
    if is_clean {
        Ok(next_count(count))
    } else {
        Err(AllocError)
    }
}

/// Returns the first operand of operators.
///
/// # Errors
///
/// If it is suspect: no more has to be read.
#[inline(always)]
fn first_operand(value: Value) -> Result<Value, AllocError>
    ensures { IfOk result (λ s. s ≡ spec.first_operand value) }
{
    if is_clean_operand(value) {
        Ok(value)
    } else {
        Err(AllocError)
    }
}

/// Returns a chain of an operand and operators.
///
/// # Errors
///
/// If it is suspect: no more has to be read.
#[inline(always)]
pub fn chain(head: Value, operations: Count) -> Result<Value, AllocError>
    ensures { IfOk result (λ s. s ≡ spec.chain head operations) }
{
    match operations {
        Count::Suspect => Err(AllocError),
        Count::Zero => Ok(head),
        _ => first_operand(head),
    }
}

/// Returns a list of these elements.
#[inline(always)]
pub fn tuple(elements: Count) -> Value
    ensures { result ≡ spec.tuple elements }
{
    match elements {
        Count::Suspect => Value::Suspect,
        Count::Zero => Value::EmptyList,
        _ => Value::Plain,
    }
}

/// Returns the parts with one more.
#[inline(always)]
pub fn add_piece(pieces: Pieces, piece: Piece) -> Pieces
    ensures { result ≡ spec.add_piece pieces piece }
{
    match pieces {
        Pieces::Suspect => Pieces::Suspect,
        Pieces::Empty => match piece {
            Piece::Suspect => Pieces::Suspect,
            Piece::Other => Pieces::Mixed,
            Piece::Interpolation => Pieces::Sole,
        },
        _ => match piece {
            Piece::Suspect => Pieces::Suspect,
            _ => Pieces::Mixed,
        },
    }
}

/// Whether no rule finds anything in a template, if there is one.
#[inline(always)]
pub fn is_clean_template_option(template: Option<Pieces>) -> bool
    ensures { result ≡ spec.is_clean_pieces_option template }
{
    match template {
        None => true,
        Some(template) => template.is_clean(),
    }
}

/// Returns quoted text with these parts, of which none is suspect.
#[inline(always)]
fn text_value(template: Pieces) -> Value
    ensures { result ≡ text_value template }
{
    match template {
        Pieces::Empty => Value::EmptyText,
        _ => Value::Plain,
    }
}

/// Returns a quoted text with these parts.
///
/// # Errors
///
/// If it is suspect: no more has to be read.
#[inline(always)]
pub fn quoted(template: Pieces) -> Result<Value, AllocError>
    ensures { IfOk result (λ s. s ≡ spec.quoted template) }
{
    if template.is_clean() && !may_find_at_quoted(template) {
        Ok(text_value(template))
    } else {
        Err(AllocError)
    }
}

/// Returns an interpolation.
///
/// # Errors
///
/// If it is suspect: no more has to be read.
#[inline(always)]
pub fn interpolation(is_clean: bool) -> Result<Piece, AllocError>
    ensures { IfOk result (λ s. s ≡ spec.interpolation is_clean) }
{
    if is_clean {
        Ok(Piece::Interpolation)
    } else {
        Err(AllocError)
    }
}

/// Returns a directive.
///
/// # Errors
///
/// If it is suspect: no more has to be read.
#[inline(always)]
pub fn directive(is_clean: bool) -> Result<Piece, AllocError>
    ensures { IfOk result (λ s. s ≡ spec.directive is_clean) }
{
    if is_clean {
        Ok(Piece::Other)
    } else {
        Err(AllocError)
    }
}

impl BodyContent {
    /// Whether no rule finds anything in it, or at it.
    #[inline(always)]
    pub fn is_without_findings(self) -> bool
        ensures { result ≡ spec.is_without_findings self }
    {
        self.clean && self.complete
    }
}

/// Returns no attributes and blocks.
#[inline(always)]
pub fn no_content() -> BodyContent
    ensures { result ≡ spec.no_content }
{
    BodyContent {
        clean: true,
        complete: true,
        typed: false,
        described: false,
    }
}

/// Returns these attributes and blocks, and those after them.
///
/// # Errors
///
/// If they are suspect: no more has to be read.
#[inline(always)]
pub fn joined(content: BodyContent, more: BodyContent) -> Result<BodyContent, AllocError>
    ensures { IfOk result (λ s. s ≡ spec.joined content more) }
{
    if content.clean && more.clean {
        Ok(BodyContent {
            clean: true,
            complete: true,
            typed: content.typed || more.typed,
            described: content.described || more.described,
        })
    } else {
        Err(AllocError)
    }
}
