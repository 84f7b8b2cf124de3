//! Summaries of attributes, labels and blocks, by what the rules on blocks look at.

ghost use Rattle.std.specs.Prelude.{◌≡◌, codes, IfOk};
ghost use Rattle.std.specs.Str.{bytes_eq};
ghost use Rattle.tf_glance.specs.Inner.SummaryMakers as spec;

use crate::block_type::{BlockType, block_type_of};
use crate::summary::{BodyContent, is_clean_description};
use hcl_scan::Scanned;
use std::alloc::AllocError;
use tf_rules::{Count, Value, is_snake_case, is_spelled, name_text, token_text};

/// The builder that makes summaries, in a member that is assumed to be a block of this type. It takes
/// no memory; `AllocError` says that a node is suspect, so that no more is read.
#[derive(Clone, Copy)]
pub struct Summaries<'s, 't> {
    pub scanned: &'s Scanned<'t>,
    pub block_type: BlockType,
}

/// Returns the summary of an attribute.
///
/// # Errors
///
/// If it is suspect: no more has to be read.
#[inline(always)]
fn attribute_if(clean: bool, typed: bool, described: bool) -> Result<BodyContent, AllocError>
    ensures { IfOk result (λ s. s ≡ spec.one_attribute clean typed described) }
{
    if clean {
        Ok(BodyContent {
            clean: true,
            complete: true,
            typed,
            described,
        })
    } else {
        Err(AllocError)
    }
}

/// Returns the summary of an attribute of a declaration.
///
/// # Errors
///
/// If it is suspect: no more has to be read.
fn declaration(name: &[u8], value: Value) -> Result<BodyContent, AllocError>
    ensures { IfOk result
        (λ s. s ≡ spec.declaration (bytes_eq name.now (codes "type"))
        (bytes_eq name.now (codes "description")) value) }
{
    let described = is_spelled(name, b"description");
    let clean = value.is_clean() && (!described || is_clean_description(value));
    attribute_if(clean, is_spelled(name, b"type"), described)
}

impl<'s, 't> Summaries<'s, 't> {
    /// Returns the summary of an attribute.
    ///
    /// # Errors
    ///
    /// If it is suspect: no more has to be read.
    #[inline(always)]
    pub fn attribute_content(&self, name: u32, value: Value) -> Result<BodyContent, AllocError>
        ensures { IfOk result
            (λ s. s ≡ spec.attribute self.now.scanned.now.pairs self.now.block_type name value) }
    {
        match self.block_type {
            BlockType::Locals => attribute_if(
                value.is_clean() && is_snake_case(token_text(self.scanned, name)),
                false,
                false,
            ),
            BlockType::Variable => declaration(token_text(self.scanned, name), value),
            BlockType::Output => declaration(token_text(self.scanned, name), value),
            _ => attribute_if(value.is_clean(), false, false),
        }
    }

    /// Returns whether no rule finds anything at the next label.
    #[inline(always)]
    pub fn is_clean_label(&self, labels: Count, name: Option<u32>) -> bool
        ensures { result ≡ spec.is_clean_label self.now.scanned.now.pairs self.now.block_type labels name }
    {
        !self.block_type.names_after(labels) || is_snake_case(name_text(self.scanned, name))
    }

    /// Returns the summary of a block.
    #[inline(always)]
    pub fn block_content(&self, first: u32, labels: Count, content: BodyContent) -> BodyContent
        ensures { result
            ≡ spec.block self.now.scanned.now.pairs self.now.block_type first labels content }
    {
        let block_type = block_type_of(token_text(self.scanned, first));
        BodyContent {
            clean: content.clean && labels.is_clean(),
            complete: block_type.is_complete(self.block_type, content),
            typed: false,
            described: false,
        }
    }
}
