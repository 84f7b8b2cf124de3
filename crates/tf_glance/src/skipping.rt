//! A clean member, skipped with no tree of it made.

ghost use Rattle.std.specs.Prelude.{◌≡◌, ◌≢◌, true, false, Ok, IfOk, IfErr};
ghost use Rattle.hcl_grammar.specs.declared.fault.TokenFault.TheVariants.{Memory};
ghost use Rattle.tf_glance.specs.CleanMember.{IsCleanMember, IsMemberFault};

use crate::block_type::{BlockType, block_type_of};
use crate::members::Summaries;
use hcl_grammar::fault::TokenFault;
use hcl_reader::Reader;
use hcl_scan::Scanned;
use hcl_token::Kind;
use std::alloc::Global;
use tf_rules::token_text;

/// Returns the type of the block that begins at this token, if it is no attribute. A wrong one costs
/// time alone.
fn assumed_type(scanned: &Scanned<'_>, n: u32) -> BlockType {
    let next = n as usize + 1;
    if next < scanned.len() && matches!(scanned.kind(next), Kind::Equal) {
        return BlockType::Other;
    }
    block_type_of(token_text(scanned, n))
}

/// Reads the next member, and returns whether there is one that is clean.
///
/// # Errors
///
/// That of the parser at the member; `Memory` if the member is suspect.
#[inline(always)]
fn is_clean_member(alloc: Global, scanned: &Scanned<'_>, at: &mut u32) -> Result<bool, TokenFault>
    ensures clean { result ≡ Ok true → IsCleanMember scanned.now.pairs at.old at.new }
    ensures fault { IfErr result (λ e. e ≢ Memory → IsMemberFault scanned.now.pairs at.old e) }
{
    let summaries = Summaries {
        scanned,
        block_type: assumed_type(scanned, *at),
    };
    match hcl_parse::member::<Summaries<'_, '_>>(&summaries, &Reader::new(alloc, scanned), at) {
        Ok(Some(content)) => Ok(content.is_without_findings()),
        Ok(None) => Ok(false),
        Err(fault) => Err(fault),
    }
}

/// Returns the error, but for `Memory`, which says that the member is suspect.
fn given_up(fault: TokenFault) -> Result<bool, TokenFault>
    ensures answer { IfOk result (λ b. b ≡ false) }
    ensures fault { IfErr result (λ e. (e ≡ fault) × (e ≢ Memory)) }
{
    match fault {
        TokenFault::Memory => Ok(false),
        TokenFault::Syntax(at) => Err(TokenFault::Syntax(at)),
        TokenFault::TooDeep(at) => Err(TokenFault::TooDeep(at)),
    }
}

/// Skips the next member if it is clean, and returns whether it did; else the place stays.
///
/// # Errors
///
/// That of the parser at the member, if it has one, and nothing before it is suspect.
pub fn skip_clean_member(
    alloc: Global,
    scanned: &Scanned<'_>,
    at: &mut u32,
) -> Result<bool, TokenFault>
    ensures passed { result ≡ Ok true → IsCleanMember scanned.now.pairs at.old at.new }
    ensures stays { result ≡ Ok false → at.new ≡ at.old }
    ensures fault { IfErr result (λ e. IsMemberFault scanned.now.pairs at.old e) }
{
    let mut past = *at;
    match is_clean_member(alloc, scanned, &mut past) {
        Ok(true) => {
            *at = past;
            Ok(true)
        }
        Ok(false) => Ok(false),
        Err(fault) => given_up(fault),
    }
}
