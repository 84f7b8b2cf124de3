//! The types of blocks, by what the rules on blocks look at.

ghost use Rattle.std.specs.Prelude.{◌≡◌};
ghost use Rattle.tf_glance.specs.Inner.SummaryMakers as spec;

use crate::summary::BodyContent;
use tf_rules::{Count, is_spelled};

/// The type of a block: the identifier that it begins with.
#[derive(Clone, Copy)]
pub enum BlockType {
    /// Any other: the rules on blocks look at nothing of it.
    Other,
    /// `resource` or `data`, whose second label is a name.
    Resource,
    /// `module`, whose first label is a name.
    Module,
    /// `variable`, whose first label is a name, and which has a type and a description.
    Variable,
    /// `output`, whose first label is a name, and which has a description.
    Output,
    /// `locals`, whose attributes have names.
    Locals,
}

/// Returns the block type of this spelling.
pub fn block_type_of(spelling: &[u8]) -> BlockType
    ensures { result ≡ spec.block_type_of spelling.now }
{
    if is_spelled(spelling, b"resource") {
        return BlockType::Resource;
    }
    if is_spelled(spelling, b"data") {
        return BlockType::Resource;
    }
    if is_spelled(spelling, b"module") {
        return BlockType::Module;
    }
    if is_spelled(spelling, b"variable") {
        return BlockType::Variable;
    }
    if is_spelled(spelling, b"output") {
        return BlockType::Output;
    }
    if is_spelled(spelling, b"locals") {
        return BlockType::Locals;
    }
    BlockType::Other
}

impl BlockType {
    /// Whether the label that follows these names what the block declares.
    #[inline(always)]
    pub fn names_after(self, labels: Count) -> bool
        ensures { result ≡ spec.names_after self labels }
    {
        match self {
            BlockType::Resource => match labels {
                Count::One => true,
                _ => false,
            },
            BlockType::Module | BlockType::Variable | BlockType::Output => match labels {
                Count::Zero => true,
                _ => false,
            },
            _ => false,
        }
    }

    /// Whether a block of this type has what it must have, if it was read as one of the type
    /// `assumed` and has this content.
    #[inline(always)]
    pub fn is_complete(self, assumed: BlockType, content: BodyContent) -> bool
        ensures { result ≡ spec.is_complete self assumed content }
    {
        match self {
            BlockType::Other => true,
            BlockType::Resource => match assumed {
                BlockType::Resource => true,
                _ => false,
            },
            BlockType::Module => match assumed {
                BlockType::Module => true,
                _ => false,
            },
            BlockType::Variable => match assumed {
                BlockType::Variable => content.typed && content.described,
                _ => false,
            },
            BlockType::Output => match assumed {
                BlockType::Output => content.described,
                _ => false,
            },
            BlockType::Locals => match assumed {
                BlockType::Locals => true,
                _ => false,
            },
        }
    }
}
