//! The direction of a pass over a text.

/// Whether edits are applied or undone.
#[derive(Clone, Copy)]
pub enum Direction {
    Forward,
    Backward,
}
