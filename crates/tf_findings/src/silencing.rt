//! Comments that silence what rules find, as `# tflint-ignore: terraform_deprecated_index,
//! terraform_typed_variables # why`.
//!
//! TFLint, Annotations.

mod annotation;
mod annotations;
mod class;
mod comment;
mod unsilenced;

pub use comment::{is_comment, silences_any};
pub use unsilenced::remove_silenced;
