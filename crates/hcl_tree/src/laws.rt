//! What follows from the definitions. Each law is the contract of a function that does nothing.

ghost use Rattle.std.specs.Prelude.{◌≡◌};
ghost use Rattle.hcl_token.specs.TokenizedText.{TokenizedText};
ghost use Rattle.hcl_text_laws.specs.declared.fault.ParseFault.{ParseFault};
ghost use Rattle.hcl_tree.specs.FirstError.{IsFirstError};

/// A text has one first error. So `check` returns the error of `parse`, unless memory ran out for the
/// tree.
pub fn one_first_error()
    ensures { (s : TokenizedText) (a b : ParseFault) → IsFirstError s a → IsFirstError s b → a ≡ b }
{}
