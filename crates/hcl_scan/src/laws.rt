//! Laws of the tokens and the errors of texts, and of a text that is written token by token. Each
//! law is the contract of a function that does nothing.

ghost use Rattle.std.specs.Prelude.{◌≡◌, ℕ, ◌≤◌, ◌⊎◌, false, List, [], length};
ghost use Rattle.hcl_token.specs.Tokens.{Pair, whole_text};
ghost use Rattle.hcl_scan.specs.Tokenization.{MAX_TEXT, IsTokenization};
ghost use Rattle.hcl_scan.specs.declared.fault.ScanFault.{ScanFault};
ghost use Rattle.hcl_scan.specs.Fault.{IsFault};
ghost use Rattle.hcl_scan.specs.Follows.{Follows, AreApart, AreAllowedGaps, tokens_of};

/// A text has at most one list of gaps and tokens.
pub fn one_tokenization()
    ensures { (text : List ℕ) (pairs others : List Pair) (last other : List ℕ)
        → IsTokenization text pairs last → IsTokenization text others other
        → (pairs ≡ others) × (last ≡ other) }
{}

/// A text with an error has no tokens.
pub fn no_tokenization_with_fault()
    ensures { (text : List ℕ) (fault : ScanFault) (pairs : List Pair) (last : List ℕ)
        → IsFault text fault → IsTokenization text pairs last → ⊥ }
{}

/// A text has at most one error.
pub fn one_fault()
    ensures { (text : List ℕ) (fault other : ScanFault) → IsFault text fault → IsFault text other
        → fault ≡ other }
{}

/// Gaps and tokens are those of the text that they make, if they follow the modes and leave no
/// opening open, no gap between two tokens that join is empty, and the text has at most `MAX_TEXT`
/// bytes.
pub fn writes_back()
    ensures { (pairs : List Pair) (last : List ℕ) → Follows pairs last [] → AreApart pairs
        → length (whole_text pairs last) ≤ MAX_TEXT
        → IsTokenization (whole_text pairs last) pairs last }
{}

/// The gaps and tokens of a text follow the modes.
pub fn tokenization_follows_modes()
    ensures { (text : List ℕ) (pairs : List Pair) (last : List ℕ) → IsTokenization text pairs last
        → Follows pairs last [] }
{}

/// Each gap is allowed between its tokens, if gaps and tokens follow the modes.
pub fn gaps_of()
    ensures { (pairs : List Pair) (last : List ℕ) → Follows pairs last []
        → AreAllowedGaps false pairs last }
{}

/// Tokens that follow the modes do so with other gaps, if each of these is allowed between its
/// tokens and is not empty between two that join.
pub fn other_gaps()
    ensures { (pairs others : List Pair) (last other : List ℕ) → Follows pairs last []
        → tokens_of others ≡ tokens_of pairs
        → AreAllowedGaps false others other → AreApart others → Follows others other [] }
{}

/// Each text has tokens or an error.
pub fn tokenization_or_fault()
    ensures { (text : List ℕ)
        → ((pairs : List Pair) × (last : List ℕ) × IsTokenization text pairs last)
        ⊎ ((fault : ScanFault) × IsFault text fault) }
{}
