//! Summaries: what the rules look at of the parts of a node where no tree of them is made.

ghost use Rattle.std.specs.Prelude.{◌≡◌};
ghost use Rattle.tf_rules.specs.Summaries.{is_clean, is_clean_count, is_clean_pieces};

/// The summary of an expression, or of a term.
#[derive(Clone, Copy)]
pub enum Value {
    /// A rule may find something in it.
    Suspect,
    /// Neither `[]` nor `""`.
    Plain,
    /// It may be `[]`.
    EmptyList,
    /// It may be `""`.
    EmptyText,
}

/// How many there are, of operators, of expressions or of labels.
#[derive(Clone, Copy)]
pub enum Count {
    /// A rule may find something in one.
    Suspect,
    Zero,
    One,
    Two,
    /// More than two.
    Many,
}

/// The summary of the parts of a template.
#[derive(Clone, Copy)]
pub enum Pieces {
    /// A rule may find something in one.
    Suspect,
    Empty,
    /// One interpolation, and nothing else.
    Sole,
    /// Any other.
    Mixed,
}

impl Value {
    /// Whether no rule finds anything in it.
    #[inline(always)]
    pub fn is_clean(self) -> bool
        ensures { result ≡ is_clean self }
    {
        match self {
            Value::Suspect => false,
            _ => true,
        }
    }
}

impl Count {
    /// Whether no rule finds anything in them.
    #[inline(always)]
    pub fn is_clean(self) -> bool
        ensures { result ≡ is_clean_count self }
    {
        match self {
            Count::Suspect => false,
            _ => true,
        }
    }
}

impl Pieces {
    /// Whether no rule finds anything in them.
    #[inline(always)]
    pub fn is_clean(self) -> bool
        ensures { result ≡ is_clean_pieces self }
    {
        match self {
            Pieces::Suspect => false,
            _ => true,
        }
    }
}
