//! The rules.

ghost use Rattle.std.specs.Prelude.{◌≡◌, ◌↔◌, ◌<◌, Some};
ghost use Rattle.tf_rules.specs.Table.{info_of, index_of, name_of, severity_of, has_fix, label_of};
ghost use Rattle.tf_rules.specs.Table.{line_opening_of, line_closing_of};

/// A rule. The order of the variants is the order of the rules in reports.
///
/// Each is named after its page in the TFLint ruleset for the Terraform language.
#[derive(Clone, Copy, Debug, PartialEq, Eq)]
pub enum Rule {
    /// A comment that begins with `//` should begin with `#`.
    CommentSyntax,
    /// `a.0` should be `a[0]`.
    DeprecatedIndex,
    /// `"${a}"` should be `a`.
    DeprecatedInterpolation,
    /// `a == []` should be `length(a) == 0`.
    EmptyListEquality,
    /// `lookup(a, b)` should be `a[b]`.
    DeprecatedLookup,
    /// Names should be in snake_case.
    NamingConvention,
    /// A variable should have a type.
    TypedVariables,
    /// A variable should have a description.
    DocumentedVariables,
    /// An output should have a description.
    DocumentedOutputs,
}

/// How much an issue weighs.
#[derive(Clone, Copy)]
pub enum Severity {
    Warning,
    Notice,
}

impl Severity {
    /// Returns the word for it in a report: `Warning` or `Notice`.
    pub fn label(self) -> &'static str
        ensures { result.now ≡ label_of self }
    {
        match self {
            Severity::Warning => "Warning",
            Severity::Notice => "Notice",
        }
    }
}

/// What is the same in each finding of a rule.
#[derive(Clone, Copy)]
pub struct RuleInfo {
    /// The name in reports and on the command line, as `terraform_comment_syntax`.
    pub name: &'static str,
    /// How much an issue of the rule weighs.
    pub severity: Severity,
    /// Whether a fix has a step for it.
    pub has_fix: bool,
    /// What its message says before the name.
    pub before: &'static str,
    /// What its message says after the name.
    pub after: &'static str,
    /// What it requires, as the help of `lint` says it.
    pub description: &'static str,
    /// What a line of a report says between the place and the name that it quotes:
    /// `: SEVERITY - `, then `before`. That of naming is never written, since its lines say between
    /// the two what is named.
    pub line_opening: &'static str,
    /// What a line of a report says after the name that it quotes: `after`, then ` (RULE)` and a
    /// line end.
    pub line_closing: &'static str,
}

/// Makes a row of the table. The parts of a line of a report are put together when the program is
/// built, from the words that the row has.
macro_rules! rule_row {
    (
        $name:literal,
        Severity::$severity:ident,
        $has_fix:literal,
        $before:literal,
        $after:literal,
        $description:literal $(,)?
    ) => {
        RuleInfo {
            name: $name,
            severity: Severity::$severity,
            has_fix: $has_fix,
            before: $before,
            after: $after,
            description: $description,
            line_opening: concat!(": ", stringify!($severity), " - ", $before),
            line_closing: concat!($after, " (", $name, ")\n"),
        }
    };
}

impl Rule {
    /// How many rules there are.
    pub const COUNT: usize = 9;

    /// The rules, in the order of reports and of the steps of a fix.
    pub const ALL: [Rule; Rule::COUNT] = [
        Rule::CommentSyntax,
        Rule::DeprecatedIndex,
        Rule::DeprecatedInterpolation,
        Rule::EmptyListEquality,
        Rule::DeprecatedLookup,
        Rule::NamingConvention,
        Rule::TypedVariables,
        Rule::DocumentedVariables,
        Rule::DocumentedOutputs,
    ];

    /// Returns its number in the order of reports, from 0.
    pub fn index(self) -> usize
        ensures value { result ≡ index_of self }
        ensures within { result < 9 }
    {
        self as usize
    }

    /// Returns what is the same in each of its findings.
    #[inline]
    pub fn info(self) -> RuleInfo
        ensures name { result.name.now ≡ (info_of self).name }
        ensures severity { result.severity ≡ (info_of self).severity }
        ensures has_fix { result.has_fix ≡ (info_of self).has_fix }
        ensures before { result.before.now ≡ (info_of self).before }
        ensures after { result.after.now ≡ (info_of self).after }
        ensures line_opening { result.line_opening.now ≡ line_opening_of self }
        ensures line_closing { result.line_closing.now ≡ line_closing_of self }
    {
        match self {
            Rule::CommentSyntax => rule_row!(
                "terraform_comment_syntax",
                Severity::Warning,
                true,
                "Single line comments should begin with #",
                "",
                "a line comment begins with #, not //",
            ),
            Rule::DeprecatedIndex => rule_row!(
                "terraform_deprecated_index",
                Severity::Warning,
                true,
                "Legacy dot index syntax, use square brackets",
                "",
                "write a[0], not a.0",
            ),
            Rule::DeprecatedInterpolation => rule_row!(
                "terraform_deprecated_interpolation",
                Severity::Warning,
                true,
                "Interpolation-only expression, write the expression itself",
                "",
                "write var.a, not \"${var.a}\"",
            ),
            Rule::EmptyListEquality => rule_row!(
                "terraform_empty_list_equality",
                Severity::Warning,
                true,
                "Comparison with an empty list, check the length instead",
                "",
                "write length(a) == 0, not a == []",
            ),
            Rule::DeprecatedLookup => rule_row!(
                "terraform_deprecated_lookup",
                Severity::Warning,
                true,
                "lookup with two arguments, use square brackets",
                "",
                "lookup has three arguments; with two it is a[b]",
            ),
            Rule::NamingConvention => rule_row!(
                "terraform_naming_convention",
                Severity::Notice,
                false,
                " name \"",
                "\" is not snake_case",
                "names of blocks and locals are in snake_case",
            ),
            Rule::TypedVariables => rule_row!(
                "terraform_typed_variables",
                Severity::Warning,
                false,
                "variable \"",
                "\" has no type",
                "a variable has a type",
            ),
            Rule::DocumentedVariables => rule_row!(
                "terraform_documented_variables",
                Severity::Notice,
                false,
                "variable \"",
                "\" has no description",
                "a variable has a description",
            ),
            Rule::DocumentedOutputs => rule_row!(
                "terraform_documented_outputs",
                Severity::Notice,
                false,
                "output \"",
                "\" has no description",
                "an output has a description",
            ),
        }
    }

    /// Returns its name in reports and on the command line, as `terraform_comment_syntax`.
    pub fn name(self) -> &'static str
        ensures { result.now ≡ name_of self }
    {
        self.info().name
    }

    /// Returns the rule with exactly this name, or `None` if no rule has it.
    pub fn by_name(name: &str) -> Option<Rule>
        ensures { (rule : Rule) → (result ≡ Some rule) ↔ (name.now ≡ name_of rule) }
    {
        for i in 0..Rule::COUNT {
            let rule = Rule::ALL[i];
            if name == rule.name() {
                return Some(rule);
            }
        }
        None
    }

    /// Returns how much an issue of the rule weighs.
    pub fn severity(self) -> Severity
        ensures { result ≡ severity_of self }
    {
        self.info().severity
    }

    /// Whether a fix has a step for the rule.
    pub fn has_fix(self) -> bool
        ensures { result ≡ has_fix self }
    {
        self.info().has_fix
    }
}
