//! The tables of the commands and of their options, of which arguments and help are made.

ghost use Rattle.std.specs.Prelude.{◌≡◌, ◌≤◌, ◌↔◌, ◌⊎◌, true, false, Some, length};
ghost use Rattle.std.specs.List.{list_any};
ghost use Rattle.tf_cli.specs.Arguments.{is_dash};
ghost use Rattle.tf_cli.specs.Options.{subcommand_name, file_count_of, flag_name, flag_value};
ghost use Rattle.tf_cli.specs.Options.{flag_commands, is_among, has_flag};
ghost use Rattle.tf_cli.specs.declared.options.FileCount.{FileCount};
ghost use Rattle.tf_cli.specs.declared.options.Subcommand.{Subcommand};

use tf_rules::RuleSet;

/// A command of `tfk`.
#[derive(Clone, Copy)]
pub enum Subcommand {
    Fmt,
    Lint,
    Fix,
    Revert,
}

/// The row of a command.
#[derive(Clone, Copy)]
pub struct SubcommandInfo {
    pub name: &'static str,
    pub about: &'static str,
    /// What the help says of FILE.
    pub file_help: &'static str,
    pub file_count: FileCount,
}

/// Which files a command takes.
#[derive(Clone, Copy)]
pub enum FileCount {
    /// One or more, or `-` alone.
    Several,
    /// One, which has a journal: not `-`.
    One,
}

/// What is to be done to a file.
#[derive(Clone, Copy)]
pub enum Action {
    Format,
    /// Reports which files are not formatted.
    Check,
    Lint(RuleSet),
    Fix(RuleSet),
    /// Reverts the command of this number, the oldest being 1, or without one the last.
    Revert(Option<u32>),
    /// Lists the recorded commands.
    List,
}

/// An option.
#[derive(Clone, Copy)]
pub enum Flag {
    Check,
    EnableRule,
    DisableRule,
    Take,
    List,
    Locate,
}

/// The row of an option.
#[derive(Clone, Copy)]
pub struct FlagInfo {
    /// Its name, without the `--`.
    pub name: &'static str,
    pub help: &'static str,
    pub value: FlagValue,
    pub commands: Commands,
}

/// What follows an option.
#[derive(Clone, Copy)]
pub enum FlagValue {
    Nothing,
    /// The name of a rule, or `all`. The option can be used several times.
    Rule,
    Number,
}

/// Which commands have an option.
#[derive(Clone, Copy)]
pub enum Commands {
    Fmt,
    LintAndFix,
    Revert,
    All,
}

impl Subcommand {
    const COUNT: usize = 4;

    /// The commands, in the order of the help.
    const ALL: [Subcommand; Subcommand::COUNT] = [
        Subcommand::Fmt,
        Subcommand::Lint,
        Subcommand::Fix,
        Subcommand::Revert,
    ];

    /// Returns the row of the command.
    pub fn info(self) -> SubcommandInfo
        ensures name { result.name.now ≡ subcommand_name self }
        ensures file_count { result.file_count ≡ file_count_of self }
    {
        match self {
            Subcommand::Fmt => SubcommandInfo {
                name: "fmt",
                about: "Formats files in place",
                file_help: "A file to format; - alone is standard input",
                file_count: FileCount::Several,
            },
            Subcommand::Lint => SubcommandInfo {
                name: "lint",
                about: "Reports the issues in files",
                file_help: "A file to read; - alone is standard input",
                file_count: FileCount::Several,
            },
            Subcommand::Fix => SubcommandInfo {
                name: "fix",
                about: "Fixes issues in files in place",
                file_help: "A file to fix; - alone is standard input",
                file_count: FileCount::Several,
            },
            Subcommand::Revert => SubcommandInfo {
                name: "revert",
                about: "Reverts the last command that changed a file, or an earlier one",
                file_help: "The file to revert",
                file_count: FileCount::One,
            },
        }
    }

    /// Returns the command's name.
    pub fn name(self) -> &'static str
        ensures { result.now ≡ subcommand_name self }
    {
        self.info().name
    }

    /// Returns the command of a name; none if no command has it.
    pub fn by_name(name: &str) -> Option<Subcommand>
        ensures { (subcommand : Subcommand) → (result ≡ Some subcommand)
            ↔ (name.now ≡ subcommand_name subcommand) }
    {
        for i in 0..Subcommand::COUNT {
            let subcommand = Subcommand::ALL[i];
            if name == subcommand.name() {
                return Some(subcommand);
            }
        }
        None
    }
}

impl Flag {
    const COUNT: usize = 6;

    /// The options, in the order of the help of each command.
    pub const ALL: [Flag; Flag::COUNT] = [
        Flag::Check,
        Flag::EnableRule,
        Flag::DisableRule,
        Flag::Take,
        Flag::List,
        Flag::Locate,
    ];

    /// Returns the row of the option.
    pub fn info(self) -> FlagInfo
        ensures name { result.name.now ≡ flag_name self }
        ensures value { result.value ≡ flag_value self }
        ensures commands { result.commands ≡ flag_commands self }
    {
        match self {
            Flag::Check => FlagInfo {
                name: "check",
                help: "Write nothing; print the names of files that are not formatted",
                value: FlagValue::Nothing,
                commands: Commands::Fmt,
            },
            Flag::EnableRule => FlagInfo {
                name: "enable-rule",
                help: "Enable a rule, or `all`; applied last",
                value: FlagValue::Rule,
                commands: Commands::LintAndFix,
            },
            Flag::DisableRule => FlagInfo {
                name: "disable-rule",
                help: "Disable a rule, or `all`; applied first",
                value: FlagValue::Rule,
                commands: Commands::LintAndFix,
            },
            Flag::Take => FlagInfo {
                name: "take",
                help: "Revert command N alone, the oldest being 1",
                value: FlagValue::Number,
                commands: Commands::Revert,
            },
            Flag::List => FlagInfo {
                name: "list",
                help: "Write nothing; list the recorded commands",
                value: FlagValue::Nothing,
                commands: Commands::Revert,
            },
            Flag::Locate => FlagInfo {
                name: "locate",
                help: "Also print where each error is, and why",
                value: FlagValue::Nothing,
                commands: Commands::All,
            },
        }
    }

    /// Returns the option's name, without the `--`.
    pub fn name(self) -> &'static str
        ensures { result.now ≡ flag_name self }
    {
        self.info().name
    }

    /// Returns whether a command has the option.
    pub fn is_of(self, subcommand: Subcommand) -> bool
        ensures { result ≡ has_flag subcommand self }
    {
        self.info().commands.include(subcommand)
    }
}

impl Commands {
    /// Returns whether a command is one of these.
    fn include(self, subcommand: Subcommand) -> bool
        ensures { result ≡ is_among self subcommand }
    {
        match self {
            Commands::Fmt => matches!(subcommand, Subcommand::Fmt),
            Commands::LintAndFix => matches!(subcommand, Subcommand::Lint | Subcommand::Fix),
            Commands::Revert => matches!(subcommand, Subcommand::Revert),
            Commands::All => true,
        }
    }
}

impl FileCount {
    /// Returns whether these files can be given: `-` is alone, and has no journal.
    pub fn accepts(self, names: &[&str]) -> bool
        ensures several { self ≡ FileCount.Several → result ≡ true
            ↔ (length names.now ≤ 1) ⊎ (list_any (λ name. is_dash name.now) names.now ≡ false) }
        ensures one { self ≡ FileCount.One → result ≡ true
            ↔ list_any (λ name. is_dash name.now) names.now ≡ false }
    {
        match self {
            FileCount::Several => names.len() <= 1 || !has_dash(names),
            FileCount::One => !has_dash(names),
        }
    }
}

/// Returns whether one of the files is standard input.
fn has_dash(names: &[&str]) -> bool
    ensures { result ≡ list_any (λ name. is_dash name.now) names.now }
{
    names.contains(&"-")
}
