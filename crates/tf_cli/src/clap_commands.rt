//! clap's commands and their arguments, made of the tables of commands and options.

ghost use Rattle.std.specs.Prelude.{◌≡◌, true, IfOk};
ghost use Rattle.clap.specs.Words.{app_of};
ghost use Rattle.tf_cli.specs.Options.{file_count_of, flag_value};
ghost use Rattle.tf_cli.specs.Parsing.{one_value, some_values, number_parser, with_flag_value};
ghost use Rattle.tf_cli.specs.Parsing.{with_file_count};
ghost use Rattle.tf_cli.specs.Parsing.{named_rule, flag_rule, flag_rules, file_rule, command_rules};
ghost use Rattle.tf_cli.specs.Parsing.{command_app, empty_program, program_app};
ghost use Rattle.tf_cli.specs.Inner.ClapValues.{IsArgumentOf, AreArguments};
ghost use Rattle.tf_cli.specs.Inner.ClapValues.{HasRange, HasParser, HasChangedRule, AddsFlag};
ghost use Rattle.tf_cli.specs.Inner.ClapValues.{IsCommand, IsNewCommand, AddsCommand};

use crate::command_line::{PROGRAM, VERSION};
use crate::help;
use crate::options::{FileCount, Flag, FlagInfo, FlagValue, Subcommand};
use clap::{Arg, ArgAction, Command, value_parser};
use std::alloc::{AllocError, Global};

/// The name of the argument FILE.
pub const FILE: &str = "FILE";

/// Returns the argument of an option, with its value.
fn option_argument<'a>(alloc: Global, flag: Flag) -> Arg<'a>
    ensures { IsArgumentOf (flag_rule flag) result }
{
    let named = named_argument(alloc, flag.info());
    with_flag_value(named, flag)
}

/// Returns the option of this row, before it has a value.
fn named_argument<'a>(alloc: Global, info: FlagInfo) -> Arg<'a>
    ensures { IsArgumentOf (named_rule info.name.now) result }
{
    Arg::new(alloc, info.name).long(info.name).help(info.help)
}

/// Gives an option the value that its row of the table says: none, a rule or a number.
fn with_flag_value<'a>(argument: Arg<'a>, flag: Flag) -> Arg<'a>
    ensures { HasChangedRule (with_flag_value (flag_value flag)) argument.entry result }
{
    match flag.info().value {
        FlagValue::Nothing => as_switch(argument),
        FlagValue::Rule => as_rule_option(argument),
        FlagValue::Number => as_number_option(argument),
    }
}

/// Returns an option without a value, which may be given once.
fn as_switch<'a>(argument: Arg<'a>) -> Arg<'a>
    ensures { HasChangedRule (with_flag_value FlagValue.Nothing) argument.entry result }
{
    argument.action(ArgAction::SetTrue)
}

/// Returns an option with a rule as its value, which may be given several times.
fn as_rule_option<'a>(argument: Arg<'a>) -> Arg<'a>
    ensures { HasChangedRule (with_flag_value FlagValue.Rule) argument.entry result }
{
    let named = argument.value_name("RULE");
    let counted = with_one_value(named);
    counted.action(ArgAction::Append)
}

/// Returns an option with a number as its value.
fn as_number_option<'a>(argument: Arg<'a>) -> Arg<'a>
    ensures { HasChangedRule (with_flag_value FlagValue.Number) argument.entry result }
{
    let named = argument.value_name("N");
    let parsed = with_number_parser(named);
    parsed.action(ArgAction::Set)
}

/// Returns an argument that takes one value each time it is given.
fn with_one_value<'a>(argument: Arg<'a>) -> Arg<'a>
    ensures { HasRange one_value argument.entry result }
{
    argument.num_args(1)
}

/// Returns an argument with one value or more.
fn with_values<'a>(argument: Arg<'a>) -> Arg<'a>
    ensures { HasRange some_values argument.entry result }
{
    argument.num_args(1..)
}

/// Returns an argument whose value is read as a `u32`.
fn with_number_parser<'a>(argument: Arg<'a>) -> Arg<'a>
    ensures { HasParser number_parser argument.entry result }
{
    let parser = value_parser!(u32);
    argument.value_parser(parser)
}

/// Returns the argument FILE of a command.
fn file_argument<'a>(alloc: Global, subcommand: Subcommand) -> Arg<'a>
    ensures { IsArgumentOf (file_rule (file_count_of subcommand)) result }
{
    let info = subcommand.info();
    let argument = Arg::new(alloc, FILE).help(info.file_help).required(true);
    with_file_count(argument, subcommand)
}

/// Returns FILE with one name, or with several if the command takes them.
fn with_file_count<'a>(argument: Arg<'a>, subcommand: Subcommand) -> Arg<'a>
    ensures { HasChangedRule (with_file_count (file_count_of subcommand)) argument.entry result }
{
    match subcommand.info().file_count {
        FileCount::Several => as_files(argument),
        FileCount::One => argument,
    }
}

/// Returns FILE with one name or more, all of which are kept.
fn as_files<'a>(argument: Arg<'a>) -> Arg<'a>
    ensures { HasChangedRule (with_file_count FileCount.Several) argument.entry result }
{
    let several = with_values(argument);
    several.action(ArgAction::Append)
}

/// Returns the arguments of a command, in the order of its help.
fn arguments<'a>(alloc: Global, subcommand: Subcommand) -> Result<Vec<Arg<'a>>, AllocError>
    ensures { IfOk result (λ all. AreArguments (command_rules subcommand) all.items) }
{
    let mut all = option_arguments(alloc, subcommand, Flag::ALL.as_slice())?;
    let file = file_argument(alloc, subcommand);
    all.push(file)?;
    Ok(all)
}

/// Returns the options among these that a command has.
fn option_arguments<'a>(
    alloc: Global,
    subcommand: Subcommand,
    flags: &[Flag],
) -> Result<Vec<Arg<'a>>, AllocError>
    ensures { IfOk result (λ all. AreArguments (flag_rules subcommand flags.now) all.items) }
{
    let mut all = Vec::new(alloc);
    for flag in flags {
        let extended = add_flag(alloc, subcommand, *flag, all)?;
        all = extended;
    }
    Ok(all)
}

/// Adds an option, if the command has it.
fn add_flag<'a>(
    alloc: Global,
    subcommand: Subcommand,
    flag: Flag,
    mut all: Vec<Arg<'a>>,
) -> Result<Vec<Arg<'a>>, AllocError>
    ensures { IfOk result (λ extended. AddsFlag subcommand flag all.entry.items extended.items) }
{
    if !flag.is_of(subcommand) {
        return Ok(all);
    }
    let argument = option_argument(alloc, flag);
    all.push(argument)?;
    Ok(all)
}

/// Returns a command with its arguments and its help.
fn clap_command<'a>(
    alloc: Global,
    subcommand: Subcommand,
    after_help: &'a str,
) -> Result<Command<'a>, AllocError>
    ensures { IfOk result (λ command. IsCommand (command_app subcommand) command) }
{
    let arguments = arguments(alloc, subcommand)?;
    let info = subcommand.info();
    new_command(alloc, info.name, info.about, after_help, arguments)
}

/// Returns the command of this name, with these texts of its help and these arguments. For the
/// proof: the names and texts of the table are lent for as long as the help.
fn new_command<'a>(
    alloc: Global,
    name: &'a str,
    about: &'a str,
    after_help: &'a str,
    arguments: Vec<Arg<'a>>,
) -> Result<Command<'a>, AllocError>
    ensures { IfOk result (λ command.
        IsNewCommand name.entry.now arguments.entry.items command) }
{
    let empty = Command::new(alloc, name)
        .about(about)
        .after_help(after_help);
    let command = empty.args(arguments)?;
    Ok(command)
}

/// Returns the program with its four commands.
pub fn program_command<'a>(
    alloc: Global,
    lint_help: &'a str,
    fix_help: &'a str,
) -> Result<Command<'a>, AllocError>
    ensures { IfOk result (λ program. app_of program ≡ program_app) }
{
    let empty = empty_program(alloc);
    let fmt = clap_command(alloc, Subcommand::Fmt, help::FMT_AFTER_HELP);
    let with_fmt = add_command(empty, fmt)?;
    let lint = clap_command(alloc, Subcommand::Lint, lint_help);
    let with_lint = add_command(with_fmt, lint)?;
    let fix = clap_command(alloc, Subcommand::Fix, fix_help);
    let with_fix = add_command(with_lint, fix)?;
    let revert = clap_command(alloc, Subcommand::Revert, help::REVERT_AFTER_HELP);
    add_command(with_fix, revert)
}

/// Returns the program before it has commands.
fn empty_program<'a>(alloc: Global) -> Command<'a>
    ensures { app_of result ≡ empty_program }
{
    Command::new(alloc, PROGRAM)
        .about(help::ABOUT)
        .after_help(help::AFTER_HELP)
        .version(VERSION)
        .subcommand_required(true)
}

/// Adds a command to a program, or returns the error that is given instead. For the proof: it takes
/// the `Result`, so that no function with a `?` holds a program.
fn add_command<'a>(
    program: Command<'a>,
    command: Result<Command<'a>, AllocError>,
) -> Result<Command<'a>, AllocError>
    ensures { IfOk result (λ new. AddsCommand program.entry command.entry new) }
{
    match command {
        Ok(command) => program.subcommand(command),
        Err(error) => Err(error),
    }
}
