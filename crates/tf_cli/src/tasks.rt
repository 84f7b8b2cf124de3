//! The task of what clap has read of the arguments.

ghost use Rattle.std.specs.Prelude.{◌≡◌, None, map, string_bytes, IfOk, IfErr};
ghost use Rattle.tf_cli.specs.Choices.{IsName, AreNames, SaysUnknownRule, IsUnknownRule};
ghost use Rattle.tf_cli.specs.Choices.{HasUnknownRule, unknown_rule_text};
ghost use Rattle.tf_cli.specs.Tasks.{values_of, option_values, IsNamesFault};
ghost use Rattle.tf_cli.specs.Tasks.{AreChosenRules, IsRulesFault, IsGiven, IsTakenNumber};
ghost use Rattle.tf_cli.specs.Tasks.{IsAction, IsActionFault, IsTask, IsTaskFault};
ghost use Rattle.tf_cli.specs.Tasks.{IsTaskOfName, IsTaskOfNameFault, IsTaskOf, IsTaskOfFault};
ghost use Rattle.tf_cli.specs.Inner.ClapValues.{rows_in};

use crate::clap_commands::FILE;
use crate::exits::{Exit, usage_error};
use crate::options::{Action, Flag, Subcommand};
use crate::rule_choice::{Choice, chosen_rules};
use crate::similar::{is_like_file, similar_rule};
use clap::ArgMatches;
use std::alloc::{AllocError, Global};
use tf_rules::RuleSet;

/// What is said of `--list` with `--take`, in the form of clap's errors. clap is not to say it, since
/// its contract says nothing of arguments of which one excludes another.
const LIST_WITH_TAKE: &str = "\
error: the argument '--list' cannot be used with '--take <N>'

Usage: tfk revert [OPTIONS] <FILE>

For more information, try '--help'.
";

/// What is to be done, and to which files.
#[derive(Drop)]
pub struct Task<'a> {
    pub action: Action,
    /// One name at least.
    pub files: Vec<&'a str>,
    /// Whether errors are reported by line and column too.
    pub locate: bool,
}

/// Returns the values of an option or of FILE, in the order given; none if it is not given.
fn string_values<'a>(
    alloc: Global,
    matches: &ArgMatches<'a>,
    id: &str,
) -> Result<Vec<&'a str>, AllocError>
    ensures { IfOk result (λ values. map (λ value. value.now) values.items
        ≡ values_of (rows_in matches.now) id.now) }
{
    match matches.get_strs(id) {
        Some(given) => copy_values(alloc, given),
        None => Ok(Vec::new(alloc)),
    }
}

/// Returns these values in a list of its own.
fn copy_values<'a>(alloc: Global, given: &[&'a str]) -> Result<Vec<&'a str>, AllocError>
    ensures { IfOk result (λ values. map (λ value. value.now) values.items
        ≡ map (λ value. value.now) given.now) }
{
    let mut all: Vec<&'a str> = Vec::new(alloc);
    for value in given {
        all.push(*value)?;
    }
    Ok(all)
}

/// Returns what each of these names chooses.
///
/// # Errors
///
/// `UsageError` of the first that is neither `all` nor the name of a rule; `Memory`.
fn parse_choices(alloc: Global, names: &[&str]) -> Result<Vec<Choice>, Exit>
    ensures known { IfOk result
        (λ choices. AreNames choices.items (map (λ name. name.now) names.now)) }
    ensures unknown { IfErr result
        (λ exit. HasUnknownRule (map (λ name. name.now) names.now) exit) }
{
    let mut all = Vec::new(alloc);
    for name in names {
        let choice = parse_choice(alloc, name)?;
        all.push(choice)?;
    }
    Ok(all)
}

/// Returns what a name chooses.
///
/// # Errors
///
/// `UsageError` if it is neither `all` nor the name of a rule; `Memory`.
fn parse_choice(alloc: Global, name: &str) -> Result<Choice, Exit>
    ensures known { IfOk result (λ choice. IsName choice name.now) }
    ensures unknown { IfErr result (λ exit. IsUnknownRule name.now exit) }
{
    match Choice::by_name(name) {
        Some(choice) => Ok(choice),
        None => Err(Exit::UsageError(unknown_rule(alloc, name)?)),
    }
}

/// Returns what is said of a name that no rule has: which rule is meant, if it has a similar name.
///
/// # Errors
///
/// `AllocError` if memory runs out.
fn unknown_rule(alloc: Global, name: &str) -> Result<String, AllocError>
    ensures { IfOk result (λ text. SaysUnknownRule name.now (string_bytes text)) }
{
    match similar_rule(alloc, name)? {
        Some(rule) => {
            let meant = rule.name();
            format!(in alloc;
                "tfk: unknown rule {name}: did you mean {meant}? tfk lint --help lists them\n"
            )
        }
        None => no_similar_rule(alloc, name),
    }
}

/// Returns what is said of a name that no rule has, nor a similar one.
///
/// # Errors
///
/// `AllocError` if memory runs out.
fn no_similar_rule(alloc: Global, name: &str) -> Result<String, AllocError>
    ensures { IfOk result (λ text. string_bytes text ≡ unknown_rule_text name.now None) }
{
    if is_like_file(name) {
        format!(in alloc;
            "tfk: unknown rule {name}: if it is a FILE, name a rule before it; \
                tfk lint --help lists the rules\n"
        )
    } else {
        format!(in alloc;
            "tfk: unknown rule {name}: tfk lint --help lists them; one for each option\n"
        )
    }
}

/// Returns what the values of an option choose.
fn option_choices(alloc: Global, matches: &ArgMatches<'_>, flag: Flag) -> Result<Vec<Choice>, Exit>
    ensures known { IfOk result (λ choices.
        AreNames choices.items (option_values (rows_in matches.now) flag)) }
    ensures unknown { IfErr result (λ exit.
        IsNamesFault (option_values (rows_in matches.now) flag) exit) }
{
    let names = string_values(alloc, matches, flag.name())?;
    parse_choices(alloc, &names)
}

/// Returns the rules that the options choose. Of several unknown rules a disabled one is reported.
fn option_rules(alloc: Global, matches: &ArgMatches<'_>) -> Result<RuleSet, Exit>
    ensures chosen { IfOk result (λ rules. AreChosenRules (rows_in matches.now) rules) }
    ensures unknown { IfErr result (λ exit. IsRulesFault (rows_in matches.now) exit) }
{
    let disabled = option_choices(alloc, matches, Flag::DisableRule)?;
    let enabled = option_choices(alloc, matches, Flag::EnableRule)?;
    Ok(chosen_rules(&disabled, &enabled))
}

/// Returns whether an option without a value is given.
fn is_given(matches: &ArgMatches<'_>, flag: Flag) -> bool
    ensures { IsGiven (rows_in matches.now) flag result }
{
    matches.get_flag(flag.name())
}

/// Returns the number of `--take`, if it is given.
fn taken_number(matches: &ArgMatches<'_>) -> Option<u32>
    ensures { IsTakenNumber (rows_in matches.now) result }
{
    matches.get_one(Flag::Take.name())
}

/// Returns what `fmt` does: with `--check` it checks files, else it formats them.
fn fmt_action(matches: &ArgMatches<'_>) -> Action
    ensures { IsAction Subcommand.Fmt (rows_in matches.now) result }
{
    if is_given(matches, Flag::Check) {
        return Action::Check;
    }
    Action::Format
}

/// Returns what `lint` does: it reports the issues of the rules that the options choose.
///
/// # Errors
///
/// `UsageError` of an unknown rule; `Memory`.
fn lint_action(alloc: Global, matches: &ArgMatches<'_>) -> Result<Action, Exit>
    ensures action { IfOk result (λ action. IsAction Subcommand.Lint (rows_in matches.now) action) }
    ensures fault { IfErr result (λ exit. IsRulesFault (rows_in matches.now) exit) }
{
    let rules = option_rules(alloc, matches)?;
    Ok(Action::Lint(rules))
}

/// Returns what `fix` does: it fixes the issues of the rules that the options choose.
///
/// # Errors
///
/// `UsageError` of an unknown rule; `Memory`.
fn fix_action(alloc: Global, matches: &ArgMatches<'_>) -> Result<Action, Exit>
    ensures action { IfOk result (λ action. IsAction Subcommand.Fix (rows_in matches.now) action) }
    ensures fault { IfErr result (λ exit. IsRulesFault (rows_in matches.now) exit) }
{
    let rules = option_rules(alloc, matches)?;
    Ok(Action::Fix(rules))
}

/// Returns what `revert` does: it lists the recorded commands, or it undoes the last one or the one
/// given.
///
/// # Errors
///
/// `UsageError` of `--list` with `--take`; `Memory`.
fn revert_action(alloc: Global, matches: &ArgMatches<'_>) -> Result<Action, Exit>
    ensures action { IfOk result
        (λ action. IsAction Subcommand.Revert (rows_in matches.now) action) }
    ensures fault { IfErr result
        (λ exit. IsActionFault Subcommand.Revert (rows_in matches.now) exit) }
{
    let number = taken_number(matches);
    if !is_given(matches, Flag::List) {
        return Ok(Action::Revert(number));
    }
    match number {
        Some(_) => Err(usage_error(alloc, LIST_WITH_TAKE)),
        None => Ok(Action::List),
    }
}

/// Returns what a command does, by its options.
///
/// # Errors
///
/// `UsageError` of an unknown rule, or of `--list` with `--take`; `Memory`.
fn action_of(
    alloc: Global,
    subcommand: Subcommand,
    matches: &ArgMatches<'_>,
) -> Result<Action, Exit>
    ensures action { IfOk result (λ action. IsAction subcommand (rows_in matches.now) action) }
    ensures fault { IfErr result (λ exit. IsActionFault subcommand (rows_in matches.now) exit) }
{
    match subcommand {
        Subcommand::Fmt => Ok(fmt_action(matches)),
        Subcommand::Lint => lint_action(alloc, matches),
        Subcommand::Fix => fix_action(alloc, matches),
        Subcommand::Revert => revert_action(alloc, matches),
    }
}

/// Returns the task of arguments that are right one by one.
///
/// # Errors
///
/// `UsageError` of, in this order, an unknown rule or `--list` with `--take`, and a `-` that is not
/// alone or is to be reverted; `Memory`.
pub fn task_of<'a>(alloc: Global, matches: &ArgMatches<'a>) -> Result<Task<'a>, Exit>
    ensures task { IfOk result (λ task. IsTaskOf matches.now task) }
    ensures fault { IfErr result (λ exit. IsTaskOfFault matches.now exit) }
{
    match matches.subcommand() {
        Some(found) => task_of_name(alloc, found.0, found.1),
        None => Err(usage_error(alloc, "tfk: no command\n")),
    }
}

/// Returns the task of the command of this name, by its arguments.
///
/// # Errors
///
/// `UsageError` if no command has this name; those of `task_of_subcommand`.
fn task_of_name<'a>(alloc: Global, name: &str, matches: &ArgMatches<'a>) -> Result<Task<'a>, Exit>
    ensures task { IfOk result (λ task. IsTaskOfName name.now (rows_in matches.now) task) }
    ensures fault { IfErr result (λ exit. IsTaskOfNameFault name.now (rows_in matches.now) exit) }
{
    match Subcommand::by_name(name) {
        Some(subcommand) => task_of_subcommand(alloc, subcommand, matches),
        None => Err(usage_error(alloc, "tfk: no command\n")),
    }
}

/// Returns the task of a command: what its options say, and the files, if it accepts them.
///
/// # Errors
///
/// `UsageError` of, in this order, an unknown rule or `--list` with `--take`, and a `-` that is not
/// alone or is to be reverted; `Memory`.
fn task_of_subcommand<'a>(
    alloc: Global,
    subcommand: Subcommand,
    matches: &ArgMatches<'a>,
) -> Result<Task<'a>, Exit>
    ensures task { IfOk result (λ task. IsTask subcommand (rows_in matches.now) task) }
    ensures fault { IfErr result (λ exit. IsTaskFault subcommand (rows_in matches.now) exit) }
{
    let action = action_of(alloc, subcommand, matches)?;
    let files = string_values(alloc, matches, FILE)?;
    if !subcommand.info().file_count.accepts(&files) {
        return Err(usage_error(alloc, "tfk: - stands alone\n"));
    }
    Ok(Task {
        action,
        files,
        locate: is_given(matches, Flag::Locate),
    })
}
