//! What an action that changes no file makes of a text, and what of it is printed.

ghost use Rattle.std.specs.Prelude.{◌≡◌, List, ℕ, [], IfOk, IfErr, IsErr, string_bytes};
ghost use Rattle.tf_lint.specs.FixResult.{fixed_text_or};
ghost use Rattle.tf_cli.specs.declared.options.Action.{Action};
ghost use Rattle.tf_cli.specs.declared.outcome.FileOutcome.{FileOutcome};
ghost use Rattle.tf_session.specs.declared.command.Command.TheVariants.{Fmt};
ghost use Rattle.tf_session.specs.Records.{StepsTo};
ghost use Rattle.tf_program.specs.Answers.{check_line, IsAnswer, IsAnswerFault};

use std::alloc::{AllocError, Global};
use tf_cli::{Action, FileOutcome};
use tf_session::{RuleSet, RunFault, fix_alone, format_without_session, is_formatted, issue_lines};

/// The name of standard input, on the command line and in reports.
pub const STANDARD_INPUT: &str = "-";

/// What an action makes of a text. Nothing is printed yet.
#[derive(Drop)]
pub struct Answer {
    pub outcome: FileOutcome,
    /// What is printed on standard output; none for the text itself.
    output: Option<Vec<u8>>,
    /// What is printed on standard error after it: of a fix, the lines of the issues that are left.
    pub errors: Vec<u8>,
}

impl Answer {
    /// Returns the answer of an action on a text of this name.
    ///
    /// # Errors
    ///
    /// Those of the action: the text is refused; `Memory`.
    pub fn of(alloc: Global, action: Action, name: &str, text: &[u8]) -> Result<Answer, RunFault>
        ensures answer { IfOk result (λ answer. IsAnswer action name.now text.now answer.outcome
            (fixed_text_or text.now answer.output) answer.errors.items) }
        ensures fault { IfErr result (IsAnswerFault action text.now) }
    {
        match action {
            Action::Format => Answer::of_format(alloc, text),
            Action::Check => Answer::of_check(alloc, name, text),
            Action::Lint(rules) => Answer::of_lint(alloc, name, text, rules),
            Action::Fix(rules) => Answer::of_fix(alloc, name, text, rules),
            Action::Revert(_) | Action::List => {
                let nothing = Vec::new(alloc);
                Ok(Answer::of_output(alloc, FileOutcome::Nothing, nothing))
            }
        }
    }

    /// Returns the bytes that are printed on standard output, of the answer on this text.
    pub fn output<'a>(&'a self, text: &'a [u8]) -> &'a [u8]
        ensures { result.now ≡ fixed_text_or text.now self.now.output }
    {
        text_or(&self.output, text)
    }

    /// Returns an answer of which nothing is printed on standard error.
    fn of_output(alloc: Global, outcome: FileOutcome, output: Vec<u8>) -> Answer
        ensures outcome { result.outcome ≡ outcome }
        ensures output { (text : List ℕ) → fixed_text_or text result.output ≡ output.items }
        ensures errors { result.errors.items ≡ [] }
    {
        Answer {
            outcome,
            output: Some(output),
            errors: Vec::new(alloc),
        }
    }

    /// Returns the answer of a fmt: the text that it makes.
    fn of_format(alloc: Global, text: &[u8]) -> Result<Answer, RunFault>
        ensures answer { IfOk result (λ answer. (answer.outcome ≡ FileOutcome.Nothing)
            × StepsTo Fmt text.now (fixed_text_or text.now answer.output)
            × (answer.errors.items ≡ [])) }
        ensures fault { IfErr result (IsAnswerFault Action.Format text.now) }
    {
        let new = format_without_session(alloc, text)?;
        Ok(Answer::of_output(alloc, FileOutcome::Nothing, new))
    }

    /// Returns the answer of a check: the name of a file that is not formatted.
    fn of_check(alloc: Global, name: &str, text: &[u8]) -> Result<Answer, RunFault>
        ensures answer { IfOk result (λ answer.
            IsAnswer Action.Check name.now text.now answer.outcome
            (fixed_text_or text.now answer.output) answer.errors.items) }
        ensures fault { IfErr result (IsAnswerFault Action.Check text.now) }
    {
        let yes = is_formatted(alloc, text)?;
        let outcome = FileOutcome::from_layout(yes);
        let line = check_line(alloc, name, outcome)?;
        Ok(Answer::of_output(alloc, outcome, line.into_bytes()))
    }

    /// Returns the answer of a lint: a line for each issue.
    fn of_lint(alloc: Global, name: &str, text: &[u8], rules: RuleSet) -> Result<Answer, RunFault>
        ensures answer { IfOk result (λ answer.
            IsAnswer (Action.Lint rules) name.now text.now answer.outcome
            (fixed_text_or text.now answer.output) answer.errors.items) }
        ensures fault { IfErr result (IsAnswerFault (Action.Lint rules) text.now) }
    {
        let (lines, count) = issue_lines(alloc, name, text, rules)?;
        let outcome = FileOutcome::from_issue_count(count);
        Ok(Answer::of_output(alloc, outcome, lines))
    }

    /// Returns the answer of a fix: the text that it makes, and a line for each issue that is left.
    fn of_fix(alloc: Global, name: &str, text: &[u8], rules: RuleSet) -> Result<Answer, RunFault>
        ensures answer { IfOk result (λ answer.
            IsAnswer (Action.Fix rules) name.now text.now answer.outcome
            (fixed_text_or text.now answer.output) answer.errors.items) }
        ensures fault { IfErr result (IsAnswerFault (Action.Fix rules) text.now) }
    {
        let (output, done, left) = fix_alone(alloc, text, rules)?;
        let new = text_or(&output, text);
        let lines = left.lines(alloc, name, new)?;
        Ok(Answer {
            outcome: FileOutcome::from_issue_count(done.left),
            output,
            errors: lines.into_bytes(),
        })
    }
}

/// Returns a new text, or the old one where there is none.
fn text_or<'a>(new: &'a Option<Vec<u8>>, old: &'a [u8]) -> &'a [u8]
    ensures { result.now ≡ fixed_text_or old.now new.now }
{
    match new {
        Some(new) => new,
        None => old,
    }
}

/// Returns what a check prints of a file with this name: the name, if it is not formatted; standard
/// input has none.
fn check_line(alloc: Global, name: &str, outcome: FileOutcome) -> Result<String, AllocError>
    ensures line { IfOk result (λ line. string_bytes line ≡ check_line name.now outcome) }
    ensures fault { IsErr result → outcome ≡ FileOutcome.NotFormatted }
{
    if matches!(outcome, FileOutcome::NotFormatted) && name != STANDARD_INPUT {
        return format!(in alloc; "{name}\n");
    }
    Ok(String::new(alloc))
}
