//! A text fixed until nothing can be fixed, then formatted, and all that reverted.

use crate::corpus::coverage::Coverage;
use crate::corpus::sessions::{is_one_list, reverts_to, step};
use crate::corpus::take_command;
use crate::report::Report;
use crate::state::start;
use tf_session::{Command, RuleSet, Session};

/// How often a text is fixed at most.
const FIXES: usize = 10;

/// Does all that, and answers how many issues are left.
pub fn run(text: &[u8], seen: &mut Coverage, report: &mut Report) -> usize {
    let mut session = start(text, report);
    let left = fix(&mut session, report);
    format(&mut session, report);
    reverts_to(&session, text, report);
    is_one_list(&session, text, report);
    take_command::take_each(&session, text, seen, report);
    left
}

/// Fixes the text until a fix changes nothing.
fn fix(session: &mut Session, report: &mut Report) -> usize {
    for _ in 0..FIXES {
        let done = step(session, Command::Fix(RuleSet::all()), report);
        if done.fixed == 0 {
            report.hold(!done.changed, "a fix of nothing changes the text");
            return done.left;
        }
    }
    report.hold(false, "ten fixes leave something to be fixed");
    0
}

/// Lays the text out; to do so once more changes nothing.
fn format(session: &mut Session, report: &mut Report) {
    step(session, Command::Fmt, report);
    let again = step(session, Command::Fmt, report);
    report.hold(!again.changed, "a layout is laid out in another way");
}
