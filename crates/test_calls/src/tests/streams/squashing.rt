//! The records of a journal, squashed one after another.

use crate::tests::given;
use edit_record::{Change, Edits, squash};
use tf_session::{Command, RuleSet, run};

#[test]
fn the_records_of_a_run_squash_to_one_list(rt: HostRuntime) {
    let alloc = rt.alloc();
    let old = b"a=1//b\n  c=1\n".as_slice();
    let commands = [Command::Fmt, Command::Fix(RuleSet::all()), Command::Fmt];
    let text = given(&rt, Vec::from_slice(alloc, old));
    let (session, _) = given(&rt, run(alloc, text, commands.as_slice()));
    let mut all = given(&rt, Edits::make(old.len(), Vec::new(alloc)));
    for record in session.journal().records() {
        all = given(&rt, squash(alloc, &all, record.edits()));
    }
    let applied = given(&rt, all.apply(alloc, old));
    assert!(rt; applied.as_slice() == b"a = 1 #b\nc = 1\n".as_slice());
    let undone = given(&rt, all.undo(alloc, session.text()));
    assert!(rt; undone.as_slice() == old);
}
