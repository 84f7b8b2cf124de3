//! Several commands in order.

ghost use Rattle.std.specs.Prelude.{◌≡◌, ◌<◌, IfOk, IfErr, length};
ghost use Rattle.tf_session.specs.Session.{text_of, records_of};
ghost use Rattle.tf_session.specs.Machine.{Stack, initial_stack, StackRun, WithoutTake};
ghost use Rattle.tf_session.specs.Layers.{History, initial_history, top_text};
ghost use Rattle.tf_session.specs.Layers.{records_in, IsHistory, HistoryRun};
ghost use Rattle.tf_session.specs.Records.{IsJournalOfStack};

use crate::command::{Command, Reply};
use crate::session::Session;
use edit_record::laws::{
    change_result_is_unique, move_to_end_is_unique, transformed_lengths_match,
};
use edit_record::lists::Journal;
use std::alloc::{AllocError, Global};

/// Does the commands in order, over a text with no journal, and returns one reply for each.
///
/// Text and replies are those of a stack of whole texts, on which a fmt pushes the layout, a fix
/// the stated replacement, and from which a revert pops exactly the last; the journal has one
/// record for each two neighbors. With takes among the commands they are those of the first text
/// and the layers of edits on it, of which a take removes any one. A command that runs out of
/// memory has the reply `Memory` and might as well not be in the list.
///
/// # Errors
///
/// No memory for the list of replies; never for no commands. What a command refuses is its reply.
pub fn run(
    alloc: Global,
    text: Vec<u8>,
    commands: &[Command],
) -> Result<(Session, Vec<Reply>), AllocError>
    ensures stack { WithoutTake commands.now
        → IfOk result (λ ran. (end : Stack) × StackRun (initial_stack text.items) commands.now ran.1.items end
        × (text_of ran.0 ≡ end.top) × IsJournalOfStack (records_of ran.0) end.top end.below) }
    ensures layers { IfOk result
        (λ ran. (end : History) × HistoryRun (initial_history text.items) commands.now ran.1.items end
        × (text_of ran.0 ≡ top_text end) × (records_of ran.0 ≡ records_in end.layers)
        × IsHistory end) }
    ensures allocates { IfErr result (λ _. 0 < length commands.now) }
{
    change_result_is_unique();
    move_to_end_is_unique();
    transformed_lengths_match();
    let mut session = Session::start(text, Journal::empty(alloc));
    let mut replies = Vec::new(alloc);
    for command in commands {
        let reply = session.step(alloc, *command);
        replies.push(reply)?;
    }
    Ok((session, replies))
}
