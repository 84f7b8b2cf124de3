//! Rows of texts and commands, with the outcome of each.
//!
//! A row is a command and up to three fields after ` | `: the reply, the text and the journal's
//! text that there are then. A field that is left out is not compared. `state` names the commands.
//! If a row can't be read, or an allocation fails, the last line says so.

mod expected;
mod failing_streams;
mod session_state;

use anyhow::Result;
use session_state::SessionState;

/// Does the rows, prints those with another outcome, and returns how many there are.
pub fn try_rows(rt: &HostRuntime, text: &str) -> Result<u64> {
    let mut state = SessionState::new(rt.alloc());
    let mut count = 0u64;
    for (number, line) in text.lines().enumerate() {
        if !line.is_empty() && !line.starts_with('#') {
            count = count.saturating_add(1);
            try_row(rt, &mut state, number.saturating_add(1), line)?;
        }
    }
    if state.row.is_lost {
        println!(rt; "a row of sessions was not done")?;
    }
    Ok(count)
}

fn try_row(rt: &HostRuntime, state: &mut SessionState, number: usize, line: &str) -> Result<()> {
    let (command, want) = line.split_once(" | ").unwrap_or((line, ""));
    let outcome = state.do_row(command);
    if !outcome.is(&mut state.row, want) {
        let (reply, text, journal) = (&outcome.reply, &outcome.text, &outcome.journal);
        println!(rt; "sessions.rows:{number}: {reply} | {text:?} | {journal:?}")?;
    }
    Ok(())
}
