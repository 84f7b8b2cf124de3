//! Calls of the libraries, as the program makes them, and a digest of their results.

use crate::chance::Chance;
use std::alloc::Global;
use tf_session::{
    Command, Journal, RuleSet, RunFault, Session, Told, check_stream, fix_without_session,
    format_text_stream, lint_stream, load, save,
};

/// The name of a file in its reports.
const NAME: &str = "main.tf";

/// A file and its journal.
#[derive(Drop)]
pub struct State {
    pub text: Vec<u8>,
    pub journal: Vec<u8>,
}

/// What all calls have answered and written, as one number.
#[derive(Drop)]
pub struct Results {
    pub alloc: Global,
    pub chance: Chance,
    digest: u64,
    refused: u64,
}

impl Results {
    pub fn new(alloc: Global, seed: u32) -> Results {
        Results {
            alloc,
            chance: Chance::new(seed),
            digest: 0,
            refused: 0,
        }
    }

    pub fn digest(&self) -> u64 {
        self.digest
    }

    /// How many calls were refused.
    pub fn refused(&self) -> u64 {
        self.refused
    }

    /// Takes a number into the digest.
    pub fn add_number(&mut self, number: u64) {
        let mixed = (self.digest ^ number).wrapping_mul(0x9e37_79b9_7f4a_7c15);
        self.digest = mixed ^ (mixed >> 29);
    }

    /// Takes bytes and their number into the digest, eight at a time.
    pub fn add_bytes(&mut self, bytes: &[u8]) {
        let (words, rest) = bytes.as_chunks::<8>();
        for word in words {
            self.add_number(u64::from_le_bytes(*word));
        }
        for byte in rest {
            self.add_number(u64::from(*byte));
        }
        self.add_number(bytes.len() as u64);
    }

    fn add_refusal(&mut self) {
        self.refused = self.refused.saturating_add(1);
        self.add_number(u64::MAX);
    }

    /// `fmt --check`.
    pub fn check(&mut self, text: &[u8]) {
        let mut input = text;
        match check_stream(self.alloc, &mut Told::new(&mut input)) {
            Ok(is_formatted) => self.add_number(u64::from(is_formatted)),
            Err(_) => self.add_refusal(),
        }
    }

    /// `lint`.
    pub fn lint(&mut self, text: &[u8]) {
        let mut input = text;
        let mut out: Vec<u8> = Vec::new(self.alloc);
        let text = &mut Told::new(&mut input);
        match lint_stream(
            self.alloc,
            NAME,
            text,
            &mut Told::new(&mut out),
            RuleSet::all(),
        ) {
            Ok(count) => self.add_number(count as u64),
            Err(_) => self.add_refusal(),
        }
        self.add_bytes(&out);
    }

    /// `fmt -`.
    pub fn format(&mut self, text: &[u8]) {
        let mut input = text;
        let mut out: Vec<u8> = Vec::new(self.alloc);
        let text = &mut Told::new(&mut input);
        match format_text_stream(self.alloc, text, &mut Told::new(&mut out)) {
            Ok(()) => self.add_bytes(&out),
            Err(_) => self.add_refusal(),
        }
    }

    /// `fix -`.
    pub fn fix(&mut self, text: Vec<u8>) {
        let Ok((text, done, left)) = fix_without_session(self.alloc, text, RuleSet::all()) else {
            return self.add_refusal();
        };
        self.add_number(done.fixed as u64);
        match left.lines(self.alloc, NAME, &text) {
            Ok(lines) => self.add_bytes(lines.as_bytes()),
            Err(_) => self.add_refusal(),
        }
        self.add_bytes(&text);
    }

    /// `fmt`, `fix` or `revert` of a file with its journal: both are read, and written if they
    /// change.
    pub fn change(&mut self, command: Command, state: &mut State) {
        let Ok((lines, saved)) = changed(self.alloc, command, state) else {
            return self.add_refusal();
        };
        self.add_bytes(&lines);
        if let Some(new) = saved {
            self.add_bytes(&new.text);
            self.add_bytes(&new.journal);
            *state = new;
        }
    }

    /// `revert --list`.
    pub fn list(&mut self, state: &State) {
        match loaded(self.alloc, state) {
            Ok(session) => self.add_records(session.journal()),
            Err(_) => self.add_refusal(),
        }
    }

    fn add_records(&mut self, journal: &Journal) {
        for record in journal.records() {
            self.add_number(record.edits().edits().len() as u64);
        }
    }
}

fn loaded(alloc: Global, state: &State) -> Result<Session, RunFault> {
    let mut text = state.text.as_slice();
    let mut journal = state.journal.as_slice();
    load(
        alloc,
        &mut Told::new(&mut text),
        &mut Told::new(&mut journal),
    )
}

/// What a command reports, and what it makes of a file if that is to be saved.
fn changed(
    alloc: Global,
    command: Command,
    state: &State,
) -> Result<(Vec<u8>, Option<State>), RunFault> {
    let mut session = loaded(alloc, state)?;
    let (lines, is_changed) = run_command(alloc, command, &mut session)?;
    if is_changed {
        let new = saved(alloc, &session)?;
        Ok((lines, Some(new)))
    } else {
        Ok((lines, None))
    }
}

/// Runs a command, and answers the lines of the issues left and whether the file is to be saved.
fn run_command(
    alloc: Global,
    command: Command,
    session: &mut Session,
) -> Result<(Vec<u8>, bool), RunFault> {
    let Command::Fix(rules) = command else {
        let done = session.step(alloc, command)?;
        return Ok((Vec::new(alloc), done.changed));
    };
    let (done, left) = session.fix(alloc, rules)?;
    let lines = left.lines(alloc, NAME, session.text())?;
    Ok((lines.into_bytes(), done.changed))
}

fn saved(alloc: Global, session: &Session) -> Result<State, RunFault> {
    let mut text = Vec::new(alloc);
    let mut journal = Vec::new(alloc);
    save(
        alloc,
        session,
        &mut Told::new(&mut journal),
        &mut Told::new(&mut text),
    )?;
    Ok(State { text, journal })
}
