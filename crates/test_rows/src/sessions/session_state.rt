//! The commands of rows, over a session that lies on the state.

use crate::sessions::expected::{Outcome, Reading};
use crate::sessions::failing_streams::{Bounded, Slow};
use std::alloc::Global;
use std::str::from_utf8;
use tf_session::{
    Command, Done, Journal, Reply, Rule, RuleSet, RunFault, Session, Told, check_stream,
    fix_stream, fmt_stream, journal_text, lint_stream, load, revert_stream, run, step_text_stream,
};

/// What lies there.
#[derive(Drop)]
pub struct SessionState {
    pub row: Reading,
    session: Session,
}

impl SessionState {
    pub fn new(alloc: Global) -> SessionState {
        SessionState {
            row: Reading {
                alloc,
                is_lost: false,
            },
            session: Session::start(Vec::new(alloc), Journal::empty(alloc)),
        }
    }

    /// Does a command.
    ///
    /// `text T` begins a session over T, and `fill N T` over T and as many `x` as make N bytes;
    /// `hand T` puts T in the place of its text by hand; `journal J` reads J beside its text.
    /// `fmt`, `fix` (by all rules), `fix-none`, `fix-RULE+RULE..` (by these alone), `revert` and
    /// `take-N` are done on it. `check`, `lint`, `run COMMAND ..`, `through COMMAND R W` and
    /// `stream COMMAND R J K W` leave it: they are done over its text, and its journal; the reads
    /// of numbers R and J fail, and the writers take K and W bytes. The commands of `run` are
    /// written as a field is.
    pub fn do_row(&mut self, row: &str) -> Outcome {
        let (word, rest) = row.split_once(' ').unwrap_or((row, ""));
        match word {
            "text" => {
                let text = self.row.decoded(rest);
                self.start(text)
            }
            "fill" => {
                let text = self.filled(rest);
                self.start(text)
            }
            "hand" => self.hand(rest),
            "journal" => self.journal(rest),
            "check" => self.checked(),
            "lint" => self.linted(),
            "run" => self.ran(rest),
            "through" => self.through(rest),
            "stream" => self.streamed(rest),
            _ => self.stepped(word),
        }
    }

    fn command_of(&mut self, word: &str) -> Command {
        if let Some(number) = word.strip_prefix("take-") {
            return Command::Take(self.row.kept(number.parse::<u32>(), 0));
        }
        if let Some(names) = word.strip_prefix("fix-") {
            return Command::Fix(self.rules_of(names));
        }
        match word {
            "fmt" => Command::Fmt,
            "fix" => Command::Fix(RuleSet::all()),
            "revert" => Command::Revert,
            _ => {
                self.row.is_lost = true;
                Command::Revert
            }
        }
    }

    /// The rules of names with `+` between them; none of `none`.
    fn rules_of(&mut self, names: &str) -> RuleSet {
        let mut rules = RuleSet::none();
        for name in names.split('+') {
            match Rule::by_name(name) {
                Some(rule) => rules = rules.with(rule),
                None => self.row.is_lost = self.row.is_lost || name != "none",
            }
        }
        rules
    }

    /// A text, and as many `x` as make the given number of bytes.
    fn filled(&mut self, rest: &str) -> Vec<u8> {
        let (len, prefix) = rest.split_once(' ').unwrap_or((rest, ""));
        let mut text = self.row.decoded(prefix);
        let len = self.row.number(Some(len));
        for _ in text.len()..len {
            let pushed = text.push(b'x');
            self.row.kept(pushed, ());
        }
        text
    }

    fn start(&mut self, text: Vec<u8>) -> Outcome {
        self.session = Session::start(text, Journal::empty(self.row.alloc));
        self.lies(String::new(self.row.alloc))
    }

    fn hand(&mut self, rest: &str) -> Outcome {
        let journal = self.journal_bytes();
        let text = self.row.decoded(rest);
        self.read(text.as_slice(), journal.as_slice())
    }

    fn journal(&mut self, rest: &str) -> Outcome {
        let journal = self.row.decoded(rest);
        let text = self.row.copied(self.session.text());
        self.read(text.as_slice(), journal.as_slice())
    }

    fn journal_bytes(&mut self) -> Vec<u8> {
        let alloc = self.row.alloc;
        let journal = journal_text(alloc, &self.session);
        self.row.kept(journal, Vec::new(alloc))
    }

    /// What lies on the state.
    fn lies(&mut self, reply: String) -> Outcome {
        Outcome {
            reply,
            text: self.row.copied(self.session.text()),
            journal: self.journal_bytes(),
        }
    }

    fn stepped(&mut self, word: &str) -> Outcome {
        let command = self.command_of(word);
        let answer = self.session.step(self.row.alloc, command);
        let reply = self.row.said(of_run(answer));
        self.lies(reply)
    }

    fn read(&mut self, text: &[u8], journal: &[u8]) -> Outcome {
        let loaded = load(
            self.row.alloc,
            &mut Told::new(Slow::new(text, 0)),
            &mut Told::new(Slow::new(journal, 0)),
        );
        let reply = match loaded {
            Ok(session) => {
                self.session = session;
                String::new(self.row.alloc)
            }
            Err(fault) => self.row.message_of(fault),
        };
        self.lies(reply)
    }

    fn checked(&mut self) -> Outcome {
        let alloc = self.row.alloc;
        let mut text = Told::new(Slow::new(self.session.text(), 0));
        let reply = match check_stream(alloc, &mut text) {
            Ok(answer) => {
                let said = format!(in alloc; "{answer}");
                self.row.kept(said, String::new(alloc))
            }
            Err(fault) => self.row.message_of(fault),
        };
        self.lies(reply)
    }

    /// The lines go where the text would.
    fn linted(&mut self) -> Outcome {
        let alloc = self.row.alloc;
        let mut out = Told::new(Bounded::new(alloc, 1 << 30));
        let mut text = Told::new(Slow::new(self.session.text(), 0));
        let reply = match lint_stream(alloc, "main.tf", &mut text, &mut out, RuleSet::all()) {
            Ok(count) => {
                let said = format!(in alloc; "{count} issues");
                self.row.kept(said, String::new(alloc))
            }
            Err(fault) => self.row.message_of(fault),
        };
        Outcome {
            reply,
            text: out.into_inner().written,
            journal: Vec::new(alloc),
        }
    }

    fn ran(&mut self, rest: &str) -> Outcome {
        let mut commands = Vec::new(self.row.alloc);
        let words = self.row.decoded(rest);
        for word in from_utf8(words.as_slice()).unwrap_or("").split(' ') {
            let command = self.command_of(word);
            let pushed = commands.push(command);
            self.row.kept(pushed, ());
        }
        let text = self.row.copied(self.session.text());
        match run(self.row.alloc, text, commands.as_slice()) {
            Ok(ended) => self.ended(ended),
            Err(_) => self.lies(String::new(self.row.alloc)),
        }
    }

    /// Where a run ends: its session lies on the state no longer than to be seen.
    fn ended(&mut self, ended: (Session, Vec<Reply>)) -> Outcome {
        let alloc = self.row.alloc;
        let (end, replies) = ended;
        let mut all = String::new(alloc);
        for reply in replies {
            let said = self.row.said(of_run(reply));
            let between = if all.is_empty() { "" } else { ", " };
            let pushed = all.push_str(between);
            self.row.kept(pushed, ());
            let pushed = all.push_str(said.as_str());
            self.row.kept(pushed, ());
        }
        let journal = journal_text(alloc, &end);
        Outcome {
            reply: all,
            text: self.row.copied(end.text()),
            journal: self.row.kept(journal, Vec::new(alloc)),
        }
    }

    fn through(&mut self, rest: &str) -> Outcome {
        let alloc = self.row.alloc;
        let mut words = rest.split(' ');
        let command = self.command_of(words.next().unwrap_or(""));
        let fails_at = self.row.number(words.next());
        let capacity = self.row.number(words.next());
        let mut text = Told::new(Slow::new(self.session.text(), fails_at));
        let mut out = Told::new(Bounded::new(alloc, capacity));
        let answer = match step_text_stream(alloc, command, &mut text, &mut out) {
            Ok((_, done)) => Ok(done),
            Err(fault) => Err(fault),
        };
        Outcome {
            reply: self.row.said(answer),
            text: out.into_inner().written,
            journal: Vec::new(alloc),
        }
    }

    fn streamed(&mut self, rest: &str) -> Outcome {
        let alloc = self.row.alloc;
        let mut words = rest.split(' ');
        let command = self.command_of(words.next().unwrap_or(""));
        let bytes = self.journal_bytes();
        let fails_at = [self.row.number(words.next()), self.row.number(words.next())];
        let capacity = [self.row.number(words.next()), self.row.number(words.next())];
        let mut text = Told::new(Slow::new(self.session.text(), fails_at[0]));
        let mut journal = Told::new(Slow::new(bytes.as_slice(), fails_at[1]));
        let mut journal_out = Told::new(Bounded::new(alloc, capacity[0]));
        let mut out = Told::new(Bounded::new(alloc, capacity[1]));
        let answer = match command {
            Command::Fmt => fmt_stream(alloc, &mut text, &mut journal, &mut journal_out, &mut out),
            Command::Fix(rules) => fix_stream(
                alloc,
                &mut text,
                &mut journal,
                &mut journal_out,
                &mut out,
                rules,
            ),
            _ => revert_stream(alloc, &mut text, &mut journal, &mut journal_out, &mut out),
        };
        Outcome {
            reply: self.row.said(answer),
            text: out.into_inner().written,
            journal: journal_out.into_inner().written,
        }
    }
}

/// What a command answers, as a stream of one does.
fn of_run(answer: Reply) -> Result<Done, RunFault> {
    match answer {
        Ok(done) => Ok(done),
        Err(fault) => Err(RunFault::from(fault)),
    }
}
