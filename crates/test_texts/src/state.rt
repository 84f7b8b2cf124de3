//! Sessions, and what lies in them.

use crate::report::Report;
use tf_session::{Journal, Session, Told, journal_text, load};

/// A text and the text of a journal.
#[derive(Drop)]
pub struct State {
    pub text: Vec<u8>,
    pub journal: Vec<u8>,
}

impl State {
    /// What lies in a session.
    pub fn of(session: &Session, report: &mut Report) -> State {
        State {
            text: report.copy(session.text()),
            journal: report.bytes(journal_text(report.alloc, session)),
        }
    }

    pub fn is(&self, other: &State) -> bool {
        self.text.as_slice() == other.text.as_slice()
            && self.journal.as_slice() == other.journal.as_slice()
    }

    /// Notes where something else lies in the session.
    pub fn hold(&self, session: &Session, report: &mut Report, what: &'static str) {
        let other = State::of(session, report);
        report.hold(self.is(&other), what);
    }

    /// A session in which this lies.
    pub fn session(&self, report: &mut Report) -> Session {
        let mut text = Told::new(self.text.as_slice());
        let mut journal = Told::new(self.journal.as_slice());
        match load(report.alloc, &mut text, &mut journal) {
            Ok(session) => session,
            Err(_) => {
                report.hold(false, "a session is not loaded");
                start(b"", report)
            }
        }
    }
}

/// A session over the text without a journal.
pub fn start(text: &[u8], report: &mut Report) -> Session {
    Session::start(report.copy(text), Journal::empty(report.alloc))
}
