//! What the calls are made on.

use crate::tests::{Host, given};
use edit_record::{Edit, Edits, Journal, Record, Word, decode, decode_owned};
use tf_session::{Command, Done, RuleSet, Session};

/// A text with each construct of the grammar, lists that grow more than once, an issue of each
/// rule, and gaps that a layout sets.
pub const TEXT: &[u8] = b"\
variable \"myVar\" {}
output \"o\" {
  description = \"\"
}
locals {
 aB=1 // one
  cells = [1,2, 3 ,4,5,6] // two
}
resource \"aws_instance\" \"web\" {
 count=var.a.0.1
  name = \"${var.n}\"
  pairs = [for k,v in var.m : \"${k}-${v}\" if v != null]
  upper = {for k in [\"a\", \"b\"] : k => upper(k)... if true}
  title = \"a %{ if x ~}b%{ else }c%{ endif } d %{ for i in l }${i},%{ endfor }\"
  text = <<-EOT
    one ${a} %{ if b }x%{ endif }
     two $${c}
  EOT
  map = { a = 1, \"b\" : 2
    c = 3
    d = 4, e = 5, f = 6 }
  choice = a ? b : c == [] ? d : (e)
  not = !a || -b + 1 * 2 / 4 % 5 - 6 > 3 && true
  many = core::maths::max(1, 2, 3, 4, 5, c...)
  all = a.*.b.c
  each = a[*].b[\"k\"].c[0].d
  none = xs == []
  some = [] != xs /* inline */
  got = lookup(lookup(a, b), c)
  inner = [!a, (b ? -c : d), e.f.g, h(i, j) + 1, k[l ? m : n], { o = p ? q : r }, \"s${t ? u : v}\"]
  each_of = [for w in x : w if w ? true : !w]
  nested_text = \"${\"y${ { key = \"${\"${z}\"}\" } }\"}\"
  nested { x=1 }
  deep a \"b\" c \"d\" e \"f\" {
    deeper {}
   deepest {
    // three
    y =[{
    z=(1)
    }]
   }
  }
}
# tflint-ignore: terraform_deprecated_index
w = a.0
";

/// Two texts: one begins with a mark and is too short to have capacity for it reserved, the other
/// opens a heredoc first.
pub const SHORT: [&[u8]; 2] = [b"\xef\xbb\xbfa=1", b"a = <<E\nb\nE\n"];

/// One line with an issue, in a session and its journal.
pub const LINE: &[u8] = b"a = 1 // one\n";

/// The text of a journal of three records, from `FIRST` to `LAST`.
pub const JOURNAL: &[u8] = b"tfrec 2 fmt 4 2\n1 0 1\n \n2 0 1\n \nend\n\
    tfrec 2 fix 6 2\n4 1 2\n122\n5 0 3\n #c\nend\n\
    tfrec 2 fix 10 1\n6 3 0\n #c\nend\n";

/// Its first two records.
pub const BEGUN_JOURNAL: &[u8] = b"tfrec 2 fmt 4 2\n1 0 1\n \n2 0 1\n \nend\n\
    tfrec 2 fix 6 2\n4 1 2\n122\n5 0 3\n #c\nend\n";

/// The text before the first of those records.
pub const FIRST: &[u8] = b"x=1\n";

/// The text before the last of them.
pub const COMMENTED: &[u8] = b"x = 22 #c\n";

/// The text after them all.
pub const LAST: &[u8] = b"x = 22\n";

/// The journal of version 1 with equivalent steps: each record has two or three.
pub const OLD_JOURNAL: &[u8] = b"tfrec 1 fmt 2\nstep 4 1\n1 0 1\n \nstep 5 1\n3 0 1\n \nend\n\
    tfrec 1 fix 3\nstep 6 1\n4 1 2\n122\nstep 7 1\n6 0 3\n #c\nstep 10 1\n6 3 0\n #c\nend\n";

/// What that becomes.
pub const MIGRATED: &[u8] = b"tfrec 2 fmt 4 2\n1 0 1\n \n2 0 1\n \nend\n\
    tfrec 2 fix 6 1\n4 1 2\n122\nend\n";

/// A journal from `abcdef` to `APART`, whose first record meets no other.
pub const APART_JOURNAL: &[u8] = b"tfrec 2 fix 6 1\n2 1 0\nc\nend\n\
    tfrec 2 fmt 5 1\n0 1 2\naAA\nend\n\
    tfrec 2 fix 6 2\n4 1 0\ne\n6 0 1\n!\nend\n";

/// The text after them all.
pub const APART: &[u8] = b"AAbdf!";

/// The journal without its first record, and the text without what that did.
pub const LEFT_JOURNAL: &[u8] = b"tfrec 2 fmt 6 1\n0 1 2\naAA\nend\n\
    tfrec 2 fix 7 2\n5 1 0\ne\n7 0 1\n!\nend\n";

pub const LEFT: &[u8] = b"AAbcdf!";

/// More bytes than come to any writer here.
const CAPACITY: usize = 100_000;

/// All rules.
pub fn fix_all() -> Command {
    Command::Fix(RuleSet::all())
}

/// A journal from its text.
pub fn journal_of(rt: &impl Host, text: &[u8]) -> Journal {
    given(rt, decode(rt.alloc(), text))
}

/// The journal that is read from its first two records, whose text it keeps, with the third pushed.
pub fn continued_journal(rt: &impl Host) -> Journal {
    let mut journal = given(rt, decode_owned(rt.alloc(), bytes_of(rt, BEGUN_JOURNAL)));
    let last = Record::make(Word::Fix, edits_of(rt, 10, &[(6, " #c", "")]));
    given(rt, journal.push(last));
    journal
}

/// Bytes of a list of their own.
pub fn bytes_of(rt: &impl Host, bytes: &[u8]) -> Vec<u8> {
    given(rt, Vec::from_slice(rt.alloc(), bytes))
}

/// A session over a text and a journal.
pub fn session_of(rt: &impl Host, text: &[u8], journal: &[u8]) -> Session {
    Session::start(bytes_of(rt, text), journal_of(rt, journal))
}

/// The session over a text and a journal after a command that changes the text, and what that did.
pub fn changed(rt: &impl Host, text: &[u8], journal: &[u8], command: Command) -> (Session, Done) {
    let mut session = session_of(rt, text, journal);
    let done = given(rt, session.step(rt.alloc(), command));
    assert!(rt; done.changed, "the text does not change");
    (session, done)
}

/// An edit: its place, what is removed there, and what is added.
pub type Row = (usize, &'static str, &'static str);

/// The edits of these rows.
pub fn edits_of(rt: &impl Host, old_len: usize, rows: &[Row]) -> Edits {
    let mut edits = Vec::new(rt.alloc());
    for (at, removed, added) in rows {
        let edit = Edit::new(rt.alloc(), *at, removed.as_bytes(), added.as_bytes());
        given(rt, edits.push(given(rt, edit)));
    }
    given(rt, Edits::make(old_len, edits))
}

/// A list that takes no memory while it is written to.
pub fn preallocated(rt: &impl Host) -> Vec<u8> {
    given(rt, Vec::with_capacity(rt.alloc(), CAPACITY))
}
