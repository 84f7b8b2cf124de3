//! A row and its fields.

use std::alloc::Global;
use std::str::from_utf8;

/// The fields of a row: the call, its input, and last the expected answer.
///
/// ` | ` separates fields. In a field `\n`, `\r`, `\t` and `\\` are as in Rust, `\xHH` is a
/// byte, and `\e` nothing. `\+` separates pieces of a field; a piece `\*N*PIECE` is the piece,
/// N times, and in it `\(A+B)` is the number A at the first time, and B more each time.
///
/// Fields are counted from 0. One that is not there is empty, and one that is no number is the
/// greatest number.
#[derive(Drop)]
pub struct Row {
    fields: Vec<Vec<u8>>,
    is_whole: bool,
}

impl Row {
    pub fn read(alloc: Global, line: &str) -> Row {
        let mut row = Row {
            fields: Vec::new(alloc),
            is_whole: true,
        };
        for spelling in line.split(" | ") {
            let field = Field::read(alloc, spelling);
            let is_put = field.is_whole && row.fields.push(field.bytes).is_ok();
            row.is_whole = row.is_whole && is_put;
        }
        row
    }

    /// Whether all of it was read: it is written as rows are, and had memory.
    pub fn is_whole(&self) -> bool {
        self.is_whole
    }

    pub fn text(&self, i: usize) -> &[u8] {
        match self.fields.get(i) {
            Some(field) => field.as_slice(),
            None => b"",
        }
    }

    pub fn word(&self, i: usize) -> &str {
        from_utf8(self.text(i)).unwrap_or("")
    }

    pub fn number(&self, i: usize) -> usize {
        self.word(i).parse::<usize>().unwrap_or(usize::MAX)
    }

    /// Whether this is to be answered.
    pub fn says(&self, found: &[u8]) -> bool {
        match self.fields.last() {
            Some(field) => self.is_whole && field.as_slice() == found,
            None => false,
        }
    }
}

/// How far an escape has been read.
#[derive(Clone, Copy)]
enum EscapeState {
    Plain,
    Escape,
    Hex,
    Hex2(u8),
}

/// The bytes of a field, and whether they are all that it spells.
#[derive(Drop)]
struct Field {
    bytes: Vec<u8>,
    is_whole: bool,
}

impl Field {
    fn read(alloc: Global, spelling: &str) -> Field {
        let mut field = Field {
            bytes: Vec::new(alloc),
            is_whole: true,
        };
        for piece in spelling.split("\\+") {
            field.put_piece(alloc, piece);
        }
        field
    }

    fn put_piece(&mut self, alloc: Global, piece: &str) {
        match piece.strip_prefix("\\*") {
            Some(rest) => {
                let (times, piece) = self.parted(rest, '*');
                for i in 0..self.number(times) {
                    self.put_counted(alloc, piece, i);
                }
            }
            None => self.put_counted(alloc, piece, 0),
        }
    }

    /// The piece for the time i, counted from 0.
    fn put_counted(&mut self, alloc: Global, piece: &str, i: u64) {
        let mut is_first = true;
        for part in piece.split("\\(") {
            if is_first {
                self.put_plain(part);
            } else {
                let (number, rest) = self.parted(part, ')');
                self.put_number(alloc, number, i);
                self.put_plain(rest);
            }
            is_first = false;
        }
    }

    fn put_number(&mut self, alloc: Global, spelling: &str, i: u64) {
        let (first, step) = self.parted(spelling, '+');
        let number = self
            .number(first)
            .saturating_add(self.number(step).saturating_mul(i));
        match format!(in alloc; "{number}") {
            Ok(text) => self.put_plain(text.as_str()),
            Err(_) => self.is_whole = false,
        }
    }

    fn put_plain(&mut self, piece: &str) {
        let mut state = EscapeState::Plain;
        for byte in piece.bytes() {
            state = match state {
                EscapeState::Plain if byte == b'\\' => EscapeState::Escape,
                EscapeState::Plain => {
                    self.push(byte);
                    EscapeState::Plain
                }
                EscapeState::Escape if byte == b'x' => EscapeState::Hex,
                EscapeState::Escape => {
                    if let Some(byte) = escaped(byte) {
                        self.push(byte);
                    }
                    EscapeState::Plain
                }
                EscapeState::Hex => EscapeState::Hex2(digit(byte)),
                EscapeState::Hex2(high) => {
                    self.push(high.wrapping_mul(16) | digit(byte));
                    EscapeState::Plain
                }
            };
        }
    }

    fn push(&mut self, byte: u8) {
        let is_put = self.bytes.push(byte).is_ok();
        self.is_whole = self.is_whole && is_put;
    }

    /// The text before the first such character, and the text after it.
    fn parted<'t>(&mut self, text: &'t str, at: char) -> (&'t str, &'t str) {
        let parts = text.split_once(at);
        self.is_whole = self.is_whole && parts.is_some();
        parts.unwrap_or((text, ""))
    }

    fn number(&mut self, text: &str) -> u64 {
        let number = text.parse::<u64>().ok();
        self.is_whole = self.is_whole && number.is_some();
        number.unwrap_or(0)
    }
}

fn escaped(byte: u8) -> Option<u8> {
    match byte {
        b'n' => Some(b'\n'),
        b'r' => Some(b'\r'),
        b't' => Some(b'\t'),
        b'e' => None,
        _ => Some(byte),
    }
}

/// The value of a hexadecimal digit, in small letters.
fn digit(byte: u8) -> u8 {
    if byte >= b'a' {
        byte.wrapping_sub(b'a').wrapping_add(10)
    } else {
        byte.wrapping_sub(b'0')
    }
}
