//! The place of a token in bytes, and its kind.

ghost use Rattle.std.specs.Prelude.{◌≡◌, ◌<◌, ◌≤◌, ◌+◌, ◌-◌, ◌%◌, ◌^◌};
ghost use Rattle.hcl_token.specs.Inner.TokenWord.{number_of, word_of};
ghost use Rattle.hcl_token.specs.declared.limit.TheConstants.{MAX_TEXT};

use crate::kind::Kind;
use std::marker::Model;

/// The place and the kind of a token: its spelling is the bytes of its text from `start` to `stop`,
/// counted from 0. The gap before it begins where the token before it stops, or at 0.
///
/// It takes 8 bytes: a token begins before the end of its text, so 24 bits hold its start, which is
/// `low` + 256 * `high`. As fields are laid out today these are one word in memory (`word`), so
/// that the processor moves and compares a token by one addition, and several at once: speed alone
/// rests on that.
#[derive(Clone, Copy)]
pub struct Span {
    kind: Kind,
    low: u8,
    high: u16,
    stop: u32,
}

/// How much the word of a token grows where its start and its stop grow by 1.
pub(crate) const STEP: u64 = 4_294_967_552;

impl Model for Span {
    ghost use Rattle.std.specs.Prelude.{◌≡◌, ◌+◌, ◌*◌, ◌/◌, ◌%◌, ◌<◌};
    ghost use Rattle.std.proofs.Common.{arith};
    ghost use Rattle.hcl_token.specs.TokenSpan.{TokenSpan};

    ghost Value = { TokenSpan };

    ghost view = { λ t. record { start = t.low + 256 * t.high; stop = t.stop; kind = t.kind } };

    ghost invariant = { λ t. t.low < 256 };

    ghost inverse = { λ s. record {
      kind = s.kind;
      low = s.start % 256;
      high = s.start / 256;
      stop = s.stop;
    } };

    ghost inverse_ok = { λ t h i.
        let low : (t.low + 256 * t.high) % 256 ≡ t.low = omega (arith, h) in
        let high : (t.low + 256 * t.high) / 256 ≡ t.high = omega (arith, h) in
        record { kind = t.kind; low = low i; high = high i; stop = t.stop } };
}

/// Returns the number of a kind.
#[inline]
fn number_of(kind: Kind) -> u8
    ensures { result ≡ number_of kind }
{
    kind as u8
}

impl Span {
    /// Returns the span of a token between two offsets in bytes.
    #[inline]
    pub fn new(start: u32, stop: u32, kind: Kind) -> Span
        requires { start < MAX_TEXT }
        ensures { result ≡ record { start = start; stop = stop; kind = kind } }
    {
        Span {
            kind,
            low: (start % 256) as u8,
            high: (start / 256) as u16,
            stop,
        }
    }

    /// Returns where the token starts, in bytes from 0.
    #[inline]
    pub fn start(self) -> u32
        ensures { result ≡ self.start }
    {
        u32::from(self.low) + 256 * u32::from(self.high)
    }

    /// Returns where the token stops, in bytes from 0.
    #[inline]
    pub fn stop(self) -> u32
        ensures { result ≡ self.stop }
    {
        self.stop
    }

    /// Returns the kind of the token.
    #[inline]
    pub fn kind(self) -> Kind
        ensures { result ≡ self.kind }
    {
        self.kind
    }

    /// Returns the token as it is if the bytes from place `from` on move to place `to`.
    #[inline]
    pub fn moved(self, from: u32, to: u32) -> Span
        requires start { from ≤ self.start }
        requires stop { self.start ≤ self.stop }
        requires fits { to + (self.start - from) < MAX_TEXT }
        requires short { to + (self.stop - from) < 2 ^ 32 }
        ensures { result ≡ record {
          start = to + (self.start - from);
          stop = to + (self.stop - from);
          kind = self.kind;
        } }
    {
        let word = self.word() - STEP * u64::from(from) + STEP * u64::from(to);
        Span {
            kind: self.kind,
            low: (word / 256 % 256) as u8,
            high: (word / 65_536 % 65_536) as u16,
            stop: (word / 4_294_967_296) as u32,
        }
    }

    /// Returns kind, start and stop as one number.
    #[inline]
    fn word(self) -> u64
        ensures { result ≡ word_of self }
    {
        u64::from(number_of(self.kind))
            + 256 * u64::from(self.low)
            + 65_536 * u64::from(self.high)
            + 4_294_967_296 * u64::from(self.stop)
    }

    /// Returns the distance from the word of another token to this one's, modulo 2^64.
    #[inline]
    pub(crate) fn word_distance(self, other: Span) -> u64
        ensures { result ≡ (word_of self + 2 ^ 64 - word_of other) % 2 ^ 64 }
    {
        self.word().wrapping_sub(other.word())
    }
}
