//! Whether what is written is what is expected.

ghost use Rattle.std.specs.Prelude.{◌≡◌, ◌↔◌, ◌&&◌, ◌==◌, IsTrue, None, length, true};
ghost use Rattle.kc_history.specs.Text.{bare_record, reply_line};
ghost use Rattle.kc_check.specs.Matched.{MatchesPiece};

use kc_history::{Head, write_reply_line};
use kc_model::{Failed, Sink};
use std::marker::Model;

/// A sink that compares what is written with what is expected.
#[derive(Drop)]
pub(crate) struct Matching<'a> {
    left: &'a [u8],
    same: bool,
}

impl<'a> Model for Matching<'a> {
    ghost use Rattle.kc_check.specs.Matched.{Matched};

    ghost Value = { Matched };

    ghost view = { λ m. record { left = m.left.now; same = m.same } };
}

impl<'a> Matching<'a> {
    pub(crate) fn new(expected: &'a [u8]) -> Matching<'a>
        ensures { result ≡ record { left = expected.now; same = true } }
    {
        Matching {
            left: expected,
            same: true,
        }
    }

    /// Whether all that was expected came, and nothing else.
    pub(crate) fn is_met(&self) -> bool
        ensures { result ≡ (self.now.same && (length self.now.left == 0)) }
    {
        self.same && self.left.len() == 0
    }
}

impl<'a> Sink for Matching<'a> {
    ghost written = { λ s. None };

    ghost faults = { λ s. 0 };

    ghost write_gives = { MatchesPiece };

    fn write(&mut self, buf: &[u8]) -> Result<usize, Failed> {
        match self.left.strip_prefix(buf) {
            Some(left) => self.left = left,
            None => self.same = false,
        }
        Ok(buf.len())
    }
}

/// Whether the line is what a text says of the record with this head: of an end nothing.
pub(crate) fn is_reply(line: &[u8], head: &Head) -> bool
    ensures { IsTrue result ↔ (line.now ≡ reply_line (bare_record head.now)) }
{
    let mut sink = Matching::new(line);
    if write_reply_line(head, &mut sink).is_err() {
        unreachable!("it never fails");
    }
    sink.is_met()
}
