//! Standard input and standard output as a source and a sink: each passes on what the reader or the writer moves, and
//! counts its faults. It tells no bytes of its own, since a reader may come to know its bytes later.

ghost use Rattle.std.specs.Prelude.{◌≡◌, None};
ghost use Rattle.kcas.specs.Ends.{PassesRead, PassesWrite};

#[cfg(test)]
mod tests;

use kc_model::{Failed, Sink, Source};
use std::io::{Read, Write};

/// What is read from a reader, as standard input.
#[derive(Drop)]
pub struct StdinSource<R> {
    input: R,
    faults: u64,
}

impl<R: Read> StdinSource<R> {
    pub fn new(input: R) -> StdinSource<R>
        ensures { result ≡ record { input = input; faults = 0 } }
    {
        StdinSource { input, faults: 0 }
    }
}

impl<R: Read> Source for StdinSource<R> {
    ghost left = { λ _. None };

    ghost faults = { λ s. s.faults };

    ghost read_gives = { PassesRead R.remaining };

    #[tactic(auto, unfolding(kc_model::specs::Outside::ahead))]
    fn read(&mut self, buf: &mut [u8]) -> Result<usize, Failed> {
        match self.input.read(buf) {
            Ok(count) => Ok(count),
            Err(_) => {
                self.faults = self.faults.saturating_add(1);
                Err(Failed)
            }
        }
    }
}

/// What is written to a writer, as standard output.
#[derive(Drop)]
pub struct StdoutSink<W> {
    output: W,
    faults: u64,
}

impl<W: Write> StdoutSink<W> {
    pub fn new(output: W) -> StdoutSink<W>
        ensures { result ≡ record { output = output; faults = 0 } }
    {
        StdoutSink { output, faults: 0 }
    }
}

impl<W: Write> Sink for StdoutSink<W> {
    ghost written = { λ _. None };

    ghost faults = { λ s. s.faults };

    ghost write_gives = { PassesWrite W.contents };

    #[tactic(auto, unfolding(kc_model::specs::Outside::behind))]
    // A writer that would take nothing of a piece counts as failed, since writing would not end.
    fn write(&mut self, buf: &[u8]) -> Result<usize, Failed> {
        match self.output.write(buf) {
            Ok(count) if count > 0 || buf.is_empty() => Ok(count),
            _ => {
                self.faults = self.faults.saturating_add(1);
                Err(Failed)
            }
        }
    }
}
