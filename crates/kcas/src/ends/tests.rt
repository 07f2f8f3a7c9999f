ghost use Rattle.std.specs.Prelude.{◌≡◌, IfOk};

use super::{StdinSource, StdoutSink};
use crate::asserts::equal;
use kc_model::{Failed, Sink, Source};
use std::io;
use std::io::{Read, Write};
use std::test::Fail;

/// Lengths round those of a page.
const LENGTHS: [usize; 4] = [1, 2048, 4096, 4097];

#[test]
fn pieces_of_any_length_are_passed_on(rt: HostRuntime) -> Result<(), Fail> {
    for len in LENGTHS {
        let bytes = vec![in rt.alloc(); b'k'; len]?;
        let mut piece = vec![in rt.alloc(); 0u8; len]?;
        let mut source = StdinSource::new(bytes.as_slice());
        equal(&rt, source.read(&mut piece), Ok(len));
        equal(&rt, piece.as_slice(), bytes.as_slice());
        let mut sink = StdoutSink::new(Vec::new(rt.alloc()));
        equal(&rt, sink.write(&bytes), Ok(len));
    }
    let mut source = StdinSource::new(b"".as_slice());
    equal(&rt, source.read(&mut [0u8; 8]), Ok(0));
    Ok(())
}

// A reader and a writer whose first call is interrupted, and whose later calls move all.
#[derive(Drop)]
struct Interrupted {
    calls: u32,
}

impl Interrupted {
    fn next(&mut self, len: usize) -> io::Result<usize>
        ensures { IfOk result (λ n. n ≡ len) }
    {
        self.calls = self.calls.saturating_add(1);
        if self.calls == 1 {
            Err(io::Error::from(io::ErrorKind::Interrupted))
        } else {
            Ok(len)
        }
    }
}

impl Read for Interrupted {
    fn read(&mut self, buf: &mut [u8]) -> io::Result<usize> {
        self.next(buf.len())
    }
}

impl Write for Interrupted {
    fn write(&mut self, buf: &[u8]) -> io::Result<usize> {
        self.next(buf.len())
    }

    fn flush(&mut self) -> io::Result<()> {
        Ok(())
    }
}

#[test]
fn a_call_that_fails_is_counted_and_not_tried_again(rt: HostRuntime) {
    let mut source = StdinSource::new(Interrupted { calls: 0 });
    equal(&rt, source.read(&mut [0u8; 8]), Err(Failed));
    equal(&rt, (source.input.calls, source.faults), (1, 1));
    equal(&rt, source.read(&mut [0u8; 8]), Ok(8));
    equal(&rt, (source.input.calls, source.faults), (2, 1));
    let mut sink = StdoutSink::new(Interrupted { calls: 0 });
    equal(&rt, sink.write(b"kcas"), Err(Failed));
    equal(&rt, (sink.output.calls, sink.faults), (1, 1));
    equal(&rt, sink.write(b"kcas"), Ok(4));
    equal(&rt, (sink.output.calls, sink.faults), (2, 1));
}
