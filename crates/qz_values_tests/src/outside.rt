//! Sources and sinks over std's readers and writers.

ghost use Rattle.std.specs.Prelude.{◌≤◌, ◌<◌, IfOk};

use qz_outside::{Failed, Sink, Source, StdSink, StdSource, write_all};
use std::io;
use std::io::{ErrorKind, Read, Write};

// So many calls are interrupted; the next fails with an error of this kind, where there is one, and each call after
// that moves one byte.
#[derive(Drop)]
struct Unsteady {
    interrupted: u32,
    error: Option<ErrorKind>,
    calls: u32,
}

impl Unsteady {
    fn new(interrupted: u32, error: Option<ErrorKind>) -> Unsteady {
        Unsteady {
            interrupted,
            error,
            calls: 0,
        }
    }

    fn turn(&mut self, len: usize) -> io::Result<usize>
        ensures { IfOk result (λ n. n ≤ len) }
    {
        self.calls = self.calls.wrapping_add(1);
        if self.calls <= self.interrupted {
            return Err(io::Error::from(ErrorKind::Interrupted));
        }
        match self.error.take() {
            Some(kind) => Err(io::Error::from(kind)),
            None => Ok(len.min(1)),
        }
    }
}

impl Read for Unsteady {
    fn read(&mut self, room: &mut [u8]) -> io::Result<usize> {
        self.turn(room.len())
    }
}

impl Write for Unsteady {
    fn write(&mut self, piece: &[u8]) -> io::Result<usize> {
        self.turn(piece.len())
    }

    fn flush(&mut self) -> io::Result<()> {
        Ok(())
    }
}

const KINDS: [ErrorKind; 3] = [
    ErrorKind::WouldBlock,
    ErrorKind::BrokenPipe,
    ErrorKind::StorageFull,
];

#[test]
fn a_reader_is_a_source(rt: HostRuntime) {
    for interrupted in [0, 3] {
        for kind in KINDS {
            // The error is told by the call that meets it, and the next call reads on.
            let mut source = StdSource::new(Unsteady::new(interrupted, Some(kind)));
            assert!(rt; source.read(&mut [0; 4]) == Err(Failed), "{kind:?}");
            assert!(rt; source.read(&mut [0; 4]) == Ok(1), "{kind:?}");
            assert!(rt; source.faults() == 1, "{kind:?}");
        }
    }
}

#[test]
fn a_writer_is_a_sink(rt: HostRuntime) {
    for interrupted in [0, 3] {
        for kind in KINDS {
            let mut sink = StdSink::new(Unsteady::new(interrupted, Some(kind)));
            assert!(rt; sink.write(b"ab") == Err(Failed), "{kind:?}");
            assert!(rt; write_all(&mut sink, b"ab") == Ok(()), "{kind:?}");
            assert!(rt; sink.faults() == 1, "{kind:?}");
        }
    }
}
