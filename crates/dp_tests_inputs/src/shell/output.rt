//! Standard output that takes a part, or fails.
use dp_shell::{Sink, StdSink, Trouble};
use std::cell::Cell;
use std::fmt::Display;
use std::io;

/// An output that takes at most so many bytes at once, or fails. Its first write is interrupted.
#[derive(Drop)]
struct Narrow {
    most: Option<usize>,
    is_new: Cell<bool>,
}

impl Print for Narrow {
    fn print<D: Display + Drop>(&self, _value: D) -> io::Result<()> {
        Ok(())
    }

    fn println<D: Display + Drop>(&self, _value: D) -> io::Result<()> {
        Ok(())
    }

    fn write_all(&self, _bytes: &[u8]) -> io::Result<()> {
        Ok(())
    }

    fn write_some(&self, bytes: &[u8]) -> io::Result<usize> {
        if self.is_new.replace(false) {
            return Err(io::Error::from(io::ErrorKind::Interrupted));
        }
        match self.most {
            Some(most) => Ok(bytes.len().min(most)),
            None => Err(io::Error::from(io::ErrorKind::Other)),
        }
    }
}

#[test]
fn a_partial_write_is_answered_as_it_is(rt: HostRuntime) {
    for (most, piece, count, faults) in [
        (Some(5), b"abc".as_slice(), Ok(3), 0),
        (Some(2), b"abc", Ok(2), 0),
        (Some(0), b"abc", Err(Trouble::Failed), 1),
        (Some(0), b"", Ok(0), 0),
        (None, b"abc", Err(Trouble::Failed), 1),
    ] {
        let narrow = Narrow {
            most,
            is_new: Cell::new(true),
        };
        let mut sink = StdSink::new(&narrow);
        assert_eq!(rt; sink.write(piece), count);
        assert_eq!(rt; sink.failures(), faults);
    }
}
