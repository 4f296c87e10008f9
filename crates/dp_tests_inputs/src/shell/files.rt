//! Real files, and files that are pipes.
ghost use Rattle.std.specs.Prelude.{IsErr};

use dp_shell::{Failed, FileShelf, Shelf, Sink, StdSink};
use std::alloc::Allocator;
use std::fs::{Metadata, OpenFile, OpenOptions};
use std::io::{Error, ErrorKind, Read, Seek, SeekFrom, Write};
use std::rt::Files;
use std::{fs, io};

/// How many reads of four names have failed; the last of them is no word.
fn failures<R: Files>(shelf: &FileShelf<R>) -> [u64; 4] {
    [
        shelf.failures("replay"),
        shelf.failures("record"),
        shelf.failures("nowhere"),
        shelf.failures("other"),
    ]
}

#[test]
fn real_files_are_read_back(rt: HostRuntime) {
    assert!(rt; fs::write(&rt, "record", b"abcde".as_slice()).is_ok());
    let words = ["replay", "record", "nowhere"];
    let mut shelf = FileShelf::new(&rt, &words);
    let mut into = [0u8; 3];
    for (name, from, count, prefix) in [
        ("record", 0, Ok(3), b"abc"),
        ("record", 3, Ok(2), b"dec"),
        ("record", 5, Ok(0), b"dec"),
        ("nowhere", 0, Err(Failed), b"dec"),
        ("nowhere", 3, Err(Failed), b"dec"),
        ("other", 0, Err(Failed), b"dec"),
    ] {
        assert_eq!(rt;
            shelf.read(name, from, &mut into),
            count,
            "{name} from {from}"
        );
        assert_eq!(rt; &into, prefix, "{name} from {from}");
    }
    // two failures of the third word, and one of the names that are no word
    assert_eq!(rt; failures(&shelf), [0, 0, 2, 1]);
    // a file that another is renamed over while it is read
    assert!(rt; fs::write(&rt, "newer", b"vwxyz".as_slice()).is_ok());
    assert_eq!(rt; shelf.read("record", 2, &mut into), Ok(3));
    assert!(rt; fs::rename(&rt, "newer", "record").is_ok());
    assert_eq!(rt; shelf.read("record", 5, &mut into), Ok(0));
    assert_eq!(rt; shelf.read("record", 4, &mut into), Ok(1));
    assert_eq!(rt; &into, b"zde");
    // a file that is gone
    assert!(rt; fs::remove_file(&rt, "record").is_ok());
    assert_eq!(rt; shelf.read("record", 3, &mut into), Err(Failed));
    assert_eq!(rt; failures(&shelf), [0, 1, 2, 1]);
    let mut out = StdSink::new(&rt);
    assert_eq!(rt; out.write(b"a line\n"), Ok(7));
}

/// Files that are pipes, and give this text each.
#[derive(Drop)]
struct Pipes {
    text: &'static [u8],
}

/// It can't seek. Each other read is interrupted, and the eighth fails.
#[derive(Drop)]
struct Pipe {
    rest: &'static [u8],
    reads: u8,
}

fn refused<T>() -> io::Result<T>
    ensures { IsErr result }
{
    Err(Error::from(ErrorKind::Unsupported))
}

impl Read for Pipe {
    fn read(&mut self, into: &mut [u8]) -> io::Result<usize> {
        self.reads = self.reads.wrapping_add(1);
        if self.reads % 2 == 1 {
            return Err(Error::from(ErrorKind::Interrupted));
        }
        if self.reads == 8 {
            return refused();
        }
        let count = into.len().min(self.rest.len());
        into[..count].copy_from_slice(&self.rest[..count]);
        self.rest = &self.rest[count..];
        Ok(count)
    }
}

impl Write for Pipe {
    fn write(&mut self, _piece: &[u8]) -> io::Result<usize> {
        refused()
    }

    fn flush(&mut self) -> io::Result<()> {
        refused()
    }
}

impl Seek for Pipe {
    fn seek(&mut self, _to: SeekFrom) -> io::Result<u64> {
        refused()
    }
}

impl OpenFile for Pipe {
    fn metadata(&self) -> io::Result<Metadata> {
        refused()
    }

    fn set_len(&self, _size: u64) -> io::Result<()> {
        refused()
    }

    fn sync_all(&self) -> io::Result<()> {
        refused()
    }

    fn sync_data(&self) -> io::Result<()> {
        refused()
    }
}

impl Files for Pipes {
    type File = Pipe;

    type Dir = Pipe;

    fn open_file(&self, _how: &OpenOptions, _path: &str) -> io::Result<Pipe> {
        Ok(Pipe {
            rest: self.text,
            reads: 0,
        })
    }

    fn open_dir(&self, _path: &str) -> io::Result<Pipe> {
        refused()
    }

    fn metadata(&self, _path: &str) -> io::Result<Metadata> {
        refused()
    }

    fn symlink_metadata(&self, _path: &str) -> io::Result<Metadata> {
        refused()
    }

    fn copy(&self, _from: &str, _to: &str) -> io::Result<u64> {
        refused()
    }

    fn rename(&self, _from: &str, _to: &str) -> io::Result<()> {
        refused()
    }

    fn remove_file(&self, _path: &str) -> io::Result<()> {
        refused()
    }

    fn create_dir(&self, _path: &str) -> io::Result<()> {
        refused()
    }

    fn remove_dir(&self, _path: &str) -> io::Result<()> {
        refused()
    }

    fn remove_dir_all<B: Allocator>(&self, _alloc: B, _path: &str) -> io::Result<()> {
        refused()
    }
}

#[test]
fn a_pipe_is_read_in_pieces(rt: HostRuntime) {
    let pipes = Pipes {
        text: b"abcde".as_slice(),
    };
    let words = ["replay", "record"];
    let mut shelf = FileShelf::new(&pipes, &words);
    let mut into = [0u8; 3];
    for (name, from, count, prefix) in [
        ("record", 0, Ok(3), b"abc"),
        ("record", 3, Ok(2), b"dec"),
        ("record", 5, Ok(0), b"dec"),
        ("record", 5, Err(Failed), b"dec"),
        // what follows isn't its next read: the pipe is opened anew, which shows as it can't seek
        ("record", 5, Err(Failed), b"dec"),
        ("record", 0, Ok(3), b"abc"),
        ("record", 4, Err(Failed), b"abc"),
        ("record", 0, Ok(3), b"abc"),
        ("replay", 3, Err(Failed), b"abc"),
        ("one", 0, Ok(3), b"abc"),
        ("one", 3, Err(Failed), b"abc"),
    ] {
        assert_eq!(rt;
            shelf.read(name, from, &mut into),
            count,
            "{name} from {from}"
        );
        assert_eq!(rt; &into, prefix, "{name} from {from}");
    }
}
