ghost use Rattle.std.specs.Prelude.{◌≤◌, length, IfOk};

use super::DirShelf;
use crate::asserts::{equal, holds};
use crate::ends::{StdinSource, StdoutSink};
use crate::run_on;
use kc_model::{Shelf, ShelfError};
use kc_top::Status;
use std::alloc::{Allocator, Global};
use std::fs::{FileTimes, Metadata, OpenFile, OpenOptions, Permissions};
use std::io;
use std::io::{Read, Seek, SeekFrom, Write};
use std::rt::Files;
use std::sync::Wait;
use std::test::Fail;
use std::thread::Threads;

fn unsupported<T>() -> io::Result<T> {
    Err(io::Error::from(io::ErrorKind::Unsupported))
}

// How a file ends behind its bytes.
#[derive(Clone, Copy, PartialEq, Eq)]
enum End {
    // It ends.
    Ends,
    // Reading on fails, as of a folder at once.
    Fails,
    // It grows while it is read, as fast as it is read.
    Grows,
}

// An open file, read a byte a call.
#[derive(Drop)]
struct Opened {
    bytes: &'static [u8],
    end: End,
}

impl Read for Opened {
    fn read(&mut self, buf: &mut [u8]) -> io::Result<usize> {
        if buf.is_empty() {
            return Ok(0);
        }
        match self.bytes.split_first() {
            Some((byte, rest)) => {
                buf[0] = *byte;
                self.bytes = rest;
                Ok(1)
            }
            None => match self.end {
                End::Ends => Ok(0),
                End::Fails => Err(io::Error::from(io::ErrorKind::Unsupported)),
                End::Grows => {
                    buf.fill(b'#');
                    Ok(buf.len())
                }
            },
        }
    }
}

impl Write for Opened {
    fn write(&mut self, _buf: &[u8]) -> io::Result<usize> {
        Err(io::Error::from(io::ErrorKind::Unsupported))
    }

    fn flush(&mut self) -> io::Result<()> {
        unsupported()
    }
}

impl Seek for Opened {
    fn seek(&mut self, _to: SeekFrom) -> io::Result<u64> {
        unsupported()
    }
}

impl OpenFile for Opened {
    fn metadata(&self) -> io::Result<Metadata> {
        unsupported()
    }

    fn set_len(&self, _size: u64) -> io::Result<()> {
        unsupported()
    }

    fn sync_all(&self) -> io::Result<()> {
        unsupported()
    }

    fn sync_data(&self) -> io::Result<()> {
        unsupported()
    }
}

// A host of a few files.
#[derive(Drop)]
struct FewFiles;

impl Files for FewFiles {
    type File = Opened;

    type Dir = Opened;

    fn open_file(&self, _how: &OpenOptions, path: &str) -> io::Result<Opened> {
        let (bytes, end): (&'static [u8], End) = match path {
            "setup" => (b"kcas 1\nloc x 0\n", End::Ends),
            "one\nline" => (b"incr x\n", End::Ends),
            "folder" => (b"", End::Fails),
            "torn" => (b"incr x\n", End::Fails),
            "growing" => (b"incr x\n", End::Grows),
            _ => return Err(io::Error::from(io::ErrorKind::NotFound)),
        };
        Ok(Opened { bytes, end })
    }

    fn open_dir(&self, _path: &str) -> io::Result<Opened> {
        unsupported()
    }

    fn metadata(&self, _path: &str) -> io::Result<Metadata> {
        unsupported()
    }

    fn symlink_metadata(&self, _path: &str) -> io::Result<Metadata> {
        unsupported()
    }

    fn copy(&self, _from: &str, _to: &str) -> io::Result<u64> {
        unsupported()
    }

    fn rename(&self, _from: &str, _to: &str) -> io::Result<()> {
        unsupported()
    }

    fn remove_file(&self, _path: &str) -> io::Result<()> {
        unsupported()
    }

    fn create_dir(&self, _path: &str) -> io::Result<()> {
        unsupported()
    }

    fn remove_dir(&self, _path: &str) -> io::Result<()> {
        unsupported()
    }

    fn remove_dir_all<B: Allocator>(&self, _alloc: B, _path: &str) -> io::Result<()> {
        unsupported()
    }
}

// The status of `files setup` and this file, and what was written.
fn run_files<R: Threads + Wait + Sync>(rt: &R, alloc: Global, file: &str) -> Result<Status, Fail> {
    let mut words = Vec::new(alloc);
    for word in ["kcas", "files", "setup", file] {
        words.push(String::from_str(alloc, word)?)?;
    }
    let output: Vec<u8> = Vec::new(alloc);
    let mut source = StdinSource::new(b"".as_slice());
    let mut shelf = DirShelf::new(FewFiles);
    let mut sink = StdoutSink::new(output);
    Ok(run_on(rt, alloc, &words, &mut source, &mut shelf, &mut sink))
}

#[test]
fn a_file_that_cannot_be_read_whole_is_a_read_fault(rt: HostRuntime) -> Result<(), Fail> {
    let rows = [
        ("one\nline", Status::Done),
        ("gone", Status::ReadFault),
        ("folder", Status::ReadFault),
        ("torn", Status::ReadFault),
        ("growing", Status::TooLong),
    ];
    for (file, status) in rows {
        equal(&rt, run_files(&rt, rt.alloc(), file)?, status);
    }
    Ok(())
}

#[test]
fn a_file_has_at_most_the_limit(rt: HostRuntime) -> Result<(), Fail> {
    let alloc = rt.alloc();
    let mut shelf = DirShelf::new(FewFiles);
    let fits =
        matches!(&shelf.fetch(alloc, "one\nline", 7), Ok(file) if file.as_slice() == b"incr x\n".as_slice());
    holds(&rt, fits);
    holds(
        &rt,
        matches!(
            &shelf.fetch(alloc, "one\nline", 6),
            Err(ShelfError::TooLong)
        ),
    );
    holds(
        &rt,
        matches!(
            &shelf.fetch(alloc, "growing", 1000),
            Err(ShelfError::TooLong)
        ),
    );
    Ok(())
}

#[test]
fn the_files_of_the_system_are_read(rt: HostRuntime) -> Result<(), Fail> {
    let alloc = rt.alloc();
    let mut shelf = DirShelf::new(&rt);
    holds(
        &rt,
        matches!(&shelf.fetch(alloc, "/dev/null", 0), Ok(file) if file.is_empty()),
    );
    holds(
        &rt,
        matches!(
            &shelf.fetch(alloc, "/dev/zero", 5000),
            Err(ShelfError::TooLong)
        ),
    );
    holds(
        &rt,
        matches!(&shelf.fetch(alloc, "/", 5000), Err(ShelfError::Failed)),
    );
    holds(
        &rt,
        matches!(
            &shelf.fetch(alloc, "/dev/null/x", 5000),
            Err(ShelfError::Failed)
        ),
    );
    holds(
        &rt,
        matches!(
            &shelf.fetch(alloc, "/no\nsuch file", 5000),
            Err(ShelfError::Failed)
        ),
    );
    Ok(())
}
