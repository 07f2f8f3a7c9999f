//! The files of the host as a shelf. It tells nothing of what they have, which can change at any time, and counts its
//! faults.

ghost use Rattle.std.specs.Prelude.{◌≡◌, ◌≤◌, None, false, vec_len, IfOk};
ghost use Rattle.kcas.specs.Ends.{CountsFault};

#[cfg(test)]
mod tests;

use crate::ends::StdinSource;
use kc_model::{ReadError, Shelf, ShelfError, read_to_end};
use std::alloc::Global;
use std::fs;
use std::rt::Files;

/// The highest limit; a higher one is taken as this.
const HIGHEST_LIMIT: usize = 0xffff_ffff;

/// The files of a host, by their paths. What can't be opened or read to its end, as a folder, is a fault.
#[derive(Drop)]
pub struct DirShelf<H> {
    host: H,
    faults: u64,
}

impl<H: Files> DirShelf<H> {
    pub fn new(host: H) -> DirShelf<H>
        ensures { result ≡ record { host = host; faults = 0 } }
    {
        DirShelf { host, faults: 0 }
    }
}

impl<H: Files> Shelf for DirShelf<H> {
    ghost files = { λ _. None };

    ghost faults = { λ s. s.faults };

    ghost sure = { λ _. false };

    ghost fetch_gives = { CountsFault };

    fn fetch(&mut self, alloc: Global, name: &str, limit: usize) -> Result<Vec<u8>, ShelfError> {
        let fetched = read_file(alloc, &self.host, name, limit);
        if matches!(&fetched, Err(ShelfError::Failed)) {
            self.faults = self.faults.saturating_add(1);
        }
        fetched
    }
}

// All the bytes of a file, one more than the limit being read at most.
fn read_file<H: Files>(
    alloc: Global,
    host: &H,
    path: &str,
    limit: usize,
) -> Result<Vec<u8>, ShelfError>
    ensures { IfOk result (λ bytes. vec_len bytes ≤ limit) }
{
    let Ok(file) = fs::open(host, path) else {
        return Err(ShelfError::Failed);
    };
    let mut source = StdinSource::new(file);
    match read_to_end(alloc, &mut source, limit.min(HIGHEST_LIMIT)) {
        Ok(bytes) => Ok(bytes),
        Err(ReadError::Failed) => Err(ShelfError::Failed),
        Err(ReadError::TooLong) => Err(ShelfError::TooLong),
        Err(ReadError::NoMemory) => Err(ShelfError::NoMemory),
    }
}
