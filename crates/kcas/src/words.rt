//! The words of the command line.

ghost use Rattle.std.specs.Prelude.{◌≡◌, ◌↔◌, ◌⊎◌, IfOk, IfErr, IsErrOf, IsErrAnd, IsOkAnd};
ghost use Rattle.std.specs.Vec.Iter.{into_iter_items};
ghost use Rattle.std.specs.IoError.{error_kind};
ghost use Rattle.std.specs.declared.io.ErrorKind.TheVariants as kind;

use kc_top::Status;
use std::alloc::Global;
use std::env::Args;
use std::io;

/// The words that the system gives. One that isn't UTF-8 is no command's, and is given as invalid data.
pub fn words_of(alloc: Global, given: io::Result<Args>) -> Result<Vec<String>, Status>
    ensures words { IfOk result (λ words. IsOkAnd given (λ args. words.items ≡ into_iter_items args)) }
    ensures usage { IsErrOf result Status.Usage ↔ IsErrAnd given (λ e. error_kind e ≡ kind.InvalidData) }
    ensures others { IfErr result (λ e. (e ≡ Status.Usage) ⊎ (e ≡ Status.NoMemory)) }
{
    match given {
        Ok(words) => match words.collect(alloc) {
            Ok(words) => Ok(words),
            Err(_) => Err(Status::NoMemory),
        },
        Err(e) if e.kind() == io::ErrorKind::InvalidData => Err(Status::Usage),
        Err(_) => Err(Status::NoMemory),
    }
}
