ghost use Rattle.std.specs.Prelude.{◌≡◌};
ghost use Rattle.kc_script_lines.specs.declared.complaint.Complaint.TheVariants.{Here, NoMemory};

use crate::fault::Why;
use std::alloc::{AllocError, AllocFailed};

/// Why reading stopped, where it takes memory: something is wrong with the line that is read, or memory ran out. What
/// takes none answers a `Why`.
#[derive(Clone, Copy, Debug, PartialEq, Eq)]
pub enum Complaint {
    Here(Why),
    NoMemory,
}

impl From<Why> for Complaint {
    ghost from_gives = { λ why e. e ≡ Here why };

    fn from(why: Why) -> Self {
        Complaint::Here(why)
    }
}

impl From<AllocError> for Complaint {
    ghost from_gives = { λ _ e. e ≡ NoMemory };

    fn from(_e: AllocError) -> Self {
        Complaint::NoMemory
    }
}

impl<T: Drop> From<AllocFailed<T>> for Complaint {
    ghost from_gives = { λ _ e. e ≡ NoMemory };

    fn from(_e: AllocFailed<T>) -> Self {
        Complaint::NoMemory
    }
}
