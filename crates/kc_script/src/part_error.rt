ghost use Rattle.std.specs.Prelude.{◌≡◌};
ghost use Rattle.kc_script.specs.declared.part_error.PartError.TheVariants.{NoMemory};

use kc_script_lines::Why;
use std::alloc::AllocError;

/// Why the parts of a script were not read as a bundle. The setup is part 0, the files are the parts from 1 on, and a line is
/// counted from 1 in its own part.
#[derive(Clone, Copy, Debug, PartialEq, Eq)]
pub enum PartError {
    Fault { part: u32, line: u32, why: Why },
    NoMemory,
}

impl From<AllocError> for PartError {
    ghost from_gives = { λ _ e. e ≡ NoMemory };

    fn from(_e: AllocError) -> Self {
        PartError::NoMemory
    }
}
