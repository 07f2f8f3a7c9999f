//! The line on standard error, and the exit number.

ghost use Rattle.std.specs.Prelude.{◌≡◌};
ghost use Rattle.std.specs.Process.{exit_status};
ghost use Rattle.kc_top.specs.Numbers.{status_number};

use kc_top::Status;
use std::process::ExitCode;

/// Prints what went wrong, where something did, and answers with what the program exits. Where even printing fails,
/// the exit number still tells.
pub fn report(rt: &impl Eprint, status: Status) -> ExitCode
    ensures { exit_status result ≡ status_number status }
{
    if status != Status::Done {
        let _ = rt.eprintln(status.line());
    }
    ExitCode::from(status.number())
}
