//! Reading a bundle.

ghost use Rattle.std.specs.Prelude.{◌≤◌, length, IfOk, IfErr};
ghost use Rattle.kc_script_bundle.specs.Script.{script_of};
ghost use Rattle.kc_script.specs.Spells.{Spells};
ghost use Rattle.kc_script.specs.Refused.{Refused};

use crate::reading::read;
use kc_script_bundle::Bundle;
use kc_script_lines::ScriptError;
use std::alloc::Global;

/// How many bytes a bundle may have.
pub const MOST_BYTES: usize = 1_048_576;

/// The bundle that the bytes spell. Bytes that spell none are refused with their first fault.
pub fn parse(alloc: Global, bytes: &[u8]) -> Result<Bundle, ScriptError>
    requires { length bytes.now ≤ MOST_BYTES }
    ensures spells { IfOk result (λ bundle. Spells bytes.now (script_of bundle)) }
    ensures refused { IfErr result (Refused bytes.now) }
{
    read(alloc, bytes)
}
