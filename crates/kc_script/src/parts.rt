//! Reading a bundle from parts.

ghost use Rattle.std.specs.Prelude.{◌≤◌, length, map, All, IfOk, IfErr};
ghost use Rattle.kc_script_bundle.specs.Script.{script_of};
ghost use Rattle.kc_script.specs.Parts.{SpellsParts, PartsRefused};

use crate::parser::MOST_BYTES;
use crate::part_error::PartError;
use crate::reading::read_parts;
use kc_script_bundle::{Bundle, MOST_THREADS};
use std::alloc::Global;

/// The bundle that a setup and files spell, a file for each thread. Parts that spell none are refused with their first fault:
/// the setup is read first, then the files in order.
pub fn parse_parts(alloc: Global, setup: &[u8], files: &[Vec<u8>]) -> Result<Bundle, PartError>
    requires setup { length setup.now ≤ MOST_BYTES }
    requires files { All (λ file. length file.items ≤ MOST_BYTES) files.now }
    requires few { length files.now ≤ MOST_THREADS }
    ensures spells { IfOk result (λ bundle. SpellsParts setup.now (map (λ file. file.items) files.now) (script_of bundle)) }
    ensures refused { IfErr result (PartsRefused setup.now (map (λ file. file.items) files.now)) }
{
    read_parts(alloc, setup, files)
}
