use crate::object::Object;
use crate::operation::Command;
use indexmap::IndexMap;

/// How many threads a script may have.
pub const MOST_THREADS: usize = 16;

/// How many commands a thread may have.
pub const MOST_COMMANDS: usize = 4096;

/// A script that was read: its objects by name, in order of declaration, and the commands of each thread. The objects
/// lie one behind another from location 1 on. Location 0 has the number of live threads in its bits 15 to 0, and in its
/// bit 15 + T the flag of thread T, which a cancel of T sets.
#[derive(Drop)]
pub struct Bundle {
    /// How many locations a command may touch.
    pub limit: u32,
    pub objects: IndexMap<String, Object>,
    pub threads: Vec<Vec<Command>>,
}
