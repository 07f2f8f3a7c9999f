ghost use Rattle.std.specs.Prelude.{◌≡◌, ◌≤◌, ◌<◌, IfSome};
ghost use Rattle.std.proofs.Props.{props};
ghost use Rattle.kc_model.specs.declared.plain_store.TheConstants.{MOST_LOCATIONS};
ghost use Rattle.kc_script_bundle.specs.declared.bundle.TheConstants.{MOST_THREADS};
ghost use Rattle.kc_script_bundle.specs.Script.{next_from, names_of};
ghost use Rattle.kc_term.specs.declared.term.TheConstants.{MOST_OPERATIONS};

use indexmap::IndexMap;
use kc_script_bundle::{Command, Object, Op};
use kc_term::Term;
use std::alloc::Global;

/// The limit of the commands of a script of version 1.
pub const FIRST_LIMIT: u32 = 64;

/// A block that is open.
#[derive(Drop)]
pub struct Open {
    /// The level where its lines stand.
    pub level: u32,
    /// The alternatives that are done.
    pub done: Vec<Vec<Term<Op>>>,
    /// The parts of the alternative that is not.
    pub parts: Vec<Term<Op>>,
    ghost shallow: { level ≤ 8 },
}

/// What the lines of a thread so far have said.
#[derive(Drop)]
pub struct Thread {
    pub here: Vec<Command>,
    /// The blocks that are open, the innermost last.
    pub open_blocks: Vec<Open>,
    /// How many commands and blocks the outermost of them has.
    pub count: u32,
    ghost few: { count ≤ MOST_OPERATIONS },
}

/// The version that the header has, and what a line behind it has said of the limit of a command.
#[derive(Drop, Clone, Copy)]
pub enum Version {
    /// The first, in which no line says a limit.
    Old,
    /// The second, and no line has said a limit.
    New,
    /// The second, and a line has said this limit.
    Limited(u32),
}

/// What the lines so far have declared and said.
#[derive(Drop)]
pub struct Reader {
    pub alloc: Global,
    /// Whether a whole script is read, in which threads begin.
    pub whole: bool,
    /// Whether the header was read.
    pub begun: bool,
    pub version: Version,
    pub objects: IndexMap<String, Object>,
    /// The first location that no object has.
    pub next: u32,
    /// The threads before the one that is open.
    pub threads: Vec<Vec<Command>>,
    /// The number of the thread that is open, from 0 on, where one is.
    pub thread: Option<u32>,
    pub place: Thread,
    ghost follows: { next ≡ next_from 1 (names_of objects) },
    ghost within: { next ≤ MOST_LOCATIONS },
    ghost numbered: { IfSome thread (λ n. n < MOST_THREADS) } by { Prim.hlevel props },
}
