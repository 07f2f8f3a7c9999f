use kc_cache::Cache;
use kc_cells::{Accumulator, Mvar, Promise};
use kc_grow::Grow;
use kc_hash::Hash;
use kc_model::Loc;
use kc_queue::Queue;
use kc_stack::Stack;

/// What a name stands for.
#[derive(Clone, Copy, Debug, PartialEq, Eq)]
pub enum Object {
    /// A location, and the value with which it opens.
    Loc { at: Loc, value: u32 },
    Stack(Stack),
    Queue(Queue),
    Mvar(Mvar),
    Promise(Promise),
    Acc(Accumulator),
    Hash(Hash),
    Grow(Grow),
    Cache(Cache),
}
