//! What closing comes to.

ghost use Rattle.std.specs.Prelude.{◌≡◌, [], IfSome, length, vec_capacity};
ghost use Rattle.kc_callers.specs.Closing.{ClosesSo};
ghost use Rattle.kc_callers.specs.Homes.{AreAtHome};
ghost use Rattle.kc_store.specs.Backs.{AreAllCallers};

use crate::callers::Callers;
use crate::home::Idle;
use kc_store::{Caller, Store};
use std::alloc::Global;

/// The end of what was lent.
#[derive(Drop)]
pub enum Closed {
    /// Each is back, in the order of their numbers.
    All { store: Store, callers: Vec<Caller> },
    /// There was no memory for their list, and all stands as it stood.
    NoMemory(Callers),
    /// One was lent and didn't come back.
    Missing(Store),
}

impl Callers {
    /// The store and all its callers, in the order of their numbers, at the end.
    pub fn close(self, alloc: Global) -> Closed
        ensures { ClosesSo self result }
    {
        let Ok(room) = Vec::with_capacity(alloc, self.desk.len()) else {
            return Closed::NoMemory(self);
        };
        let Callers { store, desk } = self;
        match desk.close(alloc) {
            Err(desk) => Closed::NoMemory(Callers { store, desk }),
            Ok(idle) => match all_home(&store, idle, room) {
                Some(callers) => Closed::All { store, callers },
                None => Closed::Missing(store),
            },
        }
    }
}

// All of them, where each is back.
fn all_home(store: &Store, idle: Vec<Option<Idle>>, room: Vec<Caller>) -> Option<Vec<Caller>>
    requires home { AreAtHome store.now 0 idle.items }
    requires all { length idle.items ≡ store.now.callers }
    requires empty { room.items ≡ [] }
    requires space { vec_capacity room ≡ length idle.items }
    ensures { IfSome result (λ callers. AreAllCallers store.now callers.items) }
{
    let mut callers = room;
    for one in idle {
        let Idle { caller } = one?;
        callers.push_reserved(caller);
    }
    Some(callers)
}
