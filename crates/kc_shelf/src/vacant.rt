//! The right to a slot whose value was taken out.

ghost use Rattle.std.specs.Prelude.{◌≡◌};
ghost use Rattle.kc_shelf.specs.Meaning.{IsTicket};

use crate::shelf::Shelf;
use kc_store::Store;

/// A slot that has no name and no value, and stands on no list. It isn't dropped: it is freed, has its next life, or is given
/// up for good by name.
pub struct Vacant<'a> {
    pub(crate) store: &'a Store,
    pub(crate) shelf: Shelf,
    pub(crate) ticket: u32,
    ghost named: { IsTicket shelf ticket },
}

impl<'a> Vacant<'a> {
    // By who gave the last name of this ticket up.
    pub(crate) fn emptied(store: &'a Store, shelf: Shelf, ticket: u32) -> Vacant<'a>
        requires { IsTicket shelf ticket }
        ensures store { result.store.now ≡ store.now }
        ensures shelf { result.shelf ≡ shelf }
        ensures ticket { result.ticket ≡ ticket }
    {
        Vacant {
            store,
            shelf,
            ticket,
        }
    }

    /// The ticket that the slot had last.
    pub fn ticket(&self) -> u32
        ensures { result ≡ self.now.ticket }
    {
        self.ticket
    }

    /// Gives the slot up for good: nobody has it again.
    pub fn lose(self) {
        let Vacant {
            store: _,
            shelf: _,
            ticket: _,
        } = self;
    }
}
