//! The operations.

ghost use Rattle.std.specs.Prelude.{◌≡◌};
ghost use Rattle.kc_shelf.specs.Meaning.{IsFitShelfOp, shelf_op, shelf_end, shelf_meaning};
ghost use Rattle.kc_shelf.specs.declared.operation.ShelfAct.TheVariants as act;

use crate::acts;
use crate::shelf::Shelf;
use kc_model::{Loc, MOST, MOST_LOCATIONS, Reply};
use kc_xt::{Peek, Stop, Transact, Xt};

/// What is done with slots and names.
#[derive(Clone, Copy, Debug, PartialEq, Eq)]
pub enum ShelfAct {
    /// Takes a slot from the free ones, begins its next life with one name, and replies its ticket; Empty where none is free.
    Reserve,
    /// Begins the next life of the slot that had this ticket last and has no name, and replies the new ticket; Full where it had
    /// its last life.
    Renew(u32),
    /// A name more of this ticket's value; replies false where the ticket isn't of the life that its slot is in, or nothing names it.
    Name(u32),
    /// A name more of the value whose ticket a location holds, and replies the ticket; Empty where it holds none.
    NameAt(Loc),
    /// A name less; replies Empty where it was the last one: the value is its caller's to take out.
    Drop(u32),
    /// The slot that had this ticket last, and has no name, is free; Empty where it had its last life, and rests.
    Free(u32),
}

/// An operation on a shelf. A slot is freed, and its life renewed, by who has its `Vacant` alone.
#[derive(Clone, Copy, Debug, PartialEq, Eq)]
pub struct ShelfOp {
    pub(crate) shelf: Shelf,
    pub(crate) act: ShelfAct,
}

impl Shelf {
    pub fn reserve(&self) -> ShelfOp
        ensures { result ≡ shelf_op self.now act.Reserve }
    {
        ShelfOp {
            shelf: *self,
            act: ShelfAct::Reserve,
        }
    }

    pub fn name(&self, ticket: u32) -> ShelfOp
        ensures { result ≡ shelf_op self.now (act.Name ticket) }
    {
        ShelfOp {
            shelf: *self,
            act: ShelfAct::Name(ticket),
        }
    }

    pub fn name_at(&self, place: Loc) -> ShelfOp
        ensures { result ≡ shelf_op self.now (act.NameAt place) }
    {
        ShelfOp {
            shelf: *self,
            act: ShelfAct::NameAt(place),
        }
    }

    pub fn drop_name(&self, ticket: u32) -> ShelfOp
        ensures { result ≡ shelf_op self.now (act.Drop ticket) }
    {
        ShelfOp {
            shelf: *self,
            act: ShelfAct::Drop(ticket),
        }
    }
}

impl Transact for ShelfOp {
    ghost meaning = { shelf_meaning };

    ghost is_fit = { IsFitShelfOp };

    ghost end = { shelf_end };

    fn bound(&self) -> u32 {
        let end = self.shelf.end();
        match self.act {
            ShelfAct::NameAt(place) => {
                if place.0 < end {
                    end
                } else if place.0 < MOST_LOCATIONS as u32 {
                    place.0 + 1
                } else {
                    MOST_LOCATIONS as u32
                }
            }
            _ => end,
        }
    }

    fn limit(&self) -> u32 {
        MOST as u32
    }

    fn run<P: Peek>(&self, xt: &mut Xt<P>) -> Result<Reply, Stop> {
        match self.act {
            ShelfAct::Reserve => acts::reserve(self.shelf, xt),
            ShelfAct::Renew(ticket) => acts::renew(self.shelf, ticket, xt),
            ShelfAct::Name(ticket) => acts::name(self.shelf, ticket, xt),
            ShelfAct::NameAt(place) => acts::name_at(self.shelf, place, xt),
            ShelfAct::Drop(ticket) => acts::drop_name(self.shelf, ticket, xt),
            ShelfAct::Free(ticket) => acts::free(self.shelf, ticket, xt),
        }
    }
}
