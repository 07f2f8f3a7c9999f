//! A holder, and the right to give back.

ghost use Rattle.std.specs.Prelude.{◌≡◌, [], ◌∷◌, Some, IfOk, IfSome};

use crate::rule::{Enters, Gives, Lends, Takes};
use atomic_table::{Seat, Shared, Table};
use counted_slot::Fits;
use std::alloc::{AllocError, Global};
use std::marker::Model;
use std::sync::Wait;

// The one word: who finds it FREE has the value. AWAITED says that somebody may sleep until it is back.
pub(crate) const WORD: usize = 0;

pub(crate) const FREE: u64 = 0;

const TAKEN: u64 = 1;

const AWAITED: u64 = 2;

// The one slot.
pub(crate) const SLOT: usize = 0;

type Memory<X> = Shared<Option<X>, <X as Fits>::Tag, <X as Fits>::Tag, Lends<X>>;

/// A value that one at a time takes out. Contracts see the tag with which it was made, and which one it is.
#[derive(Drop)]
pub struct Holder<X: Fits> {
    pub(crate) table: Table<Option<X>, X::Tag, X::Tag, Lends<X>, Global>,
}

impl<X: Fits> Model for Holder<X> {
    ghost use Rattle.std.specs.Prelude.{◌≡◌};
    ghost use Rattle.kc_holder.specs.Lent.{HolderView};

    ghost Value = { HolderView X.Tag };

    ghost view = { λ h. record { of = h.table.shared.table_id; tag = h.table.shared.key } };

    ghost invariant = { λ h. (h.table.shared.table_id.words ≡ 1) × (h.table.shared.table_id.slots ≡ 1) };
}

/// That one has the value of a holder. It can't be let go: `give` alone takes it. Contracts see of which holder it is. It has no
/// bytes.
#[must_use]
pub struct Taken<X: Fits> {
    seat: Seat<Option<X>, X::Tag>,
}

impl<X: Fits> Model for Taken<X> {
    ghost use Rattle.std.specs.Prelude.{◌≡◌, ◌∷◌, [], None};
    ghost use Rattle.atomic_table.specs.Seated.{TableId};

    ghost Value = { TableId };

    ghost view = { λ t. t.seat.table_id };

    ghost invariant = { λ t. t.seat.me.1 ≡ (0, None) ∷ [] };
}

impl<X: Fits + Drop> Holder<X> {
    /// One that has this value, which fits the tag.
    pub fn new(alloc: Global, value: X, tag: &X::Tag) -> Result<Holder<X>, AllocError>
        requires fits { X.fits tag.now value }
        ensures tag { IfOk result (λ h. h.tag ≡ tag.now) }
    {
        let mut slots = Vec::with_capacity(alloc, 1)?;
        slots.push_reserved(Some(value));
        match Table::new(alloc, &[FREE], slots, tag) {
            Ok((table, _seat)) => Ok(Holder { table }),
            Err(_) => Err(AllocError),
        }
    }

    /// Takes the value out. None: somebody has it.
    pub fn try_take(&self) -> Option<(X, Taken<X>)>
        ensures fits { IfSome result (λ t. X.fits self.now.tag t.0) }
        ensures of { IfSome result (λ t. t.1 ≡ self.now.of) }
    {
        let memory = &self.table.shared;
        let mut seat = memory.load_new_seat::<Enters>(WORD).1;
        if memory.compare_exchange::<Takes<X>>(&mut seat, WORD, FREE, TAKEN) == FREE {
            Some(take_out(memory, seat))
        } else {
            None
        }
    }

    /// Takes the value out, and sleeps until it is back where somebody has it.
    pub fn take<R: Wait>(&self, rt: &R) -> (X, Taken<X>)
        ensures fits { X.fits self.now.tag result.0 }
        ensures of { result.1 ≡ self.now.of }
    {
        if let Some(taken) = self.try_take() {
            return taken;
        }
        let memory = &self.table.shared;
        for _ in rt.forever() {
            let mut seat = memory.load_new_seat::<Enters>(WORD).1;
            if memory.swap::<Takes<X>>(&mut seat, WORD, AWAITED) == FREE {
                return take_out(memory, seat);
            }
            memory.park(rt, WORD, AWAITED as u32);
        }
        unreachable!()
    }

    /// Gives back a value that fits. Who sleeps until it is back is woken.
    pub fn give(&self, taken: Taken<X>, value: X)
        requires of { taken ≡ self.now.of }
        requires fits { X.fits self.now.tag value }
    {
        let memory = &self.table.shared;
        let Taken { mut seat } = taken;
        let None = memory.exchange(&mut seat, SLOT, Some(value)) else {
            unreachable!()
        };
        if memory.swap::<Gives>(&mut seat, WORD, FREE) == AWAITED {
            memory.wake_one(WORD);
        }
    }
}

// Moves the value out of the slot, which the seat has.
fn take_out<X: Fits + Drop>(memory: &Memory<X>, seat: Seat<Option<X>, X::Tag>) -> (X, Taken<X>)
    requires table { seat.table_id ≡ memory.now.table_id }
    requires has { (x : X) × (seat.me.1 ≡ (0, Some x) ∷ []) × X.fits memory.now.key x }
    ensures fits { X.fits memory.now.key result.0 }
    ensures of { result.1 ≡ memory.now.table_id }
{
    let mut seat = seat;
    let Some(value) = memory.exchange(&mut seat, SLOT, None) else {
        unreachable!()
    };
    (value, Taken { seat })
}
