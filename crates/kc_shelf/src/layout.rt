//! What the cells of a shelf are, and what a ticket says.

ghost use Rattle.std.specs.Prelude.{◌≡◌, ◌≤◌, ◌<◌, ◌+◌, ◌*◌, ◌↔◌, true};
ghost use Rattle.kc_shelf.specs.Meaning.{IsSlot, IsTicket, count_at, first_free, head_at, last_life, life_at, life_of, next_at, shelf_cells, shelf_cells_end, shelf_opening, slot_of, ticket_of};

use crate::shelf::Shelf;
use kc_model::{Loc, MOST_LOCATIONS};

impl Shelf {
    /// The shelf whose cells begin at a location.
    pub fn layout(base: Loc, slots: u32) -> Shelf
        requires some { 1 ≤ slots }
        requires cells { base.0 + (1 + 3 * slots) ≤ MOST_LOCATIONS }
        ensures base { result.base ≡ base }
        ensures slots { result.slots ≡ slots }
    {
        Shelf { base, slots }
    }

    /// How many slots there are.
    pub fn slots(&self) -> u32
        ensures { result ≡ self.now.slots }
    {
        self.slots
    }

    /// A number above the location of its last cell.
    pub fn end(&self) -> u32
        ensures { result ≡ shelf_cells_end self.now }
    {
        self.base.0 + self.cells()
    }

    /// How many cells there are.
    pub fn cells(&self) -> u32
        ensures { result ≡ shelf_cells self.now }
    {
        1 + 3 * self.slots
    }

    /// What a cell holds at the opening, where each slot is free.
    pub fn opening(&self, index: u32) -> u32
        requires { index < shelf_cells self.now }
        ensures { result ≡ shelf_opening self.now index }
    {
        if index == 0 {
            1
        } else if index % 3 == 1 && index / 3 + 1 < self.slots {
            index / 3 + 2
        } else {
            0
        }
    }

    /// Whether it is a ticket of a slot of this shelf.
    pub fn has(&self, ticket: u32) -> bool
        ensures { result ≡ true ↔ IsTicket self.now ticket }
    {
        self.slot_of(ticket) != 0
    }

    /// The slot that a head names: one above the number of slots names none, as 0 does.
    pub(crate) fn first_free(&self, head: u32) -> u32
        ensures { result ≡ first_free self.now head }
    {
        if head > self.slots { 0 } else { head }
    }

    pub(crate) fn head_at(&self) -> Loc
        ensures { result.0 ≡ head_at self.now }
    {
        self.base
    }

    pub(crate) fn next_at(&self, slot: u32) -> Loc
        requires { IsSlot self.now slot }
        ensures { result.0 ≡ next_at self.now slot }
    {
        Loc(self.base.0 + 1 + 3 * (slot - 1))
    }

    pub(crate) fn life_at(&self, slot: u32) -> Loc
        requires { IsSlot self.now slot }
        ensures { result.0 ≡ life_at self.now slot }
    {
        Loc(self.base.0 + 1 + 3 * (slot - 1) + 1)
    }

    pub(crate) fn count_at(&self, slot: u32) -> Loc
        requires { IsSlot self.now slot }
        ensures { result.0 ≡ count_at self.now slot }
    {
        Loc(self.base.0 + 1 + 3 * (slot - 1) + 2)
    }

    pub(crate) fn slot_of(&self, ticket: u32) -> u32
        ensures { result ≡ slot_of self.now ticket }
    {
        ticket % (self.slots + 1)
    }

    pub(crate) fn life_of(&self, ticket: u32) -> u32
        ensures { result ≡ life_of self.now ticket }
    {
        ticket / (self.slots + 1)
    }

    /// The last life that a slot has.
    pub(crate) fn last_life(&self) -> u32
        ensures { result ≡ last_life self.now }
    {
        (u32::MAX - self.slots) / (self.slots + 1)
    }

    pub(crate) fn ticket_of(&self, slot: u32, life: u32) -> u32
        requires slot { IsSlot self.now slot }
        requires life { life ≤ last_life self.now }
        ensures { result ≡ ticket_of self.now slot life }
    {
        life * (self.slots + 1) + slot
    }
}
