//! What each operation does on a log.

ghost use Rattle.std.specs.Prelude.{◌≡◌, ◌<◌, ◌≤◌};
ghost use Rattle.kc_xt.specs.Steps.{Does};
ghost use Rattle.kc_shelf.specs.Meaning.{IsSlot, IsTicket, drop_program, free_program, name_at_program, shelf_name_program, shelf_renew_program, reserve_program, shelf_cells_end};

use crate::shelf::{MOST_NAMES, Shelf};
use kc_model::{Loc, Reply};
use kc_xt::{Peek, Stop, Xt};

pub(crate) fn reserve<P: Peek>(shelf: Shelf, xt: &mut Xt<P>) -> Result<Reply, Stop>
    requires within { shelf_cells_end shelf ≤ P.locations xt.old.peek }
    ensures goes { Does P.peek_gives (reserve_program shelf) xt.old result xt.new }
    ensures size { P.locations xt.new.peek ≡ P.locations xt.old.peek }
{
    let head = xt.get(shelf.head_at())?;
    let slot = shelf.first_free(head);
    if slot == 0 {
        return Ok(Reply::Empty);
    }
    let next = xt.get(shelf.next_at(slot))?;
    let life = xt.get(shelf.life_at(slot))?;
    let count = xt.get(shelf.count_at(slot))?;
    if count != 0 {
        return Ok(Reply::Full);
    }
    let last = shelf.last_life();
    if life >= last {
        return Ok(Reply::Full);
    }
    xt.set(shelf.head_at(), next)?;
    xt.set(shelf.life_at(slot), life + 1)?;
    xt.set(shelf.count_at(slot), 1)?;
    Ok(Reply::Value(shelf.ticket_of(slot, life + 1)))
}

pub(crate) fn renew<P: Peek>(shelf: Shelf, ticket: u32, xt: &mut Xt<P>) -> Result<Reply, Stop>
    requires ticket { IsTicket shelf ticket }
    requires within { shelf_cells_end shelf ≤ P.locations xt.old.peek }
    ensures goes { Does P.peek_gives (shelf_renew_program shelf ticket) xt.old result xt.new }
    ensures size { P.locations xt.new.peek ≡ P.locations xt.old.peek }
{
    let slot = shelf.slot_of(ticket);
    let age = shelf.life_of(ticket);
    let life = xt.get(shelf.life_at(slot))?;
    if life != age {
        return Ok(Reply::Bool(false));
    }
    let count = xt.get(shelf.count_at(slot))?;
    if count != 0 {
        return Ok(Reply::Bool(false));
    }
    let last = shelf.last_life();
    if life >= last {
        return Ok(Reply::Full);
    }
    xt.set(shelf.life_at(slot), life + 1)?;
    xt.set(shelf.count_at(slot), 1)?;
    Ok(Reply::Value(shelf.ticket_of(slot, life + 1)))
}

pub(crate) fn name<P: Peek>(shelf: Shelf, ticket: u32, xt: &mut Xt<P>) -> Result<Reply, Stop>
    requires ticket { IsTicket shelf ticket }
    requires within { shelf_cells_end shelf ≤ P.locations xt.old.peek }
    ensures goes { Does P.peek_gives (shelf_name_program shelf ticket) xt.old result xt.new }
    ensures size { P.locations xt.new.peek ≡ P.locations xt.old.peek }
{
    let slot = shelf.slot_of(ticket);
    let age = shelf.life_of(ticket);
    let life = xt.get(shelf.life_at(slot))?;
    if life != age {
        return Ok(Reply::Bool(false));
    }
    let count = xt.get(shelf.count_at(slot))?;
    if count == 0 {
        return Ok(Reply::Bool(false));
    }
    if count == MOST_NAMES {
        return Ok(Reply::Full);
    }
    xt.set(shelf.count_at(slot), count + 1)?;
    Ok(Reply::Unit)
}

pub(crate) fn name_at<P: Peek>(shelf: Shelf, place: Loc, xt: &mut Xt<P>) -> Result<Reply, Stop>
    requires place { place.0 < P.locations xt.old.peek }
    requires within { shelf_cells_end shelf ≤ P.locations xt.old.peek }
    ensures goes { Does P.peek_gives (name_at_program shelf place.0) xt.old result xt.new }
    ensures size { P.locations xt.new.peek ≡ P.locations xt.old.peek }
{
    let ticket = xt.get(place)?;
    let slot = shelf.slot_of(ticket);
    let age = shelf.life_of(ticket);
    if slot == 0 {
        return Ok(Reply::Empty);
    }
    let life = xt.get(shelf.life_at(slot))?;
    if life != age {
        return Ok(Reply::Empty);
    }
    let count = xt.get(shelf.count_at(slot))?;
    if count == 0 {
        return Ok(Reply::Empty);
    }
    if count == MOST_NAMES {
        return Ok(Reply::Full);
    }
    xt.set(shelf.count_at(slot), count + 1)?;
    Ok(Reply::Value(ticket))
}

pub(crate) fn drop_name<P: Peek>(shelf: Shelf, ticket: u32, xt: &mut Xt<P>) -> Result<Reply, Stop>
    requires ticket { IsTicket shelf ticket }
    requires within { shelf_cells_end shelf ≤ P.locations xt.old.peek }
    ensures goes { Does P.peek_gives (drop_program shelf ticket) xt.old result xt.new }
    ensures size { P.locations xt.new.peek ≡ P.locations xt.old.peek }
{
    let slot = shelf.slot_of(ticket);
    let age = shelf.life_of(ticket);
    let life = xt.get(shelf.life_at(slot))?;
    if life != age {
        return Ok(Reply::Bool(false));
    }
    let count = xt.get(shelf.count_at(slot))?;
    if count == 0 {
        return Ok(Reply::Bool(false));
    }
    xt.set(shelf.count_at(slot), count - 1)?;
    if count == 1 {
        return Ok(Reply::Empty);
    }
    Ok(Reply::Unit)
}

pub(crate) fn free<P: Peek>(shelf: Shelf, ticket: u32, xt: &mut Xt<P>) -> Result<Reply, Stop>
    requires ticket { IsTicket shelf ticket }
    requires within { shelf_cells_end shelf ≤ P.locations xt.old.peek }
    ensures goes { Does P.peek_gives (free_program shelf ticket) xt.old result xt.new }
    ensures size { P.locations xt.new.peek ≡ P.locations xt.old.peek }
{
    let slot = shelf.slot_of(ticket);
    let age = shelf.life_of(ticket);
    let life = xt.get(shelf.life_at(slot))?;
    if life != age {
        return Ok(Reply::Bool(false));
    }
    let count = xt.get(shelf.count_at(slot))?;
    if count != 0 {
        return Ok(Reply::Bool(false));
    }
    let last = shelf.last_life();
    if life >= last {
        return Ok(Reply::Empty);
    }
    let head = xt.get(shelf.head_at())?;
    xt.set(shelf.next_at(slot), head)?;
    xt.set(shelf.head_at(), slot)?;
    Ok(Reply::Unit)
}
