//! Requests whose texts lie on a shelf.

ghost use Rattle.std.specs.Prelude.{◌≡◌, ◌<◌, ◌≤◌, IfErr};
ghost use Rattle.kc_queue.specs.Meaning.{queue_cells_end};
ghost use Rattle.kc_shelf.specs.Meaning.{IsTicket, shelf_cells_end};

use kc_await::{Deadline, Limit, commit_waiting_until};
use kc_callers::Callers;
use kc_model::{Footprint, Reply};
use kc_queue::{Queue, QueueAct, QueueOp};
use kc_shelf::{Dropped, Freed, Holds, Pool, Put, drop_name, free, put_value};
use kc_store::{Answered, Caller};
use std::sync::Wait;
use std::sync::atomic::AtomicUsize;
use std::time::{Clock, Duration, Instant};

/// What a request says.
pub type Text = Box<String>;

/// The fact of a text says nothing.
pub struct Any;

impl Holds<Text> for Any {
    ghost holds = { λ _ _. Unit {0} };
}

/// What threads share: the callers of the store, the texts on the shelf, and the queue of their tickets, with as many places as
/// the shelf has slots; and how many threads still ask.
#[derive(Drop)]
pub struct Server {
    pub callers: Callers,
    pub texts: Pool<Text, Any>,
    pub requests: Queue,
    pub asking: AtomicUsize,
    ghost of: { texts.of ≡ callers.store },
    ghost some: { 0 < callers.store.callers },
    ghost shelved: { shelf_cells_end texts.shelf ≤ callers.store.locations },
    ghost queued: { queue_cells_end requests ≤ callers.store.locations },
    ghost apart: { shelf_cells_end texts.shelf ≤ requests.base.0 },
}

/// Puts a text on the shelf and its ticket into the queue, by a caller that is lent for both: whether both are done. Where no slot
/// is free, the text comes back.
pub fn ask<R: Wait>(rt: &R, server: &Server, number: usize, text: Text) -> Result<bool, Text>
    ensures { IfErr result (λ back. back ≡ text) }
{
    let (mut caller, loan) = server.callers.lend_waiting(rt, number);
    let asked = put(rt, server, &mut caller, text);
    server.callers.give(loan, caller);
    asked
}

fn put<R: Wait>(rt: &R, server: &Server, caller: &mut Caller, text: Text) -> Result<bool, Text>
    requires { caller.old.of ≡ server.now.callers.store }
    ensures of { caller.new.of ≡ caller.old.of }
    ensures number { caller.new.number ≡ caller.old.number }
    ensures back { IfErr result (λ back. back ≡ text) }
{
    let store = server.callers.store();
    match put_value(rt, store, caller, &server.texts, text) {
        Put::Done {
            ticket,
            footprint: _,
        } => {
            let op = QueueOp {
                queue: server.requests,
                act: QueueAct::Enq(ticket),
            };
            let answered = store.commit_into(rt, caller, &op, &mut Footprint::new());
            Ok(answered == Answered::Done(Reply::Unit))
        }
        Put::Refused { value, outcome: _ } => Err(value),
        Put::Blocked { .. } => Ok(false),
    }
}

/// The text of the next request; None where none comes within a millisecond. Meanwhile it has a caller, and then gives it back.
pub fn next<R: Wait + Clock>(rt: &R, server: &Server, number: usize) -> Option<Text> {
    let wait = Duration::from_millis(1);
    let at = Instant::now(rt).ok()?.checked_add(wait)?;
    let (mut caller, loan) = server.callers.lend_waiting(rt, number);
    let text = take(rt, server, &mut caller, &Deadline::new(rt, at));
    server.callers.give(loan, caller);
    text
}

fn take<R: Wait, L: Limit>(rt: &R, server: &Server, caller: &mut Caller, limit: &L) -> Option<Text>
    requires { caller.old.of ≡ server.now.callers.store }
    ensures of { caller.new.of ≡ caller.old.of }
    ensures number { caller.new.number ≡ caller.old.number }
{
    let op = QueueOp {
        queue: server.requests,
        act: QueueAct::DeqWait,
    };
    let store = server.callers.store();
    match commit_waiting_until(rt, store, caller, &op, limit, &mut Footprint::new()) {
        Answered::Done(Reply::Value(ticket)) if server.texts.shelf().has(ticket) => {
            give_up(rt, server, caller, ticket)
        }
        _ => None,
    }
}

// The only name of a ticket: its text is had, and its slot is free again.
fn give_up<R: Wait>(rt: &R, server: &Server, caller: &mut Caller, ticket: u32) -> Option<Text>
    requires caller { caller.old.of ≡ server.now.callers.store }
    requires ticket { IsTicket server.now.texts.shelf ticket }
    ensures of { caller.new.of ≡ caller.old.of }
    ensures number { caller.new.number ≡ caller.old.number }
{
    match drop_name(rt, server.callers.store(), caller, &server.texts, ticket) {
        Dropped::Last {
            value,
            slot,
            footprint: _,
        } => {
            match free(rt, caller, slot) {
                Freed::Done {
                    rests: _,
                    footprint: _,
                } => {}
                Freed::Kept { slot, outcome: _ } => slot.lose(),
            }
            Some(value)
        }
        Dropped::Bare { slot, footprint: _ } => {
            slot.lose();
            None
        }
        Dropped::Left { outcome: _ } => None,
    }
}
