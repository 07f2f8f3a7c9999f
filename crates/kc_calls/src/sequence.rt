//! Operations one after another, some fed by the replies of others.

ghost use Rattle.std.specs.Prelude.{◌≡◌, ◌≤◌, ◌<◌, ◌++◌, length};
ghost use Rattle.kc_calls.specs.Fed.{fed, feeds_a, feeds_b, number_replied, with_a_fed, with_b_fed};
ghost use Rattle.kc_calls.specs.Meaning.{CallsAreFit, IsOperation, calls_end, meaning_fed, row_meaning, said_end};
ghost use Rattle.kc_model.specs.declared.plain_store.TheConstants.{MOST_LOCATIONS};
ghost use Rattle.kc_term.specs.Meaning.{items_of};
ghost use Rattle.kc_xt.specs.Law.{Obeys};

use crate::operation::KcasOp;
use crate::reply::item_at;
use crate::verbs::{FED_A, FED_B, FED_BOTH, OR};
use kc_model::{Item, Items, MOST, Reply};
use kc_term::Row;
use kc_xt::{Peek, Stop, Transact, Xt};

/// Operations, one after another, up to one that stops. It replies what each of them replied, and takes no memory.
#[derive(Drop)]
pub(crate) struct Sequence<'a> {
    pub(crate) ops: &'a [KcasOp],
}

impl<'a> Transact for Sequence<'a> {
    ghost meaning = { λ s. row_meaning s.ops.now };

    ghost is_fit = { λ s. CallsAreFit s.ops.now };

    ghost end = { λ s. calls_end s.ops.now };

    fn bound(&self) -> u32 {
        Row { ops: self.ops }.bound()
    }

    fn limit(&self) -> u32 {
        MOST as u32
    }

    fn run<P: Peek>(&self, xt: &mut Xt<P>) -> Result<Reply, Stop> {
        run_sequence(self.ops, xt)
    }
}

fn run_sequence<P: Peek>(ops: &[KcasOp], xt: &mut Xt<P>) -> Result<Reply, Stop>
    requires fit { CallsAreFit ops.now }
    requires within { calls_end ops.now ≤ P.locations xt.old.peek }
    ensures law { Obeys P.peek_gives (row_meaning ops.now) (calls_end ops.now) xt.old result xt.new }
    ensures size { P.locations xt.new.peek ≡ P.locations xt.old.peek }
{
    let mut items = Items::new();
    for op in ops {
        let reply = run_behind(op, &items, xt)?;
        add_item(&mut items, &reply);
    }
    Ok(Reply::Many(items))
}

// An operation behind those that replied these items.
#[inline(always)]
fn run_behind<P: Peek>(op: &KcasOp, items: &Items, xt: &mut Xt<P>) -> Result<Reply, Stop>
    requires fit { IsOperation MOST_LOCATIONS op.now }
    requires within { said_end op.now ≤ P.locations xt.old.peek }
    ensures law { Obeys P.peek_gives (meaning_fed (fed items.now op.now)) (said_end op.now) xt.old result xt.new }
    ensures size { P.locations xt.new.peek ≡ P.locations xt.old.peek }
{
    if op.mark <= OR {
        return op.run(xt);
    }
    run_fed(op, items, xt)
}

// Kept apart from operations that are fed nothing, which are most.
#[inline(never)]
fn run_fed<P: Peek>(op: &KcasOp, items: &Items, xt: &mut Xt<P>) -> Result<Reply, Stop>
    requires fit { IsOperation MOST_LOCATIONS op.now }
    requires within { said_end op.now ≤ P.locations xt.old.peek }
    ensures law { Obeys P.peek_gives (meaning_fed (fed items.now op.now)) (said_end op.now) xt.old result xt.new }
    ensures size { P.locations xt.new.peek ≡ P.locations xt.old.peek }
{
    match fed(op, items) {
        Some(operation) => operation.run(xt),
        None => Ok(Reply::Empty),
    }
}

// The operation with the replies that it is fed; None where one of them is no number.
fn fed(op: &KcasOp, items: &Items) -> Option<KcasOp>
    ensures { result ≡ fed items.now op.now }
{
    let operation = with_a_fed(*op, items)?;
    with_b_fed(operation, items)
}

fn with_a_fed(op: KcasOp, items: &Items) -> Option<KcasOp>
    ensures { result ≡ with_a_fed items.now op }
{
    if !feeds_a(op.mark) {
        return Some(op);
    }
    let a = number_replied(items, op.a)?;
    Some(KcasOp { a, ..op })
}

fn with_b_fed(op: KcasOp, items: &Items) -> Option<KcasOp>
    ensures { result ≡ with_b_fed items.now op }
{
    if !feeds_b(op.mark) {
        return Some(op);
    }
    let b = number_replied(items, op.b)?;
    Some(KcasOp { b, ..op })
}

pub(crate) fn feeds_a(mark: u32) -> bool
    ensures { result ≡ feeds_a mark }
{
    mark == FED_A || mark == FED_BOTH
}

pub(crate) fn feeds_b(mark: u32) -> bool
    ensures { result ≡ feeds_b mark }
{
    mark == FED_B || mark == FED_BOTH
}

// The number that the operation of this place replied.
fn number_replied(items: &Items, place: u32) -> Option<u32>
    ensures { result ≡ number_replied items.now place }
{
    if place >= items.len() {
        return None;
    }
    match items.get(place) {
        Item::Value(number) => Some(number),
        _ => None,
    }
}

// Puts the one item of a reply behind others.
fn add_item(items: &mut Items, reply: &Reply)
    requires one { length (items_of reply.now) ≤ 1 }
    requires room { length items.old < 16 }
    ensures { items.new ≡ items.old ++ items_of reply.now }
{
    match item_at(reply, 0) {
        Some(item) => items.push(item),
        None => {}
    }
}
