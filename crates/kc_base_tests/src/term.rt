ghost use Rattle.std.specs.Prelude.{◌≡◌, ◌+◌, ◌≤◌, ⊤, ℕ, [], ◌∷◌, Some, None, length};
ghost use Rattle.kc_model.specs.declared.reply.Item.TheVariants as item;
ghost use Rattle.kc_model.specs.declared.reply.Reply.TheVariants as reply;
ghost use Rattle.kc_xt.specs.Meaning.{Run, Touch, replied, retried};
ghost use Rattle.kc_xt.specs.Program.{read, write, replies, retries, meaning};
ghost use Rattle.kc_xt.specs.Steps.{Does};
ghost use Rattle.kc_term.specs.Tree.{op, seq, first, trees};
ghost use Rattle.kc_term.specs.Meaning.{term_meaning};
ghost use Rattle.kc_base_tests.specs.Worked.{add_program};

use crate::asserts::{equal, holds};
use kc_model::{Item, Items, Loc, MOST, PlainStore, Reply};
use kc_term::*;
use kc_xt::{Peek, PlainPeek, Room, Stop, Transact, Xt};
use std::alloc::Global;
use std::test::Fail;

// The definitions, computed by hand on the map with 5 everywhere: an alternative that is given up touches, and leaves
// no change; items of a part stand in its place; nothing is done behind a part that waits.
fn meanings_by_hand()
    ensures given_up { term_meaning meaning (first (seq (trees (op (write 1 7 (replies reply.Unit)) ∷ op (read 2 (λ v. retries)) ∷ []))) (op (read 1 (λ v. replies (reply.Value v))))) MOST (λ (l : ℕ). 5) [] ≡ record { outcome = replied (reply.Value 5); touches = record { cell = 1; wrote = None } ∷ record { cell = 2; wrote = None } ∷ record { cell = 1; wrote = None } ∷ [] } }
    ensures spliced { term_meaning meaning (seq (trees (op (write 1 7 (replies reply.Unit)) ∷ seq (trees (op (read 1 (λ v. replies (reply.Value v))) ∷ op (replies reply.Full) ∷ [])) ∷ op (replies reply.Empty) ∷ []))) MOST (λ (l : ℕ). 5) [] ≡ record { outcome = replied (reply.Many (item.Unit ∷ item.Value 7 ∷ item.Full ∷ item.Empty ∷ [])); touches = record { cell = 1; wrote = Some 7 } ∷ record { cell = 1; wrote = None } ∷ [] } }
    ensures stopped { term_meaning meaning (seq (trees (op (write 1 7 (replies reply.Unit)) ∷ op (read 2 (λ v. retries)) ∷ op (write 3 7 (replies reply.Unit)) ∷ []))) MOST (λ (l : ℕ). 5) [] ≡ record { outcome = retried; touches = record { cell = 1; wrote = Some 7 } ∷ record { cell = 2; wrote = None } ∷ [] } }
{}

// Waits while a location has less than `least`, and then adds `n` there. Replies the value before.
#[derive(Clone, Copy, Debug, PartialEq, Eq)]
struct Add {
    at: u16,
    least: u32,
    n: u32,
}

impl Transact for Add {
    ghost meaning = { λ a. meaning (add_program a.at a.least a.n replies) };

    ghost is_fit = { λ a. ⊤ };

    ghost end = { λ a. a.at + 1 };

    fn bound(&self) -> u32 {
        self.at as u32 + 1
    }

    fn limit(&self) -> u32 {
        MOST as u32
    }

    fn run<P: Peek>(&self, xt: &mut Xt<P>) -> Result<Reply, Stop> {
        add_on(*self, xt)
    }
}

fn add_on<P: Peek>(op: Add, xt: &mut Xt<P>) -> Result<Reply, Stop>
    requires { op.at + 1 ≤ P.locations xt.old.peek }
    ensures goes { Does P.peek_gives (add_program op.at op.least op.n) xt.old result xt.new }
    ensures size { P.locations xt.new.peek ≡ P.locations xt.old.peek }
{
    let at = Loc(op.at as u32);
    let value = xt.get(at)?;
    if value < op.least {
        return Err(Stop::Retry);
    }
    xt.set(at, value.wrapping_add(op.n))?;
    Ok(Reply::Value(value))
}

fn adding(at: u16, n: u32) -> Term<Add> {
    Term::op(Add { at, least: 0, n })
}

fn waiting(at: u16, least: u32) -> Term<Add> {
    Term::op(Add { at, least, n: 0 })
}

fn no_memory() -> Fail {
    Fail::from("no memory")
}

fn store_of(alloc: Global, values: &[u32]) -> Result<PlainStore, Fail> {
    match PlainStore::open(alloc, values) {
        Ok(store) => Ok(store),
        Err(_) => Err(no_memory()),
    }
}

fn one_after_another(parts: Vec<Term<Add>>) -> Result<Term<Add>, Fail> {
    match Term::seq(parts) {
        Ok(term) => Ok(term),
        Err(_) => Err(Fail::from("too many operations")),
    }
}

fn either(alloc: Global, a: Term<Add>, b: Term<Add>) -> Result<Term<Add>, Fail> {
    match Term::first(alloc, a, b) {
        Ok(term) => Ok(term),
        Err(_) => Err(no_memory()),
    }
}

// Runs a term behind what ran on the log of this store.
fn answer(
    term: &Term<Add>,
    store: &PlainStore,
    xt: &mut Xt<PlainPeek>,
) -> Result<Result<Reply, Stop>, Fail>
    requires { length xt.old.peek ≡ length store.now }
    ensures { length xt.new.peek ≡ length xt.old.peek }
{
    if !term.is_short() || term.bound() > store.len() {
        return Err(Fail::from("not to be run on this store"));
    }
    Ok(term.run(xt))
}

fn many(items: &[Item]) -> Reply
    requires { length items.now ≤ 16 }
{
    let mut all = Items::new();
    for item in items {
        all.push(*item);
    }
    Reply::Many(all)
}

#[test]
fn a_sequence_of_nothing_replies_no_items(rt: HostRuntime) -> Result<(), Fail> {
    let store = store_of(rt.alloc(), &[5])?;
    let mut room = Room::new();
    let mut xt = Xt::new(PlainPeek::new(&store), &mut room, MOST as u32);
    let nothing = one_after_another(Vec::new(rt.alloc()))?;
    equal(&rt, answer(&nothing, &store, &mut xt)?, Ok(many(&[])));
    Ok(())
}

#[test]
fn items_of_a_part_stand_in_its_place(rt: HostRuntime) -> Result<(), Fail> {
    let store = store_of(rt.alloc(), &[5, 6])?;
    let mut room = Room::new();
    let mut xt = Xt::new(PlainPeek::new(&store), &mut room, MOST as u32);
    let inner = one_after_another(vec![in rt.alloc(); adding(1, 1), adding(0, 2)]?)?;
    let outer = one_after_another(vec![in rt.alloc(); adding(0, 3), inner, adding(1, 0)]?)?;
    let items = [
        Item::Value(5),
        Item::Value(6),
        Item::Value(8),
        Item::Value(7),
    ];
    equal(&rt, answer(&outer, &store, &mut xt)?, Ok(many(&items)));
    Ok(())
}

#[test]
fn a_sequence_ends_where_a_part_would_wait(rt: HostRuntime) -> Result<(), Fail> {
    let store = store_of(rt.alloc(), &[5, 6, 7])?;
    let mut room = Room::new();
    let mut xt = Xt::new(PlainPeek::new(&store), &mut room, MOST as u32);
    let term = one_after_another(vec![in rt.alloc(); adding(0, 1), waiting(1, 9), adding(2, 1)]?)?;
    equal(&rt, answer(&term, &store, &mut xt)?, Err(Stop::Retry));
    let (_, footprint) = xt.into_parts();
    equal(&rt, footprint.reads.len(), 2);
    equal(&rt, footprint.puts.len(), 1);
    Ok(())
}

#[test]
fn a_pair_replies_as_the_sequence_of_the_two_and_ends_where_one_waits(
    rt: HostRuntime,
) -> Result<(), Fail> {
    let store = store_of(rt.alloc(), &[5, 6, 7])?;
    let mut room = Room::new();
    let mut xt = Xt::new(PlainPeek::new(&store), &mut room, MOST as u32);
    let add = |at, n| Add { at, least: 0, n };
    let inner = Term::pair(add(0, 3), add(0, 1));
    let term = one_after_another(vec![in rt.alloc(); adding(1, 1), inner, adding(0, 0)]?)?;
    let items = [
        Item::Value(6),
        Item::Value(5),
        Item::Value(8),
        Item::Value(9),
    ];
    equal(&rt, answer(&term, &store, &mut xt)?, Ok(many(&items)));
    let waits = Add {
        at: 1,
        least: 9,
        n: 1,
    };
    let first_waits = Term::pair(waits, add(2, 1));
    equal(
        &rt,
        answer(&first_waits, &store, &mut xt)?,
        Err(Stop::Retry),
    );
    let second_waits = Term::pair(add(0, 0), waits);
    equal(
        &rt,
        answer(&second_waits, &store, &mut xt)?,
        Err(Stop::Retry),
    );
    let (_, footprint) = xt.into_parts();
    equal(&rt, footprint.reads.len(), 2);
    equal(&rt, footprint.puts.len(), 2);
    Ok(())
}

#[test]
fn an_alternative_that_would_wait_is_rolled_back_and_its_reads_stay(
    rt: HostRuntime,
) -> Result<(), Fail> {
    let store = store_of(rt.alloc(), &[5, 6, 7])?;
    let mut room = Room::new();
    let mut xt = Xt::new(PlainPeek::new(&store), &mut room, MOST as u32);
    let given_up = one_after_another(vec![in rt.alloc();
        adding(0, 10),
        adding(1, 10),
        waiting(2, 9),
    ]?)?;
    let alternatives = either(rt.alloc(), given_up, adding(0, 2))?;
    let term = one_after_another(vec![in rt.alloc(); adding(0, 1), alternatives]?)?;
    equal(
        &rt,
        answer(&term, &store, &mut xt)?,
        Ok(many(&[Item::Value(5), Item::Value(6)])),
    );
    let (_, footprint) = xt.into_parts();
    equal(&rt, footprint.reads.len(), 3);
    assert_eq!(rt; footprint.puts.len(), 1);
    equal(&rt, footprint.puts[0].after, 8);
    Ok(())
}

#[test]
fn the_second_alternative_is_not_run_where_the_first_replies(rt: HostRuntime) -> Result<(), Fail> {
    let store = store_of(rt.alloc(), &[5, 6])?;
    let mut room = Room::new();
    let mut xt = Xt::new(PlainPeek::new(&store), &mut room, MOST as u32);
    let term = either(rt.alloc(), adding(0, 1), adding(1, 1))?;
    equal(&rt, answer(&term, &store, &mut xt)?, Ok(Reply::Value(5)));
    let (_, footprint) = xt.into_parts();
    equal(&rt, footprint.reads.len(), 1);
    Ok(())
}

#[test]
fn the_second_alternative_is_not_run_where_the_first_is_too_large(
    rt: HostRuntime,
) -> Result<(), Fail> {
    let store = store_of(rt.alloc(), &[5; 3])?;
    let mut room = Room::new();
    let mut xt = Xt::new(PlainPeek::new(&store), &mut room, 2);
    for at in 0..2 {
        equal(
            &rt,
            answer(&adding(at, 0), &store, &mut xt)?,
            Ok(Reply::Value(5)),
        );
    }
    let term = either(rt.alloc(), adding(2, 1), adding(0, 1))?;
    equal(&rt, answer(&term, &store, &mut xt)?, Err(Stop::TooLarge));
    Ok(())
}

#[test]
fn seventeen_operations_are_given_back(rt: HostRuntime) -> Result<(), Fail> {
    let mut inner = Vec::new(rt.alloc());
    for at in 0..9 {
        inner.push(adding(at, 0))?;
    }
    let inner = one_after_another(inner)?;
    let mut parts = vec![in rt.alloc(); inner]?;
    for at in 0..8 {
        parts.push(adding(at, 0))?;
    }
    match Term::seq(parts) {
        Ok(_) => Err(Fail::from("seventeen")),
        Err(TooMany { mut parts }) => {
            equal(&rt, parts.len(), 9);
            drop(parts.pop());
            let sixteen = one_after_another(parts)?;
            holds(&rt, sixteen.is_short());
            Ok(())
        }
    }
}

#[test]
fn the_ninth_nested_alternatives_are_given_back(rt: HostRuntime) -> Result<(), Fail> {
    let mut term = adding(0, 0);
    for at in 1..9 {
        term = either(rt.alloc(), adding(at, 0), term)?;
    }
    let deep = one_after_another(vec![in rt.alloc(); adding(9, 0), term]?)?;
    match Term::first(rt.alloc(), deep, adding(10, 0)) {
        Err(TermError::TooDeep { a, b }) => {
            holds(&rt, matches!(a.node(), Node::Seq(_)));
            holds(&rt, matches!(b.node(), Node::Op(Add { at: 10, .. })));
            Ok(())
        }
        _ => Err(Fail::from("nine alternatives in one another")),
    }
}

// Runs operations in a row behind what ran on the log of this store.
fn answer_row(
    ops: &[Add],
    store: &PlainStore,
    xt: &mut Xt<PlainPeek>,
) -> Result<Result<Reply, Stop>, Fail>
    requires { length xt.old.peek ≡ length store.now }
    ensures { length xt.new.peek ≡ length xt.old.peek }
{
    let row = Row { ops };
    if ops.len() > MOST_OPERATIONS as usize || row.bound() > store.len() {
        return Err(Fail::from("not to be run on this store"));
    }
    Ok(row.run(xt))
}

// Runs the first, or else the second, of two rows.
fn answer_either(
    first: &[Add],
    second: &[Add],
    store: &PlainStore,
    xt: &mut Xt<PlainPeek>,
) -> Result<Result<Reply, Stop>, Fail>
    requires { length xt.old.peek ≡ length store.now }
    ensures { length xt.new.peek ≡ length xt.old.peek }
{
    let either = Either {
        first: Row { ops: first },
        second: Row { ops: second },
    };
    let most = MOST_OPERATIONS as usize;
    if first.len() > most || second.len() > most || either.bound() > store.len() {
        return Err(Fail::from("not to be run on this store"));
    }
    Ok(either.run(xt))
}

#[test]
fn a_row_replies_each_item_and_stops_where_one_waits(rt: HostRuntime) -> Result<(), Fail> {
    let store = store_of(rt.alloc(), &[5, 6])?;
    let mut room = Room::new();
    let mut xt = Xt::new(PlainPeek::new(&store), &mut room, MOST as u32);
    let add = |at, n| Add { at, least: 0, n };
    equal(&rt, answer_row(&[], &store, &mut xt)?, Ok(many(&[])));
    equal(
        &rt,
        answer_row(&[add(1, 3), add(0, 1), add(1, 0)], &store, &mut xt)?,
        Ok(many(&[Item::Value(6), Item::Value(5), Item::Value(9)])),
    );
    let waits = Add {
        at: 0,
        least: 7,
        n: 0,
    };
    equal(
        &rt,
        answer_row(&[add(0, 0), waits, add(1, 1)], &store, &mut xt)?,
        Err(Stop::Retry),
    );
    let (_, footprint) = xt.into_parts();
    assert_eq!(rt; footprint.puts.len(), 2);
    equal(&rt, footprint.puts[1].after, 9);
    Ok(())
}

#[test]
fn the_first_of_two_rows_is_taken_back_where_it_waits(rt: HostRuntime) -> Result<(), Fail> {
    let store = store_of(rt.alloc(), &[5; 12])?;
    let mut room = Room::new();
    let mut xt = Xt::new(PlainPeek::new(&store), &mut room, MOST as u32);
    let add = |at, n| Add { at, least: 0, n };
    let waits = Add {
        at: 0,
        least: 7,
        n: 0,
    };
    equal(
        &rt,
        answer_either(&[add(1, 3), waits], &[add(1, 1)], &store, &mut xt)?,
        Ok(many(&[Item::Value(5)])),
    );
    equal(
        &rt,
        answer_either(&[add(1, 0)], &[add(1, 1)], &store, &mut xt)?,
        Ok(many(&[Item::Value(6)])),
    );
    for at in 2..12 {
        equal(
            &rt,
            answer_row(&[add(at, 1)], &store, &mut xt)?,
            Ok(many(&[Item::Value(5)])),
        );
    }
    equal(
        &rt,
        answer_either(&[add(1, 3), waits], &[add(1, 0)], &store, &mut xt)?,
        Ok(many(&[Item::Value(6)])),
    );
    Ok(())
}
