ghost use Rattle.std.specs.Prelude.{◌≡◌, ◌+◌, ◌-◌, ◌<◌, ◌≤◌, ⊤, length, IfOk, ℕ, List, [], ◌∷◌, Some, None};
ghost use Rattle.kc_model.specs.declared.footprint.TheConstants.{MOST};
ghost use Rattle.kc_model.specs.declared.reply.Reply.TheVariants as reply;
ghost use Rattle.kc_xt.specs.Meaning.{Run, Touch, limited, replied, too_large, first_meaning, then_meaning, map_after, last_written};
ghost use Rattle.kc_xt.specs.Program.{meaning, read, write, replies, retries};
ghost use Rattle.kc_xt.specs.Steps.{Does};
ghost use Rattle.kc_base_tests.specs.Worked.{clears, takes_one};

use crate::asserts::{equal, holds};
use kc_model::{Footprint, LAST_VERSION, Loc, MOST, PlainStore, Put, Reply, Seen};
use kc_xt::*;
use std::alloc::Global;
use std::test::Fail;

// The definitions, computed by hand on the map with 5 everywhere: an alternative that is given up touches, and leaves
// no change; one part behind another sees its writes; a third location under a limit of two is too large.
fn meanings_by_hand()
    ensures given_up { first_meaning (meaning (write 1 7 retries)) (meaning (read 1 (λ v. replies (reply.Value v)))) MOST (λ (l : ℕ). 5) [] ≡ record { outcome = replied (reply.Value 5); touches = record { cell = 1; wrote = None } ∷ record { cell = 1; wrote = None } ∷ [] } }
    ensures behind { then_meaning (meaning (write 1 7 (replies reply.Unit))) (λ a. meaning (read 1 (λ v. replies (reply.Value v)))) MOST (λ (l : ℕ). 5) [] ≡ record { outcome = replied (reply.Value 7); touches = record { cell = 1; wrote = Some 7 } ∷ record { cell = 1; wrote = None } ∷ [] } }
    ensures too_many { meaning (read 1 (λ v. read 2 (λ w. read 1 (λ u. write 3 u (replies reply.Unit))))) 2 (λ (l : ℕ). 5) [] ≡ record { outcome = too_large; touches = record { cell = 1; wrote = None } ∷ record { cell = 2; wrote = None } ∷ record { cell = 1; wrote = None } ∷ [] } }
    ensures own_limit { limited 2 (meaning (read 1 (λ v. read 2 (λ w. read 1 (λ u. write 3 u (replies reply.Unit)))))) MOST (λ (l : ℕ). 5) [] ≡ (meaning (read 1 (λ v. read 2 (λ w. read 1 (λ u. write 3 u (replies reply.Unit)))))) 2 (λ (l : ℕ). 5) [] }
{}

fn store_of(alloc: Global, values: &[u32]) -> Result<PlainStore, Fail>
    ensures { IfOk result (λ store. length store ≡ length values.now) }
{
    match PlainStore::open(alloc, values) {
        Ok(store) => Ok(store),
        Err(_) => Err(Fail::from("no memory")),
    }
}

#[test]
fn the_line_past_the_most_is_too_large(rt: HostRuntime) -> Result<(), Fail> {
    let store = store_of(rt.alloc(), &[7; MOST + 1])?;
    let mut room = Room::new();
    let mut xt = Xt::new(PlainPeek::new(&store), &mut room, MOST as u32);
    for l in 0..MOST as u32 {
        equal(&rt, xt.get(Loc(l)), Ok(7));
    }
    equal(&rt, xt.get(Loc(MOST as u32)), Err(Stop::TooLarge));
    equal(&rt, xt.set(Loc(0), 8), Ok(()));
    equal(&rt, xt.get(Loc(0)), Ok(8));
    Ok(())
}

#[test]
fn a_log_keeps_to_the_limit_that_it_was_given(rt: HostRuntime) -> Result<(), Fail> {
    let store = store_of(rt.alloc(), &[5, 6, 7])?;
    let mut room = Room::new();
    let mut xt = Xt::new(PlainPeek::new(&store), &mut room, 2);
    equal(&rt, xt.get(Loc(2)), Ok(7));
    equal(&rt, xt.set(Loc(0), 8), Ok(()));
    equal(&rt, xt.set(Loc(1), 9), Err(Stop::TooLarge));
    equal(&rt, xt.get(Loc(0)), Ok(8));
    equal(&rt, xt.count(), 2);
    Ok(())
}

#[test]
fn a_rollback_keeps_lines_and_takes_back_values(rt: HostRuntime) -> Result<(), Fail> {
    let store = store_of(rt.alloc(), &[5, 6])?;
    let mut room = Room::new();
    let mut xt = Xt::new(PlainPeek::new(&store), &mut room, MOST as u32);
    equal(&rt, xt.set(Loc(0), 7), Ok(()));
    let before = xt.snapshot::<{ FEW }>();
    equal(&rt, xt.set(Loc(0), 8), Ok(()));
    equal(&rt, xt.set(Loc(1), 9), Ok(()));
    xt.rollback(&before);
    equal(&rt, xt.get(Loc(0)), Ok(7));
    equal(&rt, xt.get(Loc(1)), Ok(6));
    let (_, footprint) = xt.into_parts();
    equal(&rt, footprint.reads.len(), 2);
    equal(&rt, footprint.puts.len(), 1);
    Ok(())
}

#[test]
fn a_swap_gives_each_location_the_other_value(rt: HostRuntime) -> Result<(), Fail> {
    let store = store_of(rt.alloc(), &[5, 6])?;
    let mut room = Room::new();
    let mut xt = Xt::new(PlainPeek::new(&store), &mut room, MOST as u32);
    equal(&rt, xt.swap(Loc(0), Loc(1)), Ok(()));
    equal(&rt, xt.get(Loc(0)), Ok(6));
    equal(&rt, xt.get(Loc(1)), Ok(5));
    Ok(())
}

#[test]
fn a_compare_and_set_that_answers_false_sets_nothing(rt: HostRuntime) -> Result<(), Fail> {
    let store = store_of(rt.alloc(), &[5])?;
    let mut room = Room::new();
    let mut xt = Xt::new(PlainPeek::new(&store), &mut room, MOST as u32);
    equal(&rt, xt.compare_and_set(Loc(0), 6, 7), Ok(false));
    let (_, footprint) = xt.into_parts();
    holds(&rt, footprint.puts.is_empty());
    Ok(())
}

#[test]
fn a_sum_wraps_and_an_exchange_answers_the_value_before(rt: HostRuntime) -> Result<(), Fail> {
    let store = store_of(rt.alloc(), &[u32::MAX])?;
    let mut room = Room::new();
    let mut xt = Xt::new(PlainPeek::new(&store), &mut room, MOST as u32);
    equal(&rt, xt.fetch_add(Loc(0), 3), Ok(u32::MAX));
    equal(&rt, xt.exchange(Loc(0), 9), Ok(2));
    equal(&rt, xt.compare_and_set(Loc(0), 9, 1), Ok(true));
    Ok(())
}

// The worked example of a loop on a log: gives zero to each location from `first` to before `end`.
fn clear_range<P: Peek>(first: u32, end: u32, xt: &mut Xt<P>) -> Result<Reply, Stop>
    requires { end ≤ P.locations xt.old.peek }
    ensures goes { Does P.peek_gives (clears first (end - first)) xt.old result xt.new }
    ensures size { P.locations xt.new.peek ≡ P.locations xt.old.peek }
{
    for l in first..end {
        xt.set(Loc(l), 0)?;
    }
    Ok(Reply::Unit)
}

#[test]
fn a_loop_clears_the_locations_that_it_names_alone(rt: HostRuntime) -> Result<(), Fail> {
    let store = store_of(rt.alloc(), &[5, 6, 7, 8])?;
    let mut room = Room::new();
    let mut xt = Xt::new(PlainPeek::new(&store), &mut room, MOST as u32);
    equal(&rt, clear_range(1, 3, &mut xt), Ok(Reply::Unit));
    equal(&rt, xt.get(Loc(0)), Ok(5));
    equal(&rt, xt.get(Loc(1)), Ok(0));
    equal(&rt, xt.get(Loc(2)), Ok(0));
    equal(&rt, xt.get(Loc(3)), Ok(8));
    Ok(())
}

// Takes one from the number at a location, and replies the number before; waits while it is 0.
#[derive(Clone, Copy, Debug, PartialEq, Eq)]
struct Take {
    at: u16,
}

impl Transact for Take {
    ghost meaning = { λ t. meaning (takes_one t.at replies) };

    ghost is_fit = { λ t. ⊤ };

    ghost end = { λ t. t.at + 1 };

    fn bound(&self) -> u32 {
        self.at as u32 + 1
    }

    fn limit(&self) -> u32 {
        MOST as u32
    }

    fn run<P: Peek>(&self, xt: &mut Xt<P>) -> Result<Reply, Stop> {
        take_one(*self, xt)
    }
}

fn take_one<P: Peek>(op: Take, xt: &mut Xt<P>) -> Result<Reply, Stop>
    requires { op.at + 1 ≤ P.locations xt.old.peek }
    ensures goes { Does P.peek_gives (takes_one op.at) xt.old result xt.new }
    ensures size { P.locations xt.new.peek ≡ P.locations xt.old.peek }
{
    let at = Loc(op.at as u32);
    let value = xt.get(at)?;
    if value == 0 {
        return Err(Stop::Retry);
    }
    xt.set(at, value - 1)?;
    Ok(Reply::Value(value))
}

// Shows four locations at this version, each with the value 5, or gives up each look.
#[derive(Drop)]
struct Shown {
    version: Option<u32>,
}

impl Peek for Shown {
    ghost locations = { λ s. 4 };

    ghost peek_gives = { λ s l r t. ⊤ };

    fn size(&self) -> u32 {
        4
    }

    fn peek(&mut self, loc: Loc) -> Result<Seen, PeekBusy> {
        match self.version {
            Some(version) => Ok(Seen {
                loc,
                version: version.min(LAST_VERSION),
                value: 5,
            }),
            None => Err(PeekBusy),
        }
    }
}

#[test]
fn an_attempt_on_a_plain_store_is_done_or_is_for_later(rt: HostRuntime) -> Result<(), Fail> {
    let store = store_of(rt.alloc(), &[0, 3])?;
    let (mut room, mut trial, mut footprint) = (Room::new(), Trial::new(), Footprint::new());
    attempt(
        PlainPeek::new(&store),
        &mut room,
        &Take { at: 1 },
        &mut trial,
        &mut footprint,
    );
    equal(&rt, trial.tried(), Tried::Done(Reply::Value(3)));
    let (loc, version) = (Loc(1), 0);
    let (read, put) = (
        Seen {
            loc,
            version,
            value: 3,
        },
        Put {
            loc,
            version,
            after: 2,
        },
    );
    equal(&rt, footprint.reads.as_slice().first(), Some(&read));
    equal(&rt, footprint.puts.as_slice().first(), Some(&put));
    equal(&rt, footprint.reads.len() + footprint.puts.len(), 2);
    attempt(
        PlainPeek::new(&store),
        &mut room,
        &Take { at: 0 },
        &mut trial,
        &mut footprint,
    );
    equal(&rt, trial.tried(), Tried::Later);
    equal(&rt, footprint.reads.len(), 1);
    holds(&rt, footprint.puts.is_empty());
    Ok(())
}

#[test]
fn a_write_at_the_last_version_is_worn_and_a_busy_look_leaves_the_footprint(
    rt: HostRuntime,
) -> Result<(), Fail> {
    let (mut room, mut trial, mut footprint) = (Room::new(), Trial::new(), Footprint::new());
    let last = Shown {
        version: Some(LAST_VERSION),
    };
    attempt(last, &mut room, &Take { at: 2 }, &mut trial, &mut footprint);
    equal(&rt, trial.tried(), Tried::Worn(Loc(2)));
    equal(&rt, footprint.reads.len(), 1);
    holds(&rt, footprint.puts.is_empty());
    attempt(
        Shown { version: None },
        &mut room,
        &Take { at: 1 },
        &mut trial,
        &mut footprint,
    );
    equal(&rt, trial.tried(), Tried::Busy);
    equal(&rt, footprint.reads.len(), 1);
    let near = Shown {
        version: Some(LAST_VERSION - 1),
    };
    attempt(near, &mut room, &Take { at: 2 }, &mut trial, &mut footprint);
    equal(&rt, trial.tried(), Tried::Done(Reply::Value(5)));
    equal(&rt, footprint.puts.len(), 1);
    Ok(())
}
