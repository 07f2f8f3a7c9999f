//! Four threads that read, name, clear and bury the same texts.

ghost use Rattle.std.specs.Prelude.{◌≡◌, ◌≤◌, ◌<◌, ◌+◌, IfSome, length};
ghost use Rattle.kc_text.specs.Meaning.{IsFitAct, texts_cells_end};
ghost use Rattle.kc_text_tests.specs.declared.threads.TheConstants.{PLACES, TEXTS};

use kc_model::Loc;
use kc_store::{Caller, Store};
use kc_text::{Buried, Text, TextAct, TextOp, TextPool, TextRead, Texts, bury_text, read_text};
use std::alloc::Global;
use std::sync::Wait;
use std::test::Fail;
use std::thread;
use std::thread::Threads;

// Of each round, on a store of its own.
const ROUNDS: u32 = 200;

const TEXTS: u32 = 8;

const PLACES: u32 = 4;

const CELLS: usize = 20;

// How often a thread goes through the texts in a round.
const TURNS: u32 = 2;

// What a thread saw: how many reads gave other bytes than their number's, how many gave the right ones, and how often it buried
// each text.
#[derive(Clone, Copy)]
struct Tally {
    wrong: u32,
    right: u32,
    buried: [u32; 9],
}

impl Tally {
    const NOTHING: Tally = Tally {
        wrong: 0,
        right: 0,
        buried: [0; 9],
    };

    // Counts a text that should be this one.
    fn check(&mut self, number: u32, text: Option<u32>) {
        if text == Some(number) {
            self.right = self.right.wrapping_add(1);
        } else {
            self.wrong = self.wrong.wrapping_add(1);
        }
    }

    // Counts the burial of a text.
    fn bury(&mut self, number: u32, text: Option<u32>)
        requires { number ≤ TEXTS }
    {
        self.check(number, text);
        let times = self.buried[number as usize];
        self.buried[number as usize] = times.wrapping_add(1);
    }

    fn and(&self, other: &Tally) -> Tally {
        let mut sum = *self;
        sum.wrong = sum.wrong.wrapping_add(other.wrong);
        sum.right = sum.right.wrapping_add(other.right);
        for i in 0..sum.buried.len() {
            sum.buried[i] = sum.buried[i].wrapping_add(other.buried[i]);
        }
        sum
    }

    // Whether each text was buried once, and each was read right.
    fn is_right(&self) -> bool {
        self.wrong == 0 && self.buried == [0, 1, 1, 1, 1, 1, 1, 1, 1]
    }
}

// The text of a number has eight times so many bytes, each of which is the number.
fn text_of(number: u32) -> Option<Text>
    requires { number ≤ TEXTS }
{
    let bytes = [number as u8; 64];
    Text::new(&bytes[..8 * number as usize])
}

// The number of which these are all bytes.
fn number_of(text: &Text) -> Option<u32> {
    let bytes = text.bytes();
    let first = *bytes.first()?;
    if bytes.len() == 8 * first as usize && bytes.iter().all(|b| *b == first) {
        return Some(first as u32);
    }
    None
}

fn pool_of(alloc: Global) -> Option<TextPool>
    ensures { IfSome result (λ pool. length pool ≡ TEXTS) }
{
    let mut list = Vec::with_capacity(alloc, TEXTS as usize).ok()?;
    for i in 0..TEXTS {
        list.push_reserved(text_of(i + 1)?);
    }
    let Ok(pool) = TextPool::open(alloc, list) else {
        return None;
    };
    Some(pool)
}

// What threads share.
#[derive(Drop)]
struct Shared {
    store: Store,
    pool: TextPool,
    texts: Texts,
    ghost cells: { texts_cells_end texts ≤ store.locations },
    ghost size: { (texts.places ≡ PLACES) × (texts.texts ≡ TEXTS) },
    ghost pooled: { length pool ≡ TEXTS },
}

fn run<R: Wait>(rt: &R, shared: &Shared, caller: &mut Caller, act: TextAct)
    requires caller { caller.old.of ≡ shared.now.store }
    requires fit { IsFitAct shared.now.texts act }
    ensures { caller.new.of ≡ caller.old.of }
{
    let texts = shared.texts;
    shared.store.commit(rt, caller, &TextOp { texts, act });
}

// Reads what a place names.
fn read<R: Wait>(rt: &R, shared: &Shared, caller: &mut Caller, place: u32, tally: &mut Tally)
    requires caller { caller.old.of ≡ shared.now.store }
    requires place { place < PLACES }
    ensures { caller.new.of ≡ caller.old.of }
{
    let read = read_text(
        rt,
        &shared.store,
        caller,
        &shared.pool,
        &shared.texts,
        place,
        |text| number_of(text),
    );
    if let TextRead::Read { number, result, .. } = read {
        tally.check(number, result);
    }
}

fn bury<R: Wait>(rt: &R, shared: &Shared, caller: &mut Caller, number: u32, tally: &mut Tally)
    requires caller { caller.old.of ≡ shared.now.store }
    requires number { (1 ≤ number) × (number ≤ TEXTS) }
    ensures { caller.new.of ≡ caller.old.of }
{
    let buried = bury_text(
        rt,
        &shared.store,
        caller,
        &shared.pool,
        &shared.texts,
        number,
    );
    if let Buried::Gone { text, footprint: _ } = buried {
        tally.bury(number, number_of(&text));
    }
}

// At its place names a text, reads it and what another place names, clears the place, and tries to bury the text.
fn turn<R: Wait>(
    rt: &R,
    shared: &Shared,
    caller: &mut Caller,
    place: u32,
    number: u32,
    tally: &mut Tally,
)
    requires caller { caller.old.of ≡ shared.now.store }
    requires place { place < PLACES }
    requires number { (1 ≤ number) × (number ≤ TEXTS) }
    ensures { caller.new.of ≡ caller.old.of }
{
    run(rt, shared, caller, TextAct::Name(place, number));
    read(rt, shared, caller, place, tally);
    read(rt, shared, caller, (place + 1) % PLACES, tally);
    run(rt, shared, caller, TextAct::Clear(place));
    bury(rt, shared, caller, number, tally);
}

// A thread's turns in a round.
fn work<R: Wait>(rt: &R, shared: &Shared, mut caller: Caller, place: u32) -> (Caller, Tally)
    requires caller { caller.of ≡ shared.now.store }
    requires place { place < PLACES }
    ensures { result.0.of ≡ caller.of }
{
    let mut tally = Tally::NOTHING;
    for i in 0..TURNS * TEXTS {
        let number = (i + 2 * place) % TEXTS + 1;
        turn(rt, shared, &mut caller, place, number, &mut tally);
    }
    (caller, tally)
}

// The turns of two threads, the first of which uses this place and the second the next one. The first caller comes back.
fn pair<R: Threads + Wait + Sync>(
    rt: &R,
    shared: &Shared,
    first: Caller,
    second: Caller,
    place: u32,
) -> (Caller, Tally)
    requires first { first.of ≡ shared.now.store }
    requires second { second.of ≡ shared.now.store }
    requires place { place + 1 < PLACES }
    ensures { result.0.of ≡ first.of }
{
    let ((first, one), (_, other)) = thread::join(
        rt,
        move || work(rt, shared, first, place),
        move || work(rt, shared, second, place + 1),
    );
    (first, one.and(&other))
}

// Buries what is left, when all places are clear.
fn bury_rest<R: Wait>(rt: &R, shared: &Shared, mut caller: Caller) -> Tally
    requires { caller.of ≡ shared.now.store }
{
    let mut tally = Tally::NOTHING;
    for i in 0..TEXTS {
        bury(rt, shared, &mut caller, i + 1, &mut tally);
    }
    tally
}

// What four threads saw, and who buried the rest behind them.
fn by_four<R: Threads + Wait + Sync>(
    rt: &R,
    shared: &Shared,
    a: Caller,
    b: Caller,
    c: Caller,
    d: Caller,
) -> Tally
    requires a { a.of ≡ shared.now.store }
    requires b { b.of ≡ shared.now.store }
    requires c { c.of ≡ shared.now.store }
    requires d { d.of ≡ shared.now.store }
{
    let ((a, first), (_, second)) = thread::join(
        rt,
        move ||
            requires { (a.of ≡ shared.now.store) × (b.of ≡ shared.now.store) }
        { pair(rt, shared, a, b, 0) },
        move ||
            requires { (c.of ≡ shared.now.store) × (d.of ≡ shared.now.store) }
        { pair(rt, shared, c, d, 2) },
    );
    let rest = bury_rest(rt, shared, a);
    first.and(&second).and(&rest)
}

// A round: each text is buried once, and each is read right.
fn round<R: Threads + Wait + Sync>(rt: &R, alloc: Global) -> Option<bool> {
    let texts = Texts::layout(Loc(0), PLACES, TEXTS);
    let Ok((store, mut callers)) = Store::open(alloc, &[0; CELLS], 4) else {
        return None;
    };
    let pool = pool_of(alloc)?;
    let d = callers.pop()?;
    let c = callers.pop()?;
    let b = callers.pop()?;
    let a = callers.pop()?;
    let whole = Shared { store, pool, texts };
    Some(by_four(rt, &whole, a, b, c, d).is_right())
}

#[test]
fn each_text_is_buried_once_and_no_reader_sees_other_bytes(rt: HostRuntime) -> Result<(), Fail> {
    for _ in 0..ROUNDS {
        assert_eq!(rt; round(&rt, rt.alloc()), Some(true));
    }
    Ok(())
}
