//! A history that contracts see, and of which nothing is kept at run time but one word.

ghost use Rattle.std.specs.Prelude.{◌≡◌, ◌++◌, ◌∷◌, [], IfOk};
ghost use Rattle.kc_locked.specs.declared.history.Told.{Told as Record};
ghost use Rattle.kc_history.specs.Callers.{record_entry};
ghost use Rattle.kc_locked.specs.History.{told};

use atomic_table::{Play, Seat, Shared, Table, TableRule};
use kc_model::{Entry, Footprint};
use std::alloc::{AllocError, Global};
use std::collections::LinkedList;
use std::marker::{Brand, Model, PhantomData};

/// The opening values, and the entries since. No value of it is made.
pub struct Told {
    pub opening: LinkedList<u32>,
    pub entries: LinkedList<Entry>,
}

// The word is of no use but that steps on it change what is told.
struct Free;

impl TableRule<(), Told, ()> for Free {
    ghost use Rattle.kc_locked.specs.History.{nothing_told};

    ghost holds = { λ key state. Unit {0} };

    ghost first = { λ key. nothing_told };
}

/// What is told next.
pub trait Tells {
    ghost use Rattle.kc_locked.specs.declared.history.Told.{Told};

    ghost next: { Told };
}

impl Tells for Brand {
    ghost use Rattle.kc_locked.specs.History.{nothing_told};

    ghost next = { nothing_told };
}

struct Becomes<N: Tells>(PhantomData<N>);

impl<N: Tells> Play<(), Told> for Becomes<N> {
    ghost use Rattle.std.specs.Prelude.{◌≡◌};

    ghost then = { λ step me found after. after ≡ (N.next, me.1) };
}

type Word = Shared<(), Told, (), Free>;

/// A history.
#[derive(Drop)]
pub struct History {
    table: Table<(), Told, (), Free, Global>,
    seat: Seat<(), Told>,
}

impl Model for History {
    ghost use Rattle.std.specs.Prelude.{◌≡◌};
    ghost use Rattle.kc_locked.specs.declared.history.Told.{Told};

    ghost Value = { Told };

    ghost view = { λ h. h.seat.me.0 };

    ghost invariant = { λ h. (h.seat.table_id ≡ h.table.shared.table_id) × (h.table.shared.table_id.words ≡ 1) };
}

impl History {
    /// The history of a store that was opened on these values.
    pub fn open(alloc: Global, values: &[u32]) -> Result<History, AllocError>
        ensures { IfOk result (λ h. h ≡ told values.now []) }
    {
        let (table, mut seat) = Table::of_words(alloc, &[0], &())?;
        open_on::<Brand>(&table.shared, &mut seat, values);
        Ok(History { table, seat })
    }

    /// Adds an entry at the end.
    pub fn add(&mut self, caller: u32, number: u64, footprint: &Footprint)
        ensures { self.new ≡ told self.old.opening (self.old.entries ++ record_entry caller number footprint.now ∷ []) }
    {
        let table = &self.table;
        add_on::<Brand>(&table.shared, &mut self.seat, caller, number, footprint);
    }
}

fn open_on<N: Tells>(word: &Word, seat: &mut Seat<(), Told>, values: &[u32])
    requires table { (seat.old.table_id ≡ word.now.table_id) × (word.now.table_id.words ≡ 1) }
    requires next { N.next ≡ told values.now [] }
    ensures table { seat.new.table_id ≡ seat.old.table_id }
    ensures told { seat.new.me.0 ≡ told values.now [] }
{
    word.load::<Becomes<N>>(seat, 0);
}

fn add_on<N: Tells>(
    word: &Word,
    seat: &mut Seat<(), Told>,
    caller: u32,
    number: u64,
    footprint: &Footprint,
)
    requires table { (seat.old.table_id ≡ word.now.table_id) × (word.now.table_id.words ≡ 1) }
    requires next { N.next ≡ told seat.old.me.0.opening (seat.old.me.0.entries ++ record_entry caller number footprint.now ∷ []) }
    ensures table { seat.new.table_id ≡ seat.old.table_id }
    ensures told { seat.new.me.0 ≡ told seat.old.me.0.opening (seat.old.me.0.entries ++ record_entry caller number footprint.now ∷ []) }
{
    word.load::<Becomes<N>>(seat, 0);
}
