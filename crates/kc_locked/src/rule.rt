//! What passes know, and the rule.
ghost use Rattle.kc_locked.specs.Locked.{LockKept, first_view};

use crate::held::Held;
use atomic_table::{Join, Play, Seat, Shared, Split, TableRule};
use kc_model::Entry;
use std::collections::LinkedList;
use std::marker::{Brand, Model, PhantomData};

/// A pass: its caller's number, how many commits it may still make, and those that it made. No value of it is made.
pub struct Part {
    pub caller: u32,
    pub left: u32,
    pub own: LinkedList<Entry>,
}

/// The passes that are one's own, whether one has the lock, and what one then found in the slot. No value of it is made.
pub struct View {
    pub parts: LinkedList<Part>,
    pub holds: bool,
    pub found: Held,
}

/// What a store was opened with. It is the table's key.
#[derive(Drop)]
pub struct Origin {
    pub values: Vec<u32>,
    pub shares: Vec<u32>,
}

impl Model for Origin {
    ghost use Rattle.kc_locked.specs.Origin.{LockOrigin};

    ghost Value = { LockOrigin };

    ghost view = { λ o. record { values = o.values.items; shares = o.shares.items } };
}

pub struct Rule;

pub type Token = Seat<Held, View>;

pub(crate) type Memory = Shared<Held, View, Origin, Rule>;

impl TableRule<Held, View, Origin> for Rule {
    ghost holds = { LockKept };

    ghost first = { first_view };
}

/// What the store was opened with, for steps that speak of it.
pub trait Knows {
    ghost use Rattle.kc_locked.specs.Origin.{LockOrigin};

    ghost origin: { LockOrigin };
}

impl Knows for Brand {
    ghost use Rattle.kc_locked.specs.Origin.{no_origin};

    ghost origin = { no_origin };
}

/// Takes the lock.
pub struct Takes<K: Knows>(PhantomData<K>);

impl<K: Knows> Play<Held, View> for Takes<K> {
    ghost use Rattle.kc_locked.specs.Locked.{TookLock};

    ghost then = { λ step me found after. TookLock K.origin me found after };
}

/// The commits that are made: one, or none.
pub trait Commits {
    ghost use Rattle.std.specs.Prelude.{List};
    ghost use Rattle.kc_model.specs.declared.footprint.Entry.{Entry};

    ghost made: { List Entry };
}

impl Commits for Brand {
    ghost use Rattle.std.specs.Prelude.{[]};

    ghost made = { [] };
}

/// Lets it go, with these commits.
pub struct Gives<C: Commits>(PhantomData<C>);

impl<C: Commits> Play<Held, View> for Gives<C> {
    ghost use Rattle.kc_locked.specs.Locked.{GaveLock};

    ghost then = { λ step me found after. GaveLock C.made me found after };
}

/// While one has the lock, a word that says nothing of the slot changes.
pub struct Notes;

impl Play<Held, View> for Notes {
    ghost use Rattle.std.specs.Prelude.{◌≡◌};

    ghost then = { λ step me found after. after ≡ me };
}

/// The first pass goes out.
pub struct Deals;

impl Split<View> for Deals {
    ghost use Rattle.kc_locked.specs.Locked.{pass_dealt, passes_left};

    ghost left = { passes_left };

    ghost right = { pass_dealt };
}

/// A pass comes back.
pub struct Gathers;

impl Join<View> for Gathers {
    ghost use Rattle.kc_locked.specs.Locked.{passes_gathered, no_passes};

    ghost both = { passes_gathered };

    ghost spent = { no_passes };
}

/// A new seat that has no pass.
pub struct Empty;

impl Play<Held, View> for Empty {
    ghost use Rattle.std.specs.Prelude.{◌≡◌};
    ghost use Rattle.kc_locked.specs.Locked.{no_passes};

    ghost then = { λ step me found after. after.0 ≡ no_passes };
}

/// A load that shows the one history.
pub struct Ends<K: Knows>(PhantomData<K>);

impl<K: Knows> Play<Held, View> for Ends<K> {
    ghost use Rattle.kc_locked.specs.Locked.{LockEnded};

    ghost then = { λ step me found after. LockEnded K.origin me after };
}
