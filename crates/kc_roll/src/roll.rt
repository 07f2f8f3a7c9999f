//! A roll, and its pages.

ghost use Rattle.std.specs.Prelude.{◌≡◌, ◌⊎◌, ◌-◌, ◌^◌, ◌<◌, ◌++◌, ◌∷◌, [], true, false, length, IfOk};
ghost use Rattle.kc_roll.specs.Fronts.{StandsAtFront};

use crate::rule::{Copies, Fronts, Grows, Longer, Shows, View, Writes};
use atomic_table::{Seat, Table};
use std::alloc::{AllocError, Global};
use std::marker::Model;

/// A list that only grows.
#[derive(Drop)]
pub struct Roll<E> {
    table: Table<(), View<E>, (), Fronts, Global>,
}

impl<E> Model for Roll<E> {
    ghost use Rattle.std.specs.Prelude.{◌≡◌};
    ghost use Rattle.atomic_table.specs.Seated.{TableId};

    ghost Value = { TableId };

    ghost view = { λ r. r.table.shared.table_id };

    ghost invariant = { λ r. r.table.shared.table_id.words ≡ 1 };
}

/// What one has seen of it. It has no bytes.
#[derive(Drop)]
pub struct Page<E> {
    seat: Seat<(), View<E>>,
}

impl<E> Model for Page<E> {
    ghost use Rattle.std.specs.Prelude.{◌≡◌, []};
    ghost use Rattle.kc_roll.specs.Fronts.{PageView};

    ghost Value = { PageView E };

    ghost view = { λ p. record { of = p.seat.table_id; seen = p.seat.me.0.seen } };

    ghost invariant = { λ p. p.seat.me.1 ≡ [] };
}

impl<E> Roll<E> {
    /// One that is empty, and the page of which each other one comes.
    pub fn open(alloc: Global) -> Result<(Roll<E>, Page<E>), AllocError>
        ensures { IfOk result (λ r. (r.1.of ≡ r.0) × (r.1.seen ≡ [])) }
    {
        let (table, seat) = Table::of_words(alloc, &[0], &())?;
        Ok((Roll { table }, Page { seat }))
    }

    /// Another page that has seen as much.
    pub fn again(&self, page: &mut Page<E>) -> Page<E>
        requires { page.old.of ≡ self.now }
        ensures page { page.new ≡ page.old }
        ensures again { result ≡ page.old }
    {
        let seat = self.table.shared.split_seat::<Copies>(&mut page.seat);
        Page { seat }
    }

    /// The page has now seen what either had seen.
    pub fn join(&self, page: &mut Page<E>, other: Page<E>)
        requires { (page.old.of ≡ self.now) × (other.of ≡ self.now) }
        ensures of { page.new.of ≡ page.old.of }
        ensures seen { StandsAtFront page.old.seen page.new.seen × StandsAtFront other.seen page.new.seen }
        ensures either { (page.new.seen ≡ page.old.seen) ⊎ (page.new.seen ≡ other.seen) }
    {
        let Page { seat } = other;
        self.table.shared.join_seat::<Longer>(&mut page.seat, seat);
        self.table.shared.load::<Shows>(&mut page.seat, 0);
    }

    /// Writes one more, if all that stands there was seen. So many were seen.
    pub fn write<N: Writes<E>>(&self, page: &mut Page<E>, seen: u64) -> bool
        requires { (page.old.of ≡ self.now) × (length page.old.seen ≡ seen) × (seen < 2 ^ 64 - 1) }
        ensures of { page.new.of ≡ page.old.of }
        ensures written { result ≡ true → page.new.seen ≡ page.old.seen ++ N.next ∷ [] }
        ensures missed { result ≡ false → page.new.seen ≡ page.old.seen }
    {
        let shared = &self.table.shared;
        shared.compare_exchange::<Grows<E, N>>(&mut page.seat, 0, seen, seen + 1) == seen
    }
}
