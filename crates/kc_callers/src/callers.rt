//! The callers of a store, each in its place or lent.

ghost use Rattle.std.specs.Prelude.{◌≡◌, ◌<◌, IfOk, IfSome, length};
ghost use Rattle.kc_callers.specs.Homes.{AreHomesOf};
ghost use Rattle.kc_callers.specs.Loans.{IsLoanOf};
ghost use Rattle.kc_store.specs.Views.{opened_callers};

use crate::desk::Desk;
use crate::home::{Home, Idle};
use crate::loan::Loan;
use kc_store::{Caller, Store};
use std::alloc::{AllocError, Global};
use std::sync::Wait;

/// A store with its callers, which threads and tasks borrow and give back: the one of number k stands in place k, or is lent.
#[derive(Drop)]
pub struct Callers {
    pub(crate) store: Store,
    pub(crate) desk: Desk<Idle>,
    ghost homes: { AreHomesOf store desk.places.items },
    ghost all: { length desk.places.items ≡ store.callers },
}

impl Callers {
    /// All callers of a store, as it was opened with them.
    pub fn open(alloc: Global, store: Store, callers: Vec<Caller>) -> Result<Callers, AllocError>
        requires { callers.items ≡ opened_callers store 0 store.callers }
        ensures { IfOk result (λ c. c.store ≡ store) }
    {
        let mut desk = Desk::new(alloc);
        let mut home = Home { store, number: 0 };
        for caller in callers {
            home.number = desk.len();
            desk.add(alloc, Idle { caller }, &home)?;
        }
        let Home { store, number: _ } = home;
        Ok(Callers { store, desk })
    }

    /// Whose they are.
    pub fn store(&self) -> &Store
        ensures { result.now ≡ self.now.store }
    {
        &self.store
    }

    /// Lends a caller that nobody has: the first one that is there, from a place on that the thread picks. None: each was out as it
    /// was looked for.
    pub fn lend(&self, from: usize) -> Option<(Caller, Loan<Idle>)>
        ensures of { IfSome result (λ lent. lent.0.of ≡ self.now.store) }
        ensures number { IfSome result (λ lent. lent.0.number ≡ lent.1.place) }
        ensures loan { IfSome result (λ lent. IsLoanOf self.now.desk.places.items lent.1) }
    {
        let (idle, loan) = self.desk.lend(from)?;
        let Idle { caller } = idle;
        Some((caller, loan))
    }

    /// Lends a caller that nobody has, and sleeps until the one is back at whose place it began where all are out.
    pub fn lend_waiting<R: Wait>(&self, rt: &R, from: usize) -> (Caller, Loan<Idle>)
        requires { 0 < self.now.store.callers }
        ensures of { result.0.of ≡ self.now.store }
        ensures number { result.0.number ≡ result.1.place }
        ensures loan { IsLoanOf self.now.desk.places.items result.1 }
    {
        let (idle, loan) = self.desk.lend_waiting(rt, from);
        let Idle { caller } = idle;
        (caller, loan)
    }

    /// Gives a caller back to the place that lent it.
    pub fn give(&self, loan: Loan<Idle>, caller: Caller)
        requires loan { IsLoanOf self.now.desk.places.items loan }
        requires of { caller.of ≡ self.now.store }
        requires number { caller.number ≡ loan.place }
    {
        self.desk.give(loan, Idle { caller });
    }
}
