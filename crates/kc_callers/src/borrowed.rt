//! A caller with its loan.

ghost use Rattle.std.specs.Prelude.{◌≡◌, ◌<◌, ◌≤◌, IfSome, true};
ghost use Rattle.kc_callers.specs.Loans.{IsLoanOf};
ghost use Rattle.kc_model.specs.Footprint.{IsBelow};
ghost use Rattle.kc_store.specs.Knows.{IsTold, NotesWear, Remembers};
ghost use Rattle.kc_store.specs.Verdicts.{has_entry, verdict_of};
ghost use Rattle.kc_xt.specs.Meaning.{limited};

use crate::callers::Callers;
use crate::home::Idle;
use crate::loan::Loan;
use kc_model::Footprint;
use kc_store::{Answered, Caller, Verdict};
use kc_xt::Transact;
use std::sync::Wait;

/// A caller that was lent. It isn't dropped: it is given back.
pub struct Borrowed<'a> {
    pub(crate) callers: &'a Callers,
    pub(crate) caller: Caller,
    pub(crate) loan: Loan<Idle>,
    ghost of: { caller.of ≡ callers.now.store },
    ghost number: { caller.number ≡ loan.place },
    ghost lent: { IsLoanOf callers.now.desk.places.items loan },
}

impl<'a> Borrowed<'a> {
    /// A caller of these, as `Callers::lend` finds one.
    pub fn of(callers: &'a Callers, from: usize) -> Option<Borrowed<'a>>
        ensures { IfSome result (λ b. b.callers.now ≡ callers.now) }
    {
        let (caller, loan) = callers.lend(from)?;
        Some(Borrowed {
            callers,
            caller,
            loan,
        })
    }

    /// A caller of these, as `Callers::lend_waiting` finds one.
    pub fn waiting<R: Wait>(rt: &R, callers: &'a Callers, from: usize) -> Borrowed<'a>
        requires { 0 < callers.now.store.callers }
        ensures { result.callers.now ≡ callers.now }
    {
        let (caller, loan) = callers.lend_waiting(rt, from);
        Borrowed {
            callers,
            caller,
            loan,
        }
    }

    /// Commits a transaction, as `Store::commit_into` does.
    pub fn commit_into<R: Wait, T: Transact>(
        &mut self,
        rt: &R,
        transaction: &T,
        footprint: &mut Footprint,
    ) -> Answered
        requires fit { T.is_fit transaction.now }
        requires within { T.end transaction.now ≤ self.old.caller.of.locations }
        ensures told { IsTold (limited (T.most transaction.now) (T.meaning transaction.now)) (verdict_of result) self.old.caller footprint.new self.new.caller }
        ensures remembers { Remembers self.old.caller self.new.caller }
        ensures within { has_entry (verdict_of result) ≡ true → IsBelow (T.end transaction.now) footprint.new }
        ensures notes { NotesWear self.old.caller (verdict_of result) self.new.caller }
        ensures callers { self.new.callers.now ≡ self.old.callers.now }
    {
        self.callers
            .store()
            .commit_into(rt, &mut self.caller, transaction, footprint)
    }

    /// Tries a transaction once, as `Store::try_commit_into` does.
    pub fn try_commit_into<T: Transact>(
        &mut self,
        transaction: &T,
        footprint: &mut Footprint,
    ) -> Verdict
        requires fit { T.is_fit transaction.now }
        requires within { T.end transaction.now ≤ self.old.caller.of.locations }
        ensures told { IsTold (limited (T.most transaction.now) (T.meaning transaction.now)) result self.old.caller footprint.new self.new.caller }
        ensures remembers { Remembers self.old.caller self.new.caller }
        ensures within { has_entry result ≡ true → IsBelow (T.end transaction.now) footprint.new }
        ensures notes { NotesWear self.old.caller result self.new.caller }
        ensures callers { self.new.callers.now ≡ self.old.callers.now }
    {
        self.callers
            .store()
            .try_commit_into(&mut self.caller, transaction, footprint)
    }

    /// The number of the caller.
    pub fn number(&self) -> usize
        ensures { result ≡ self.now.caller.number }
    {
        self.loan.place()
    }

    /// The caller, for other calls of the store, and the right to give it back to these callers.
    pub fn into_lent(self) -> (Caller, Loan<Idle>)
        ensures caller { result.0 ≡ self.entry.caller }
        ensures number { result.0.number ≡ result.1.place }
        ensures loan { IsLoanOf self.entry.callers.now.desk.places.items result.1 }
    {
        let Borrowed {
            callers: _,
            caller,
            loan,
        } = self;
        (caller, loan)
    }

    /// Gives it back.
    pub fn give_back(self) {
        let Borrowed {
            callers,
            caller,
            loan,
        } = self;
        callers.give(loan, caller);
    }
}
