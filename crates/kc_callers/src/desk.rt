//! What stands in places, and is lent.

ghost use Rattle.std.specs.Prelude.{◌≡◌, ◌<◌, ◌++◌, ◌∷◌, [], IfErr, IfOk, IfSome, length, map};
ghost use Rattle.std.specs.List.{AllZip};
ghost use Rattle.kc_callers.specs.Lending.{AddsPlace, FitsPlace};
ghost use Rattle.kc_callers.specs.Loans.{IsLoanOf};

use crate::loan::Loan;
use counted_slot::Fits;
use kc_holder::Holder;
use std::alloc::{AllocError, Global};
use std::sync::Wait;

/// Places, in each of which a value stands or is lent. Each value fits the tag of its place.
#[derive(Drop)]
pub struct Desk<X: Fits> {
    places: Vec<Holder<X>>,
}

impl<X: Fits + Drop> Desk<X> {
    /// One with no place.
    pub fn new(alloc: Global) -> Desk<X>
        ensures { result.places.items ≡ [] }
    {
        Desk {
            places: Vec::new(alloc),
        }
    }

    /// How many places there are.
    pub fn len(&self) -> usize
        ensures { result ≡ length self.now.places.items }
    {
        self.places.len()
    }

    /// A place more, with this tag, in which this value stands.
    pub fn add(&mut self, alloc: Global, value: X, tag: &X::Tag) -> Result<(), AllocError>
        requires fits { X.fits tag.now value }
        ensures added { AddsPlace result tag.now self.old.places.items self.new.places.items }
    {
        let place = Holder::new(alloc, value, tag)?;
        self.places.push(place)?;
        Ok(())
    }

    /// Lends a value: the first one that is there, from a place on that the thread picks. None: each was out as it was looked for.
    pub fn lend(&self, from: usize) -> Option<(X, Loan<X>)>
        ensures fits { IfSome result (λ lent. FitsPlace X.fits self.now.places.items lent.1.place lent.0) }
        ensures loan { IfSome result (λ lent. IsLoanOf self.now.places.items lent.1) }
    {
        let many = self.places.len();
        for step in 0..many {
            let place = from.wrapping_add(step) % many;
            if let Some((value, taken)) = self.places[place].try_take() {
                return Some((value, Loan { place, taken }));
            }
        }
        None
    }

    /// Lends a value likewise, and where each is out sleeps until that of the first place is back.
    pub fn lend_waiting<R: Wait>(&self, rt: &R, from: usize) -> (X, Loan<X>)
        requires places { 0 < length self.now.places.items }
        ensures fits { FitsPlace X.fits self.now.places.items result.1.place result.0 }
        ensures loan { IsLoanOf self.now.places.items result.1 }
    {
        if let Some(lent) = self.lend(from) {
            return lent;
        }
        let place = from % self.places.len();
        let (value, taken) = self.places[place].take(rt);
        (value, Loan { place, taken })
    }

    /// Gives a value back to the place that lent it.
    pub fn give(&self, loan: Loan<X>, value: X)
        requires loan { IsLoanOf self.now.places.items loan }
        requires fits { FitsPlace X.fits self.now.places.items loan.place value }
    {
        let Loan { place, taken } = loan;
        self.places[place].give(taken, value);
    }

    /// What stands at each place at the end, in their order. None stands for what was lent and didn't come back. Where there is no
    /// memory for the list, the desk comes back as it was.
    pub fn close(self, alloc: Global) -> Result<Vec<Option<X>>, Desk<X>>
        ensures ok { IfOk result (λ values. AllZip (λ h x. IfSome x (X.fits h.tag)) self.places.items values.items) }
        ensures err { IfErr result (λ desk. desk ≡ self) }
    {
        let Ok(mut values) = Vec::with_capacity(alloc, self.places.len()) else {
            return Err(self);
        };
        let Desk { places } = self;
        for place in places {
            values.push_reserved(place.into_inner());
        }
        Ok(values)
    }
}
