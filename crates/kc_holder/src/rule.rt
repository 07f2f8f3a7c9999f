//! The rule of the table on which a holder stands.

use atomic_table::{Play, TableRule};
use counted_slot::Fits;
use std::marker::PhantomData;

/// While the word is 0, a value that fits lies in the slot. All that a seat knows is the tag.
pub struct Lends<X>(PhantomData<X>);

impl<X: Fits> TableRule<Option<X>, X::Tag, X::Tag> for Lends<X> {
    ghost use Rattle.kc_holder.specs.Lent.{LendsKept};

    ghost holds = { LendsKept X.fits };

    ghost first = { λ tag. tag };
}

/// A new seat.
pub struct Enters;

impl<S, T> Play<S, T> for Enters {
    ghost use Rattle.std.specs.Prelude.{◌≡◌};

    ghost then = { λ step me found after. after ≡ me };
}

/// Takes the value, where it is there.
pub struct Takes<X>(PhantomData<X>);

impl<X: Fits> Play<Option<X>, X::Tag> for Takes<X> {
    ghost use Rattle.kc_holder.specs.Lent.{TakesOut};

    ghost then = { λ step me found after. TakesOut X.fits me found after };
}

/// Gives back what the seat has.
pub struct Gives;

impl<S, T> Play<S, T> for Gives {
    ghost use Rattle.std.specs.Prelude.{◌≡◌, []};

    ghost then = { λ step me found after. after ≡ (me.0, []) };
}
