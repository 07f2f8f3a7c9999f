//! What the pages of a roll know, and the rule.

use atomic_table::{Join, Play, Split, TableRule};
use std::collections::LinkedList;
use std::marker::{Brand, PhantomData};

/// What was seen of the list, and the two that it was joined of last. No value of it is made.
pub struct View<E> {
    pub seen: LinkedList<E>,
    pub left: LinkedList<E>,
    pub right: LinkedList<E>,
}

/// The word is how long the list is, and what was seen stands at its front.
pub struct Fronts;

impl<E> TableRule<(), View<E>, ()> for Fronts {
    ghost use Rattle.kc_roll.specs.Fronts.{FrontsKept, nothing_seen};

    ghost holds = { λ key. FrontsKept };

    ghost first = { λ key. nothing_seen };
}

/// What is written next.
pub trait Writes<E> {
    ghost next: { E };
}

/// One more is written, where all was seen.
pub struct Grows<E, N: Writes<E>>(PhantomData<(E, N)>);

impl<E, N: Writes<E>> Play<(), View<E>> for Grows<E, N> {
    ghost use Rattle.kc_roll.specs.Fronts.{HasGrown};

    ghost then = { λ step me found after. HasGrown step.first N.next me found after };
}

/// What one is joined of begins what it has seen.
pub struct Shows;

impl<E> Play<(), View<E>> for Shows {
    ghost use Rattle.kc_roll.specs.Fronts.{HasShown};

    ghost then = { λ step me found after. HasShown me after };
}

/// Both have seen as much.
pub struct Copies;

impl<E> Split<View<E>> for Copies {
    ghost left = { λ v. v };

    ghost right = { λ v. v };
}

/// The longer of the two.
pub struct Longer;

impl<E> Join<View<E>> for Longer {
    ghost use Rattle.kc_roll.specs.Fronts.{nothing_seen, both_seen};

    ghost both = { both_seen };

    ghost spent = { nothing_seen };
}
