//! Hanging on what was read, step by step.

ghost use Rattle.std.specs.Prelude.{◌≡◌, ◌<◌, ◌↔◌, All, IsTrue};
ghost use Rattle.kc_c.specs.Standings.{hanging_on};
ghost use Rattle.kc_c.specs.Waits.{HangingHears, HangingLeaves, ClientMayHang, StepsOn, number_of_state};

use crate::answers::{FREE, GOING, HUNG, LEAVING, NOT_NOW, QUIET, SIGNALLED};
use crate::client::Client;
use crate::standing::Standing;
use kc_model::Seen;
use kc_store::{HangState, hang_step, signalled};
use std::mem::replace;

impl Client {
    /// Begins a hang on what the last try read: its steps are still to be made.
    pub(crate) fn hang(&mut self) -> u32
        ensures refused { ¬ ClientMayHang self.old → (result ≡ NOT_NOW) × (self.new ≡ self.old) }
        ensures hangs { ClientMayHang self.old → (result ≡ GOING) × (self.new.standing ≡ hanging_on self.old.footprint self.old.standing) }
        ensures footprint { self.new.footprint ≡ self.old.footprint }
    {
        let Client {
            standing,
            footprint,
            locations,
            ..
        } = self;
        if !standing.rests() {
            return NOT_NOW;
        }
        let reads = footprint.reads.as_slice();
        if reads.len() == 0 {
            return NOT_NOW;
        }
        if !are_below(reads, *locations) {
            return NOT_NOW;
        }
        *standing = replace(standing, Standing::Away).hanging_on(footprint);
        GOING
    }

    /// One step of the hang, or of its leave.
    pub(crate) fn hang_step(&mut self) -> u32
        ensures steps { StepsOn self.old.standing result self.new.standing }
        ensures footprint { self.new.footprint ≡ self.old.footprint }
        ensures refused { result ≡ NOT_NOW → self.new ≡ self.old }
    {
        let Client {
            store,
            standing,
            ..
        } = self;
        let Standing::Hangs(hanging) = standing else {
            return NOT_NOW;
        };
        if hanging.state() == HangState::Hung {
            return HUNG;
        }
        let state = hang_step(store, hanging);
        if state == HangState::Free {
            *standing = replace(standing, Standing::Away).settled();
        }
        number_of_state(state)
    }

    /// Whether the caller's signal stands, by one load.
    pub(crate) fn signalled(&mut self) -> u32
        ensures hears { HangingHears self.old.standing result self.new.standing }
        ensures footprint { self.new.footprint ≡ self.old.footprint }
        ensures refused { result ≡ NOT_NOW → self.new ≡ self.old }
    {
        let Client {
            store,
            standing,
            ..
        } = self;
        let Standing::Hangs(hanging) = standing else {
            return NOT_NOW;
        };
        if signalled(store, hanging) {
            SIGNALLED
        } else {
            QUIET
        }
    }

    /// Hangs no longer, from the next steps on.
    pub(crate) fn leave(&mut self) -> u32
        ensures leaves { HangingLeaves self.old.standing result self.new.standing }
        ensures footprint { self.new.footprint ≡ self.old.footprint }
        ensures refused { result ≡ NOT_NOW → self.new ≡ self.old }
    {
        let Standing::Hangs(hanging) = &mut self.standing else {
            return NOT_NOW;
        };
        if hanging.state() != HangState::Hung {
            return NOT_NOW;
        }
        hanging.leave();
        LEAVING
    }
}

fn are_below(reads: &[Seen], locations: u32) -> bool
    ensures { IsTrue result ↔ All (λ r. r.loc.0 < locations) reads.now }
{
    reads.iter().all(|read| read.loc.0 < locations)
}

fn number_of_state(state: HangState) -> u32
    ensures { result ≡ number_of_state state }
{
    match state {
        HangState::Going => GOING,
        HangState::Hung => HUNG,
        HangState::Leaving => LEAVING,
        HangState::Free => FREE,
    }
}
