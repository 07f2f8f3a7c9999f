//! How the caller of a handle stands.

ghost use Rattle.std.specs.Prelude.{◌≡◌, ◌≢◌, [], false, true};
ghost use Rattle.kc_c.specs.Standings.{HangsOnStore, hanging_on, rests, settled};
ghost use Rattle.kc_model.specs.Footprint.{IsBelow};

use kc_model::Footprint;
use kc_store::{Caller, HangState, Hanging};

/// A caller, between the calls of C.
#[derive(Drop)]
pub enum Standing {
    /// It may begin a transaction.
    Rests(Caller),
    /// It hangs on what it read, or is about to, or is leaving.
    Hangs(Hanging),
    /// It is with the call that runs.
    Away,
}

impl Standing {
    /// Whether it may begin a transaction.
    pub(crate) fn rests(&self) -> bool
        ensures { result ≡ rests self.now }
    {
        match self {
            Standing::Rests(_) => true,
            Standing::Hangs(_) | Standing::Away => false,
        }
    }

    /// One that rests, about to hang on what the footprint read.
    pub(crate) fn hanging_on(self, footprint: &Footprint) -> Standing
        requires reads { footprint.now.reads.items ≢ [] }
        requires below { HangsOnStore footprint.now self }
        ensures { result ≡ hanging_on footprint.now self }
    {
        match self {
            Standing::Rests(caller) => Standing::Hangs(Hanging::begin(caller, footprint)),
            Standing::Hangs(hanging) => Standing::Hangs(hanging),
            Standing::Away => Standing::Away,
        }
    }

    /// One that hangs no longer rests again.
    pub(crate) fn settled(self) -> Standing
        ensures { result ≡ settled self }
    {
        match self {
            Standing::Hangs(hanging) => match hanging.state() {
                HangState::Free => Standing::Rests(hanging.into_caller()),
                HangState::Going | HangState::Hung | HangState::Leaving => {
                    Standing::Hangs(hanging)
                }
            },
            Standing::Rests(caller) => Standing::Rests(caller),
            Standing::Away => Standing::Away,
        }
    }
}
