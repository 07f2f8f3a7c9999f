//! What is left of the lock-free store.

ghost use Rattle.std.specs.Prelude.{◌≡◌};
ghost use Rattle.kc_run.specs.Kcas.{kcas_past};

use kc_store::Past;
use std::marker::Model;

/// What is left of a lock-free store whose callers all came back. Contracts see the values with which it opened and its one history.
#[derive(Drop)]
pub struct KcasPast {
    past: Past,
}

impl Model for KcasPast {
    ghost use Rattle.kc_run.specs.Kcas.{KcasPastView, kcas_past};

    ghost Value = { KcasPastView };

    ghost view = { λ p. kcas_past p.past };
}

impl KcasPast {
    /// What a user of the run has to know of a store's past.
    pub fn of(past: Past) -> KcasPast
        ensures { result ≡ kcas_past past }
    {
        KcasPast { past }
    }
}
