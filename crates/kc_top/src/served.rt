//! Which commits a run was served.

use kc_locked::LockPast;
use kc_run::KcasPast;

/// What the store of a run's threads came to, or that of two callers on threads which read picked texts.
#[derive(Drop)]
pub enum Served {
    /// No thread ran, as where there is no pick.
    Nothing,
    /// The past of the store behind one lock.
    Lock(LockPast),
    /// The past of the lock-free store.
    Kcas(KcasPast),
}
