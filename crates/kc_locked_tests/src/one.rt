//! One commit of a pass.

ghost use Rattle.std.specs.Prelude.{◌≡◌, ◌+◌, ◌<◌, ◌≤◌, length};
ghost use Rattle.kc_loc.specs.Meaning.{loc_last, loc_end};

use kc_loc::LocOp;
use kc_locked::{LockPass, LockedStore};
use kc_model::Reply;
use kc_xt::Ended;
use std::sync::Wait;

/// One commit, with its reply; None where it is too large.
pub fn one<R: Wait>(
    rt: &R,
    store: &LockedStore,
    pass: &mut LockPass,
    operation: LocOp,
) -> Option<Reply>
    requires pass { (pass.old.table ≡ store.now.table) × (0 < pass.old.left) }
    requires fit { (loc_last operation < 65536) × (loc_end operation ≤ length store.now.opening) }
    ensures table { pass.new.table ≡ pass.old.table }
    ensures left { pass.new.left + 1 ≡ pass.old.left }
{
    match store.commit_waiting(rt, pass, &operation) {
        Ended::Done {
            reply,
            footprint: _,
        } => Some(reply),
        Ended::TooLarge { footprint: _ } => None,
    }
}
