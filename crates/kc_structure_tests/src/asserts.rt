//! What the tests have in common. Each kind of assertion is a function, since one in line costs seconds to prove, and a call a fraction.

ghost use Rattle.std.specs.Prelude.{◌≡◌, ◌≤◌, IfOk, length};

use kc_model::{PlainStore, Reply};
use kc_xt::{PlainPeek, Stop, Transact, Xt};
use std::alloc::Global;
use std::process::Abort;
use std::test::Fail;

/// A store with these values.
pub(crate) fn open(alloc: Global, values: &[u32]) -> Result<PlainStore, Fail>
    ensures { IfOk result (λ store. length store ≡ length values.now) }
{
    match PlainStore::open(alloc, values) {
        Ok(store) => Ok(store),
        Err(_) => Err(Fail::from("no memory")),
    }
}

/// Asserts what an operation tells.
pub(crate) fn tells<'a, T: Transact>(
    rt: &impl Abort,
    xt: &mut Xt<PlainPeek<'a>>,
    operation: &T,
    want: Result<Reply, Stop>,
)
    requires fit { T.is_fit operation.now }
    requires within { T.end operation.now ≤ length xt.old.peek }
    ensures size { length xt.new.peek ≡ length xt.old.peek }
{
    let got = operation.run(xt);
    assert_eq!(rt; got, want);
}

/// Asserts what a log reads.
pub(crate) fn reads(rt: &impl Abort, got: Result<u32, Stop>, want: Result<u32, Stop>) {
    assert_eq!(rt; got, want);
}

/// Asserts a number.
pub(crate) fn is(rt: &impl Abort, got: u32, want: u32) {
    assert_eq!(rt; got, want);
}

/// Asserts a value that may be missing.
pub(crate) fn holds(rt: &impl Abort, got: Option<u32>, want: Option<u32>) {
    assert_eq!(rt; got, want);
}

/// Asserts the next pair.
pub(crate) fn comes(rt: &impl Abort, got: Option<(u32, u32)>, want: Option<(u32, u32)>) {
    assert_eq!(rt; got, want);
}
