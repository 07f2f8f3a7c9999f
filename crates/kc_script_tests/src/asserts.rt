//! Assertions as functions. A test that calls one is proved much faster than one that has the macro's branches in itself.

use std::fmt::Debug;
use std::process::Abort;

// Asserts that what came is what was wanted.
pub(crate) fn equal<T: Copy + Debug + PartialEq>(rt: &impl Abort, came: T, wanted: T) {
    assert_eq!(rt; came, wanted);
}

pub(crate) fn holds(rt: &impl Abort, came: bool) {
    assert!(rt; came);
}

// The same in one row of a table.
pub(crate) fn equal_at<R: Copy + Debug, T: Copy + Debug + PartialEq>(
    rt: &impl Abort,
    row: R,
    came: T,
    wanted: T,
) {
    assert_eq!(rt; came, wanted, "at {row:?}");
}

pub(crate) fn holds_at<R: Copy + Debug>(rt: &impl Abort, row: R, came: bool) {
    assert!(rt; came, "at {row:?}");
}
