//! An operation, as C says it.

use crate::object::KcasObject;

/// An operation on a structure. What it doesn't use of the structure and of `a` and `b` is not looked at.
#[repr(C)]
#[derive(Clone, Copy)]
pub struct KcasOp {
    /// What is done: 1 to 40, see `verbs`.
    pub verb: u32,
    /// 0; 1 where it begins the next alternative; 2 to 4 where `a`, `b` or both name an operation before it, whose reply is the number.
    pub mark: u32,
    pub on: KcasObject,
    pub a: u32,
    pub b: u32,
}
