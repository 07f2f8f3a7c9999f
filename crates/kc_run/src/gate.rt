//! What is called round the commands of a run.

/// Is told of each command of a thread, by the thread's number and the command's, both from 1.
pub trait Gate: Sync {
    /// Before its first try.
    fn before(&self, thread: u32, number: u32);

    /// Once it is answered.
    fn after(&self, thread: u32, number: u32);
}

/// Holds nothing up.
#[derive(Clone, Copy, Debug, Default, PartialEq, Eq)]
pub struct OpenGate;

impl Gate for OpenGate {
    fn before(&self, _thread: u32, _number: u32) {}

    fn after(&self, _thread: u32, _number: u32) {}
}
