use kc_model::{Answer, Footprint, Reply};

/// What a record is of.
#[derive(Clone, Copy, Debug, PartialEq, Eq)]
pub enum Mark {
    /// The thread's command of this number, from 1.
    Command(u32),
    /// The end of the thread.
    End,
}

/// What one commit of a run did. Contracts speak of it; `Records` keeps heads and footprints apart.
#[derive(Debug, Drop)]
pub struct Record {
    /// The thread's number, from 1.
    pub thread: u32,
    pub mark: Mark,
    pub answer: Answer,
    pub footprint: Footprint,
}

/// What a record says but for its footprint.
#[derive(Clone, Copy, Debug)]
pub struct Head {
    /// The thread's number, from 1.
    pub thread: u32,
    pub mark: Mark,
    pub answer: Answer,
}

/// Where a record stands in lists by thread: the list's index and the index in it, both from 0.
#[derive(Clone, Copy, Debug, PartialEq, Eq)]
pub struct Place {
    pub thread: u32,
    pub index: u32,
}

// The head of a record of which the footprint alone is kept, and of one that is still to be filled.
pub(crate) const BLANK: Head = Head {
    thread: 0,
    mark: Mark::End,
    answer: Answer::Reply(Reply::Unit),
};
