ghost use Rattle.std.specs.Prelude.{◌≡◌, ◌≤◌, length};
ghost use Rattle.kc_script_lines.specs.Fault.{limit_words, why_words};
ghost use Rattle.kc_script_lines.specs.declared.fault.ScriptError.TheVariants.{NoMemory};

use std::alloc::AllocError;

/// The most bytes that the words for a fault have. Whoever shows them keeps room for so many.
pub const LONGEST_WORDS: usize = 28;

/// What there is too much of.
#[derive(Clone, Copy, Debug, PartialEq, Eq)]
pub enum Limit {
    /// More than 65,535 cells.
    Locations,
    /// More than 16 threads.
    Threads,
    /// More than 4,096 commands in a thread.
    Commands,
    /// More than 16 commands in a block.
    Block,
    /// Alternatives nested more than 8 deep.
    Depth,
    /// More than 4,096 texts.
    Texts,
    /// More than 64 bytes in a text.
    TextBytes,
    /// More than 65,536 picks.
    Picks,
}

impl Limit {
    /// The words for it.
    pub fn words(&self) -> &'static str
        ensures words { result.now ≡ limit_words self.now }
        ensures short { length result.now ≤ LONGEST_WORDS }
    {
        match self {
            Limit::Locations => "too many locations",
            Limit::Threads => "too many threads",
            Limit::Commands => "too many commands",
            Limit::Block => "too many commands in a block",
            Limit::Depth => "too deep",
            Limit::Texts => "too many texts",
            Limit::TextBytes => "text too long",
            Limit::Picks => "too many picks",
        }
    }
}

/// What is wrong with a line.
#[derive(Clone, Copy, Debug, PartialEq, Eq)]
pub enum Why {
    /// The first line that counts is not `kcas 1`.
    Header,
    /// No line begins with this word, or it names no function and no relation.
    UnknownWord,
    /// No object has this name.
    UnknownName,
    /// An object has this name already.
    RepeatedName,
    /// A name has 1 to 32 letters, digits and `_`, the first a letter.
    BadName,
    /// A number has one to ten digits, and lies in the range of its field.
    BadNumber,
    /// The object has no such command.
    WrongKind,
    MissingWord,
    ExtraWord,
    /// A block is open where a thread begins, or at the end.
    UnclosedBlock,
    /// The word can't stand here.
    StrayWord,
    TooMany(Limit),
}

impl Why {
    /// The words for it.
    pub fn words(&self) -> &'static str
        ensures words { result.now ≡ why_words self.now }
        ensures short { length result.now ≤ LONGEST_WORDS }
    {
        match self {
            Why::Header => "no header",
            Why::UnknownWord => "unknown word",
            Why::UnknownName => "unknown name",
            Why::RepeatedName => "repeated name",
            Why::BadName => "bad name",
            Why::BadNumber => "bad number",
            Why::WrongKind => "wrong kind",
            Why::MissingWord => "missing word",
            Why::ExtraWord => "extra word",
            Why::UnclosedBlock => "unclosed block",
            Why::StrayWord => "word out of place",
            Why::TooMany(limit) => limit.words(),
        }
    }
}

/// Why bytes were not read as a bundle.
#[derive(Clone, Copy, Debug, PartialEq, Eq)]
pub enum ScriptError {
    Fault { line: u32, why: Why },
    NoMemory,
}

impl From<AllocError> for ScriptError {
    ghost from_gives = { λ _ e. e ≡ NoMemory };

    fn from(_e: AllocError) -> Self {
        ScriptError::NoMemory
    }
}
