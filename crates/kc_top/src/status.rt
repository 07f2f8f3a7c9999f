ghost use Rattle.std.specs.Prelude.{◌≡◌, ◌≤◌, length};
ghost use Rattle.kc_top.specs.Numbers.{status_number};
ghost use Rattle.kc_top.specs.Lines.{status_line, test_words};
ghost use Rattle.kc_top.specs.declared.status.Status.TheVariants as status;

use arrayvec::ArrayString;
use itoa::Buffer;
use kc_check::CheckWhy;
use kc_model::NoMemory;
use kc_script_lines::Why;

/// The most bytes that a line on standard error has: those of the line for words that are no command.
pub const LONGEST_LINE: usize = 111;

/// The most bytes that the words for a test have.
const LONGEST_TEST: usize = 23;

/// How a run ended.
#[derive(Clone, Copy, Debug, PartialEq, Eq)]
pub enum Status {
    /// All was written.
    Done,
    /// The words are no command.
    Usage,
    /// The bytes are no bundle, or no texts or picks. The source is part 0; lines are numbered from 1, and line 0 is the
    /// bundle as a whole. Of a run on texts part 1 is the file of the texts, part 2 that of the picks.
    Script { part: u32, line: u32, why: Why },
    /// The source failed.
    ReadFault,
    /// The sink failed.
    WriteFault,
    /// Memory ran out.
    NoMemory,
    /// More bytes came than a bundle, a text to be checked, or a file of texts or picks may have.
    TooLong,
    /// The text is that of no run: the first test that it fails, and the line where it does, from 1.
    Illegal { line: u32, why: CheckWhy },
}

impl Status {
    /// The number with which the program exits.
    pub fn number(&self) -> u8
        ensures { result ≡ status_number self.now }
    {
        match self {
            Status::Done => 0,
            Status::Usage => 2,
            Status::Script { .. } => 3,
            Status::ReadFault => 4,
            Status::WriteFault => 5,
            Status::NoMemory => 6,
            Status::TooLong => 7,
            Status::Illegal { .. } => 8,
        }
    }

    /// The line on standard error, without its newline; nothing where the run is done. It takes no memory, since there
    /// may be none, and is no `Display`, whose contract would let it fail.
    pub fn line(&self) -> ArrayString<LONGEST_LINE>
        ensures { result.bytes ≡ status_line self.now }
    {
        let mut text = ArrayString::new();
        match self {
            Status::Done => {}
            Status::Usage => {
                text.push_str(
                    "kcas: usage: kcas run, kcas files SETUP FILE.., kcas storm N, kcas check BUNDLE TEXT, or kcas texts TEXTS PICKS",
                );
            }
            Status::Script { part, line, why } => {
                text.push_str("kcas: part ");
                text.push_str(Buffer::new().format(*part));
                text.push_str(" line ");
                text.push_str(Buffer::new().format(*line));
                text.push_str(": ");
                text.push_str(why.words());
            }
            Status::ReadFault => text.push_str("kcas: reading failed"),
            Status::WriteFault => text.push_str("kcas: writing failed"),
            Status::NoMemory => text.push_str("kcas: out of memory"),
            Status::TooLong => text.push_str("kcas: input too long"),
            Status::Illegal { line, why } => {
                text.push_str("kcas: line ");
                text.push_str(Buffer::new().format(*line));
                text.push_str(": ");
                text.push_str(test_words(*why));
            }
        }
        text
    }
}

// The words for a test that a text fails.
fn test_words(why: CheckWhy) -> &'static str
    ensures words { result.now ≡ test_words why }
    ensures short { length result.now ≤ LONGEST_TEST }
{
    match why {
        CheckWhy::Form => "wrong form",
        CheckWhy::Turn => "out of turn",
        CheckWhy::Waits => "command waits",
        CheckWhy::Reply => "wrong reply",
        CheckWhy::Order => "not the canonical order",
        CheckWhy::State => "wrong state",
    }
}

impl From<NoMemory> for Status {
    ghost from_gives = { λ _ e. e ≡ status.NoMemory };

    fn from(_e: NoMemory) -> Self {
        Status::NoMemory
    }
}
