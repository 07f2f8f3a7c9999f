//! The operations.

ghost use Rattle.kc_text.specs.Meaning.{IsFit, text_end, text_meaning};

use crate::acts;
use crate::texts::Texts;
use kc_model::{MOST, Reply};
use kc_xt::{Peek, Stop, Transact, Xt};

/// What is done with the names and leases of texts. Places are numbered from 0, and texts from 1.
#[derive(Clone, Copy, Debug, PartialEq, Eq)]
pub enum TextAct {
    /// This place names this text; replies false where the text is buried.
    Name(u32, u32),
    /// This place names none.
    Clear(u32),
    /// Opens a lease of the text that this place names, and replies its number; Empty where it names none, Full where
    /// no further lease fits.
    Lease(u32),
    /// Ends a lease of this text; replies false where none is open.
    Return(u32),
    /// Buries this text: nothing names it again. Replies false where a place names it or a lease of it is open.
    Bury(u32),
}

/// An operation on texts. It is fit where its place and its text are in range.
#[derive(Clone, Copy, Debug, PartialEq, Eq)]
pub struct TextOp {
    pub texts: Texts,
    pub act: TextAct,
}

impl Transact for TextOp {
    ghost meaning = { text_meaning };

    ghost is_fit = { IsFit };

    ghost end = { text_end };

    fn bound(&self) -> u32 {
        self.texts.end()
    }

    fn limit(&self) -> u32 {
        MOST as u32
    }

    fn run<P: Peek>(&self, xt: &mut Xt<P>) -> Result<Reply, Stop> {
        match self.act {
            TextAct::Name(place, text) => acts::name(self.texts, place, text, xt),
            TextAct::Clear(place) => acts::clear(self.texts, place, xt),
            TextAct::Lease(place) => acts::lease(self.texts, place, xt),
            TextAct::Return(text) => acts::give_back(self.texts, text, xt),
            TextAct::Bury(text) => acts::bury(self.texts, text, xt),
        }
    }
}
