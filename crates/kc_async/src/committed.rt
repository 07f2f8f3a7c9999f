//! What comes of a commit that a task waited for.

ghost use Rattle.std.specs.Prelude.{◌≡◌};

use kc_callers::Borrowed;
use kc_model::Footprint;
use kc_store::Answered;

/// The caller that committed, which its borrower gives back; what was answered, which is never Later, and the footprint.
pub struct Committed<'a> {
    pub one: Borrowed<'a>,
    pub answered: Answered,
    pub footprint: Footprint,
}

impl<'a> Committed<'a> {
    /// Gives the caller back.
    pub fn into_answered(self) -> (Answered, Footprint)
        ensures answered { result.0 ≡ self.entry.answered }
        ensures footprint { result.1 ≡ self.entry.footprint }
    {
        let Committed {
            one,
            answered,
            footprint,
        } = self;
        one.give_back();
        (answered, footprint)
    }
}
