//! What lies in a holder at its end.

ghost use Rattle.std.specs.Prelude.{◌≡◌, IfSome};

use crate::holder::{FREE, Holder, SLOT, WORD};
use counted_slot::Fits;

impl<X: Fits + Drop> Holder<X> {
    /// The value, at the end. None: who took it didn't give it back.
    pub fn into_inner(self) -> Option<X>
        ensures { IfSome result (λ x. X.fits self.tag x) }
    {
        let Holder { table } = self;
        let mut closed = table.close();
        let word = closed.word(WORD);
        let value = closed.take(SLOT);
        closed.free();
        if word != FREE {
            return None;
        }
        value
    }
}
