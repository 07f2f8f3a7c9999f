//! The right to a place while what stood there is out.

ghost use Rattle.std.specs.Prelude.{◌≡◌};

use counted_slot::Fits;
use kc_holder::Taken;

/// That something was lent. It isn't dropped: giving it back alone ends it.
pub struct Loan<X: Fits> {
    pub(crate) place: usize,
    pub(crate) taken: Taken<X>,
}

impl<X: Fits> Loan<X> {
    /// The number of the place.
    pub fn place(&self) -> usize
        ensures { result ≡ self.now.place }
    {
        self.place
    }
}
