//! How a store that lasts is brought to an end.

ghost use Rattle.std.specs.Prelude.{◌≡◌, All, true};
ghost use Rattle.kc_lasting.specs.Told.{AllPass, EndsIn, Moves, standing_of};

use crate::handle::LastingCaller;
use std::sync::Wait;

impl LastingCaller {
    /// Ends the eras of all handles: what any of these and this one had committed stands in the histories with which the eras ended, of
    /// which this one knows now. False: there was no memory, and some of them go on in their eras.
    pub fn finish<R: Wait>(&mut self, rt: &R, others: &mut [LastingCaller]) -> bool
        requires { All (λ o. (standing_of o).roll ≡ (standing_of self.old).roll) others.old }
        ensures all { result ≡ true → All (λ o. EndsIn (standing_of self.new).lines (standing_of o)) others.old }
        ensures own { result ≡ true → EndsIn (standing_of self.new).lines (standing_of self.old) }
        ensures pass { AllPass others.old others.new }
        ensures moves { Moves (standing_of self.old) (standing_of self.new) }
    {
        if !self.renew(rt) {
            return false;
        }
        self.take_all_in(rt, others)
    }

    // Takes in one after another.
    fn take_all_in<R: Wait>(&mut self, rt: &R, others: &mut [LastingCaller]) -> bool
        requires { All (λ o. (standing_of o).roll ≡ (standing_of self.old).roll) others.old }
        ensures all { result ≡ true → All (λ o. EndsIn (standing_of self.new).lines (standing_of o)) others.old }
        ensures pass { AllPass others.old others.new }
        ensures moves { Moves (standing_of self.old) (standing_of self.new) }
    {
        for at in 0..others.len() {
            if !self.take_in(rt, &mut others[at]) {
                return false;
            }
        }
        true
    }
}
