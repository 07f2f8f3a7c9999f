//! On which side of a cut a commit stands.

ghost use Rattle.std.specs.Prelude.{◌≡◌, List};
ghost use Rattle.kc_lasting.specs.Ends.{IsEraEnd};
ghost use Rattle.kc_lasting.specs.Settled.{IsLearned, IsSideOf};
ghost use Rattle.kc_model.specs.declared.footprint.Entry.{Entry};

use crate::client::Client;
use crate::line::End;
use kc_model::Footprint;

/// Where a commit stands whose era may have ended.
#[derive(Clone, Copy, Debug, PartialEq, Eq)]
pub enum Side {
    /// The era goes on: nobody has cut it off.
    Open,
    /// Before the cut.
    Before,
    /// Behind it; or it puts nothing.
    Behind,
    /// That can't be told, which never comes.
    Unknown,
}

impl Client {
    // Learns what is known at the cut, and finds the side of the last commit, which has this footprint.
    pub(crate) fn learn_end(&mut self, end: End, footprint: &Footprint) -> (Side, End)
        requires of { end.note.of ≡ self.old.caller.of }
        ensures end { (part : List Entry) → IsEraEnd self.old.caller.of end.note part end.versions.items → IsEraEnd self.old.caller.of result.1.note part result.1.versions.items }
        ensures number { result.1.era ≡ end.era }
        ensures settled { (part : List Entry) → IsEraEnd self.old.caller.of end.note part end.versions.items → IsLearned part result.0 self.old.caller self.old.seen.value footprint.now self.new.caller self.new.seen.value }
        ensures of { self.new.caller.of ≡ self.old.caller.of }
        ensures size { self.new.locations ≡ self.old.locations }
    {
        let side = side_of(footprint, end.versions.as_slice());
        let flag = self.locations as usize;
        if flag >= end.versions.len() {
            return (Side::Unknown, end);
        }
        if end.versions[flag] <= self.flag {
            return (Side::Unknown, end);
        }
        let Client { era, caller, .. } = self;
        let End {
            note,
            versions,
            era: number,
            leaving,
        } = end;
        caller.shows();
        era.store.learn(caller, note);
        caller.shows();
        let note = era.store.note(caller);
        let end = End {
            note,
            versions,
            era: number,
            leaving,
        };
        (side, end)
    }
}

// Where a commit stands whose era was cut off at these versions. All puts of one entry stand on one side.
fn side_of(footprint: &Footprint, versions: &[u32]) -> Side
    ensures { IsSideOf result footprint.now versions.now }
{
    let puts = footprint.puts.as_slice();
    if puts.is_empty() {
        return Side::Behind;
    }
    let at = puts[0].loc.0 as usize;
    if at >= versions.len() {
        return Side::Unknown;
    }
    if puts[0].version < versions[at] {
        Side::Before
    } else {
        Side::Behind
    }
}
