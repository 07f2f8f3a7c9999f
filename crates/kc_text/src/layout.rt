//! What the cells of shared texts are.

ghost use Rattle.std.specs.Prelude.{◌≡◌, ◌≤◌, ◌<◌, ◌+◌, ◌*◌};
ghost use Rattle.kc_text.specs.Meaning.{IsText, texts_cells_end, fewer, leases_at, more, text_named, names_at, place_at, texts_cells};

use crate::texts::{BURIED, MOST_PLACES, MOST_TEXTS, Texts};
use kc_model::{Loc, MOST_LOCATIONS};

impl Texts {
    /// The texts whose cells begin at a location.
    pub fn layout(base: Loc, places: u32, texts: u32) -> Texts
        requires places { (1 ≤ places) × (places ≤ MOST_PLACES) }
        requires texts { (1 ≤ texts) × (texts ≤ MOST_TEXTS) }
        requires cells { base.0 + (places + 2 * texts) ≤ MOST_LOCATIONS }
        ensures base { result.base ≡ base }
        ensures places { result.places ≡ places }
        ensures texts { result.texts ≡ texts }
    {
        Texts {
            base,
            places,
            texts,
        }
    }

    /// How many places may name a text.
    pub fn places(&self) -> u32
        ensures { result ≡ self.now.places }
    {
        self.places
    }

    /// How many texts there are.
    pub fn texts(&self) -> u32
        ensures { result ≡ self.now.texts }
    {
        self.texts
    }

    /// A number above the location of its last cell.
    pub fn end(&self) -> u32
        ensures { result ≡ texts_cells_end self.now }
    {
        self.base.0 + self.cells()
    }

    /// How many cells there are.
    pub fn cells(&self) -> u32
        ensures { result ≡ texts_cells self.now }
    {
        self.places + 2 * self.texts
    }

    /// What a cell holds at the opening, where no place names a text and no lease is open.
    pub fn opening(&self, index: u32) -> u32
        requires { index < texts_cells self.now }
        ensures { result ≡ 0 }
    {
        0
    }

    /// The text that a place's number names: one above the number of texts names none, as 0 does.
    pub(crate) fn named(&self, number: u32) -> u32
        ensures { result ≡ text_named self.now number }
    {
        if number > self.texts { 0 } else { number }
    }

    /// The cell with the number of a place.
    pub(crate) fn place_at(&self, place: u32) -> Loc
        requires { place < self.now.places }
        ensures { result.0 ≡ place_at self.now place }
    {
        Loc(self.base.0 + place)
    }

    /// The cell that says how many places name a text.
    pub(crate) fn names_at(&self, text: u32) -> Loc
        requires { IsText self.now text }
        ensures { result.0 ≡ names_at self.now text }
    {
        Loc(self.base.0 + self.places + 2 * (text - 1))
    }

    /// The cell that says how many leases of a text are open.
    pub(crate) fn leases_at(&self, text: u32) -> Loc
        requires { IsText self.now text }
        ensures { result.0 ≡ leases_at self.now text }
    {
        Loc(self.base.0 + self.places + 2 * (text - 1) + 1)
    }
}

/// One name more; what would come to the number of a buried text stays.
pub(crate) fn more(names: u32) -> u32
    requires { names < BURIED }
    ensures { result ≡ more names }
{
    if names + 1 == BURIED {
        names
    } else {
        names + 1
    }
}

/// One name less; the number of a buried text stays, and so does 0.
pub(crate) fn fewer(names: u32) -> u32
    ensures { result ≡ fewer names }
{
    if names == BURIED {
        names
    } else {
        names.saturating_sub(1)
    }
}
