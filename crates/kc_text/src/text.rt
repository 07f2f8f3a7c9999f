//! A text.

ghost use Rattle.std.specs.Prelude.{◌≡◌, ◌<◌, ◌≤◌, ◌↔◌, length, IsNone, IfSome};

use arrayvec::ArrayVec;
use std::marker::Model;

/// How many bytes a text may have.
pub const MOST_BYTES: usize = 64;

/// A text of a few bytes, in place. Contracts see its bytes.
#[derive(Drop)]
pub struct Text {
    bytes: ArrayVec<u8, MOST_BYTES>,
}

impl Model for Text {
    ghost use Rattle.std.specs.Prelude.{ℕ, List};

    ghost Value = { List ℕ };

    ghost view = { λ t. t.bytes.items };
}

impl Text {
    /// The text of these bytes; None exactly above 64.
    pub fn new(bytes: &[u8]) -> Option<Text>
        ensures none { IsNone result ↔ (MOST_BYTES < length bytes.now) }
        ensures some { IfSome result (λ t. t ≡ bytes.now) }
    {
        let mut text = ArrayVec::new();
        match text.try_extend_from_slice(bytes) {
            Ok(()) => Some(Text { bytes: text }),
            Err(_) => None,
        }
    }

    /// Its bytes, up to 64.
    pub fn bytes(&self) -> &[u8]
        ensures same { result.now ≡ self.now }
        ensures few { length result.now ≤ MOST_BYTES }
    {
        self.bytes.as_slice()
    }

    /// The same text once more.
    pub fn copy(&self) -> Text
        ensures { result ≡ self.now }
    {
        match Text::new(self.bytes()) {
            Some(text) => text,
            None => unreachable!("a text is short"),
        }
    }
}
