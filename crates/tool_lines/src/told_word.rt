//! A word that the server told.
ghost use Rattle.std.specs.Prelude.{◌≡◌, ◌≤◌, length, take};

use arrayvec::ArrayVec;
use std::marker::Model;

/// A word that the server told. Of a longer one the first 32 bytes are kept.
#[derive(Debug, Drop)]
pub struct ToldWord {
    text: ArrayVec<u8, 32>,
}

impl Model for ToldWord {
    ghost use Rattle.std.specs.Prelude.{ℕ, List};

    ghost Value = { List ℕ };

    ghost view = { λ w. w.text.items };
}

// The first bytes, at most 32.
fn first_bytes(bytes: &[u8]) -> &[u8]
    ensures first { result.now ≡ take 32 bytes.entry.now }
    ensures bound { length result.now ≤ 32 }
{
    if bytes.len() <= 32 {
        bytes
    } else {
        &bytes[..32]
    }
}

impl ToldWord {
    /// The word of these bytes.
    pub fn new(bytes: &[u8]) -> ToldWord
        ensures { result ≡ take 32 bytes.now }
    {
        let mut text = ArrayVec::new();
        let _ = text.try_extend_from_slice(first_bytes(bytes));
        ToldWord { text }
    }

    /// Its bytes.
    pub fn as_bytes(&self) -> &[u8]
        ensures { result.now ≡ self.now }
    {
        self.text.as_slice()
    }
}
