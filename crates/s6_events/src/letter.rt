//! Which bytes are letters of an event directory.
ghost use Rattle.std.specs.Prelude.{◌≡◌, ◌≤◌, None, Some, true, if◌then◌else◌};
ghost use Rattle.s6_events.specs.Letter.{is_letter};

use std::marker::Model;

/// A letter of an event directory: a byte from 0x21 to 0x7e. Page `fifodir`; that an event is one
/// printable byte is this project's own rule.
#[derive(Clone, Copy, PartialEq, Eq, PartialOrd, Ord, Hash, Debug)]
pub struct Letter {
    byte: u8,
}

impl Model for Letter {
    ghost use Rattle.std.specs.Prelude.{ℕ, ◌≡◌, true};
    ghost use Rattle.s6_events.specs.Letter.{is_letter};

    ghost Value = { ℕ };

    ghost view = { λ l. l.byte };

    ghost invariant = { λ l. is_letter l.byte ≡ true };

    ghost inverse = { λ n. record { byte = n } };
}

impl Letter {
    /// The letter of this byte, or None where it is below 0x21 or above 0x7e.
    pub fn new(byte: u8) -> Option<Letter>
        ensures { result ≡ (if is_letter byte then Some byte else None) }
    {
        if (0x21..=0x7e).contains(&byte) {
            Some(Letter { byte })
        } else {
            None
        }
    }

    /// Its byte.
    pub fn byte(self) -> u8
        ensures { result ≡ self }
    {
        self.byte
    }

    // The letter of a byte that is known to be one.
    pub(crate) fn of(byte: u8) -> Letter
        requires { is_letter byte ≡ true }
        ensures { result ≡ byte }
    {
        Letter { byte }
    }
}
