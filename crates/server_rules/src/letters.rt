//! A letter of a service, as it is told to a follower.
ghost use Rattle.std.specs.Prelude.{◌≡◌, ◌++◌, OnOk};
ghost use Rattle.server_rules.specs.Letters.{letter_line};

use s6_events::{At, Mark, Name, Sid};
use s6_script::push_number;
use std::alloc::{AllocError, Global};

/// A letter of a service: what its supervisor writes to the event directory (`s`, `u`, `U`, `d`,
/// `D`, `O` or `x`), and when.
#[derive(Clone, Copy, Debug, PartialEq, Eq)]
pub struct ToldLetter {
    /// The tree's clock when it was told.
    pub at: At,
    pub sid: Sid,
    pub name: Name,
    pub mark: Mark,
}

/// Adds its line: `e AT SERIAL NAME LETTER`, with the moment in milliseconds.
pub fn push_letter(text: &mut Vec<u8>, letter: &ToldLetter) -> Result<(), AllocError>
    ensures { OnOk result (text.new.items ≡ text.old.items ++ letter_line letter.now) }
{
    text.extend_from_slice(b"e ")?;
    push_number(text, letter.at.millis())?;
    text.extend_from_slice(b" ")?;
    push_number(text, letter.sid.0)?;
    text.extend_from_slice(b" ")?;
    text.extend_from_slice(letter.name.as_bytes())?;
    text.extend_from_slice(&[b' ', letter.mark.letter().byte(), b'\n'])
}
