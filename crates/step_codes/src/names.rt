//! The codes of names: a byte that tells how long the name is, and its bytes.
use crate::coded::{Code, Coded};
use s6_events::Name;
use std::alloc::AllocError;

impl Coded for Name {
    ghost use Rattle.std.specs.Prelude.{IsTrue};
    ghost use Rattle.s6_events.specs.Name.{is_name};
    ghost use Rattle.step_codes.specs.NameCodes.{bytes_onto};

    ghost onto = { bytes_onto };

    ghost fits = { λ name. IsTrue (is_name name) };

    // Adds its code: a byte that tells how many bytes it has, at most 64, and these bytes.
    fn push(&self, code: &mut Vec<u8>) -> Result<(), AllocError> {
        let bytes = self.as_bytes();
        code.push(bytes.len() as u8)?;
        code.extend_from_slice(bytes)?;
        Ok(())
    }

    // Reads a name: how many bytes it has, and these bytes.
    fn take(code: &mut Code<'_>) -> Name {
        let count = usize::from(code.take_byte());
        // Bytes that are no name, which no record has, give any name.
        Name::new(code.take_bytes(count)).unwrap_or_default()
    }
}
