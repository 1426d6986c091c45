//! Values that have a code in bytes.
ghost use Rattle.std.specs.Prelude.{◌≡◌, ◌++◌, ◌∷◌, List, ℕ, [], OnOk, length};
ghost use Rattle.step_codes.specs.Adding.{Adds};

use std::alloc::AllocError;
use std::marker::Model;

/// The bytes of some codes, one behind the other, that are left to read.
#[derive(Drop)]
pub struct Code<'a> {
    pub rest: &'a [u8],
}

impl<'a> Model for Code<'a> {
    ghost use Rattle.std.specs.Prelude.{List, ℕ};

    ghost Value = { List ℕ };

    ghost view = { λ c. c.rest.now };
}

impl<'a> Code<'a> {
    /// A reader of all of these bytes.
    pub fn of(bytes: &'a [u8]) -> Code<'a>
        ensures { result ≡ bytes.now }
    {
        Code { rest: bytes }
    }

    /// Takes the next byte, or 0 where there is none.
    pub fn take_byte(&mut self) -> u8
        ensures { (byte : ℕ) (rest : List ℕ) → self.old ≡ byte ∷ rest
            → (result ≡ byte) × (self.new ≡ rest) }
    {
        match self.rest.split_first() {
            Some((byte, rest)) => {
                self.rest = rest;
                *byte
            }
            None => 0,
        }
    }

    /// Takes `count` bytes. Where there are fewer it takes none, and gives none.
    pub fn take_bytes(&mut self, count: usize) -> &'a [u8]
        ensures { (bytes rest : List ℕ) → length bytes ≡ count → self.old ≡ bytes ++ rest
            → (result.now ≡ bytes) × (self.new ≡ rest) }
    {
        let all = self.rest;
        if count > all.len() {
            return &[];
        }
        self.rest = &all[count..];
        &all[..count]
    }
}

/// A value that has a code in bytes.
pub trait Coded: Sized {
    ghost use Rattle.std.specs.Prelude.{List, ℕ};

    /// The bytes of its code, and behind them other bytes.
    ghost onto: { Self → List ℕ → List ℕ };

    /// What is true of a value that was coded.
    ghost fits: { Self → Type 0 };

    /// Adds its code. An error where memory is refused: some of it may then be added.
    fn push(&self, code: &mut Vec<u8>) -> Result<(), AllocError>
        ensures added { OnOk result (Adds code.old.items code.new.items (onto self.now)) }
        ensures fits { OnOk result (fits self.now) };

    /// Takes the value whose code comes first, and just the bytes of that code. Bytes that are no
    /// such code give any value.
    fn take(code: &mut Code<'_>) -> Self
        ensures { (one : Self) (rest : List ℕ) → fits one → code.old ≡ onto one rest
            → (result ≡ one) × (code.new ≡ rest) };
}
