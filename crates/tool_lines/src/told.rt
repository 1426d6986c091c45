//! The text about a fault (`told`), in an array of fixed size, and the words in it.
ghost use Rattle.std.specs.Prelude.{◌≡◌, ◌++◌, ◌<◌, OnOk, option_map, take};
ghost use Rattle.std.specs.List.{flat_map};
ghost use Rattle.tool_lines.specs.Told.{hex_digit, escaped_byte, escaped, named};

use arrayvec::{ArrayVec, CapacityError};

/// The most bytes of a word that are told.
const TOLD_BYTES: usize = 64;

/// The text about a fault, in an array of fixed size, so that it takes no memory. The longest has
/// some 700 bytes.
pub type FaultText = ArrayVec<u8, 1024>;

/// Adds a word between quotes; `unknown` where there is no word.
pub fn add_named(
    told: &mut FaultText,
    unknown: &[u8],
    word: Option<&str>,
) -> Result<(), CapacityError>
    ensures { OnOk result (told.new.items
        ≡ told.old.items ++ named unknown.now (option_map (λ w. w.now) word.entry)) }
{
    match word {
        Some(word) => {
            told.try_extend_from_slice(b"'")?;
            add_escaped(told, TOLD_BYTES, word.as_bytes())?;
            told.try_extend_from_slice(b"'")
        }
        None => told.try_extend_from_slice(unknown),
    }
}

// The first bytes of a word, at most `most`.
fn first_bytes(most: usize, bytes: &[u8]) -> &[u8]
    ensures { result.now ≡ take most bytes.entry.now }
{
    match bytes.get(..most) {
        Some(first) => first,
        None => bytes,
    }
}

/// Adds the first bytes of a word, at most `most`. Those that aren't printable are escaped.
pub fn add_escaped(told: &mut FaultText, most: usize, bytes: &[u8]) -> Result<(), CapacityError>
    ensures { OnOk result (told.new.items ≡ told.old.items ++ escaped most bytes.now) }
{
    let first = first_bytes(most, bytes);
    add_escaped_bytes(told, first)
}

// Adds all of these bytes; one that isn't printable is escaped, as `\x0a`.
fn add_escaped_bytes(told: &mut FaultText, bytes: &[u8]) -> Result<(), CapacityError>
    ensures { OnOk result (told.new.items ≡ told.old.items ++ flat_map escaped_byte bytes.now) }
{
    for byte in bytes {
        add_escaped_byte(told, *byte)?;
    }
    Ok(())
}

// The hexadecimal digit of a number below 16, in lower case, as an ASCII byte.
fn hex_digit(digit: u8) -> u8
    requires { digit < 16 }
    ensures { result ≡ hex_digit digit }
{
    // 87 is the byte `a` less 10.
    if digit < 10 { b'0' + digit } else { 87 + digit }
}

// Adds a byte as it is where it is printable or a space, else escaped: `\x` and two hexadecimal
// digits.
fn add_escaped_byte(told: &mut FaultText, byte: u8) -> Result<(), CapacityError>
    ensures { OnOk result (told.new.items ≡ told.old.items ++ escaped_byte byte) }
{
    if matches!(byte, 32..=126) {
        return told.try_extend_from_slice(&[byte]);
    }
    told.try_extend_from_slice(&[b'\\', b'x', hex_digit(byte / 16), hex_digit(byte % 16)])
}
