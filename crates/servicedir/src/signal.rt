//! Signals by name and by number.
ghost use Rattle.std.specs.Prelude.{◌≡◌, ◌<◌, IfSome, length, map, position, option_map, slice_get};
ghost use Rattle.std.specs.Str.{bytes_eq};
ghost use Rattle.servicedir.specs.SignalName.{name_of_signal, signal_of_name, without_sig, signal_of_word, signal_number, signal_of};
ghost use Rattle.servicedir.specs.Number.{number_up_to};

use crate::number::{parse_digits, without_newline};

/// The names of the signals 1 to 31, in order, on Linux for x86-64.
const SIGNAL_NAMES: [&str; 31] = [
    "HUP", "INT", "QUIT", "ILL", "TRAP", "ABRT", "BUS", "FPE", "KILL", "USR1", "SEGV", "USR2",
    "PIPE", "ALRM", "TERM", "STKFLT", "CHLD", "CONT", "STOP", "TSTP", "TTIN", "TTOU", "URG",
    "XCPU", "XFSZ", "VTALRM", "PROF", "WINCH", "IO", "PWR", "SYS",
];

/// The greatest number of a signal.
const LAST_SIGNAL: u32 = 64;

/// The signal that the text of a signal file says: a name in capitals, with or without `SIG`, or a
/// number from 1 to 64, with at most one newline behind it. None for any other text. Page
/// `servicedir`, `down-signal`; that lower case, 0 and numbers over 64 are invalid is chosen here.
pub fn parse_signal(text: &[u8]) -> Option<u8>
    ensures { result ≡ signal_of text.now }
{
    let line = without_newline(text);
    match signal_named(line) {
        Some(signal) => Some(signal),
        None => signal_numbered(line),
    }
}

/// The number of the signal with this name, in capitals, with or without `SIG`; None where no
/// signal has it. No newline may follow.
pub fn signal_named(word: &[u8]) -> Option<u8>
    ensures { result ≡ signal_of_word word.now }
{
    number_of_name(without_prefix(word))
}

/// The name of the signal of this number, without `SIG`, on Linux for x86-64; None for 0 and for
/// every number over 31, which have no name here. Takes no memory. The table begins with the name
/// of signal 1.
#[tactic(auto, unfolding(crate::specs::SignalName::signal_names))]
pub fn signal_name(number: u8) -> Option<&'static str>
    ensures { option_map (λ name. name.now) result ≡ name_of_signal number }
{
    let place = number.checked_sub(1)?;
    name_at(SIGNAL_NAMES.as_slice(), usize::from(place))
}

// The name at a place in a table of names.
fn name_at(table: &[&'static str], place: usize) -> Option<&'static str>
    ensures { option_map (λ name. name.now) result
        ≡ slice_get (map (λ name. name.now) table.now) place }
{
    Some(*table.get(place)?)
}

// The word without the SIG that may begin it.
fn without_prefix(word: &[u8]) -> &[u8]
    ensures { result.now ≡ without_sig word.now }
{
    word.strip_prefix(b"SIG".as_slice()).unwrap_or(word)
}

// The number of the signal of a name without SIG. The table of names begins with that of signal 1.
#[tactic(auto, using(crate::proofs::Places::place_named), unfolding(crate::specs::SignalName::signal_of_name, crate::specs::SignalName::signal_names))]
fn number_of_name(name: &[u8]) -> Option<u8>
    ensures { result ≡ signal_of_name name.now }
{
    let place = place_in(SIGNAL_NAMES.as_slice(), name)?;
    Some(place as u8 + 1)
}

// The place of a name in a table of names.
fn place_in(table: &[&str], name: &[u8]) -> Option<usize>
    ensures place { result ≡ position (λ known. bytes_eq known.now name.now) table.now }
    ensures bound { IfSome result (λ place. place < length table.now) }
{
    table.iter().position(|known| known.as_bytes() == name)
}

// The signal whose number these digits say, from 1 to 64; None for any other text. There is no
// signal 0.
fn signal_numbered(digits: &[u8]) -> Option<u8>
    ensures { result ≡ signal_number (number_up_to 64 digits.now) }
{
    let number = parse_digits(digits, LAST_SIGNAL)?;
    if number == 0 {
        return None;
    }
    Some(number as u8)
}
