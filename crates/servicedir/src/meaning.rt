//! What the text of each file means.
ghost use Rattle.std.specs.Prelude.{◌≡◌, Some, None, is_some, unwrap_or, min, if◌then◌else◌};
ghost use Rattle.std.specs.Str.{bytes_eq};
ghost use Rattle.servicedir.specs.Number.{line_of};
ghost use Rattle.servicedir.specs.Config.{number_in, signal_in, served_number, note_beside};
ghost use Rattle.servicedir.specs.FirstFault.{is_longrun};

use crate::dir_fault::DirFault;
use crate::number::{parse_number, without_newline};
use crate::signal::parse_signal;

/// The most bytes of a file whose text may be valid.
const FILE_TEXT_LIMIT: usize = 4096;

/// The most deaths that are kept.
const DEATH_LIMIT: u32 = 4096;

// The number that the text of a file says; None where the text is not valid. A text of more than
// 4096 bytes (`FILE_TEXT_LIMIT`) never is.
pub(crate) fn number_in_text(text: &[u8]) -> Option<u32>
    ensures { result ≡ number_in (Some text.now) }
{
    if text.len() > FILE_TEXT_LIMIT {
        return None;
    }
    parse_number(text)
}

// The signal that the text of a file says; None where the text is not valid. A text of more than
// 4096 bytes (`FILE_TEXT_LIMIT`) never is.
pub(crate) fn signal_in_text(text: &[u8]) -> Option<u8>
    ensures { result ≡ signal_in (Some text.now) }
{
    if text.len() > FILE_TEXT_LIMIT {
        return None;
    }
    parse_signal(text)
}

// Whether the text of `type` is `longrun`, with at most one newline behind it.
pub(crate) fn is_longrun_text(text: &[u8]) -> bool
    ensures { result ≡ is_longrun text.now }
{
    without_newline(text) == b"longrun".as_slice()
}

// This number as a descriptor, if it is one on which a daemon may say that it is ready: 1, or 3 to
// 9. None for any other one, or where there is no number.
pub(crate) fn served_descriptor(number: Option<u32>) -> Option<u8>
    ensures { result ≡ served_number number }
{
    match number {
        Some(number) if number == 1 || (3..=9).contains(&number) => Some(number as u8),
        _ => None,
    }
}

// What is noted, for the user, of a notification-fd file that is there: a fault where it names no
// descriptor that is served, else nothing. `descriptor` is the served one that its text names; None
// where it names none.
pub(crate) fn note_of_descriptor(descriptor: Option<u8>) -> Option<DirFault>
    ensures { result ≡ note_beside descriptor }
{
    match descriptor {
        Some(_) => None,
        None => Some(DirFault::NotifyFd),
    }
}

// How many deaths are kept, where max-death-tally says this number: at most 4096, and 100 where it
// says none.
pub(crate) fn death_tally(number: Option<u32>) -> u16
    ensures { result ≡ min (unwrap_or number 100) 4096 }
{
    number.unwrap_or(100).min(DEATH_LIMIT) as u16
}
