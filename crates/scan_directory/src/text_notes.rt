//! What is noted of the files whose texts are read: a file that is there, and says nothing that can
//! be taken, means what an absent one means.
ghost use Rattle.std.specs.Prelude.{◌≡◌, Some};
ghost use Rattle.servicedir.specs.Config.{number_in, signal_in};
ghost use Rattle.scan_directory.specs.Files.{text_in};
ghost use Rattle.scan_directory.specs.TextNotes.{note_of_timeout_kill, note_of_timeout_finish, note_of_max_death_tally, note_of_deaths, note_of_down_signal};

use crate::dir_note::DirNote;
use crate::service_files::Reading;
use servicedir::{parse_number, parse_signal};

/// The most bytes of a file whose text may be valid.
const FILE_TEXT_LIMIT: usize = 4096;

/// The most deaths that are kept.
const DEATH_LIMIT: u32 = 4096;

// The number that the text of a file says, as `servicedir::read` takes it; None where it says none.
fn number_in_text(text: &[u8]) -> Option<u32>
    ensures { result ≡ number_in (Some text.now) }
{
    if text.len() > FILE_TEXT_LIMIT {
        return None;
    }
    parse_number(text)
}

// The signal that the text of a file says, likewise.
fn signal_in_text(text: &[u8]) -> Option<u8>
    ensures { result ≡ signal_in (Some text.now) }
{
    if text.len() > FILE_TEXT_LIMIT {
        return None;
    }
    parse_signal(text)
}

/// What is noted of `timeout-kill`, where it says no number.
pub fn note_of_timeout_kill(found: &Reading) -> Option<DirNote>
    ensures { result ≡ note_of_timeout_kill (text_in found.now) }
{
    match found {
        Reading::Text(text) if number_in_text(text.as_slice()).is_none() => {
            Some(DirNote::TimeoutKill)
        }
        _ => None,
    }
}

/// What is noted of `timeout-finish`, where it says no number.
pub fn note_of_timeout_finish(found: &Reading) -> Option<DirNote>
    ensures { result ≡ note_of_timeout_finish (text_in found.now) }
{
    match found {
        Reading::Text(text) if number_in_text(text.as_slice()).is_none() => {
            Some(DirNote::TimeoutFinish)
        }
        _ => None,
    }
}

/// What is noted of `max-death-tally`, where it says no number, or one over 4096.
pub fn note_of_max_death_tally(found: &Reading) -> Option<DirNote>
    ensures { result ≡ note_of_max_death_tally (text_in found.now) }
{
    match found {
        Reading::Text(text) => note_of_deaths(number_in_text(text.as_slice())),
        _ => None,
    }
}

// What is noted where `max-death-tally` says this number, or none.
fn note_of_deaths(number: Option<u32>) -> Option<DirNote>
    ensures { result ≡ note_of_deaths number }
{
    match number {
        None => Some(DirNote::MaxDeathTally),
        Some(number) if number > DEATH_LIMIT => Some(DirNote::MaxDeathTallyOver),
        Some(_) => None,
    }
}

/// What is noted of `down-signal`, where it says no signal.
pub fn note_of_down_signal(found: &Reading) -> Option<DirNote>
    ensures { result ≡ note_of_down_signal (text_in found.now) }
{
    match found {
        Reading::Text(text) if signal_in_text(text.as_slice()).is_none() => {
            Some(DirNote::DownSignal)
        }
        _ => None,
    }
}
