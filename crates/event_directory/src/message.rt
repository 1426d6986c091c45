//! What is sent to a free directory.
ghost use Rattle.std.specs.Prelude.{◌≡◌, true, None, Some, if◌then◌else◌};
ghost use Rattle.std.specs.List.{list_all};
ghost use Rattle.s6_events.specs.Letter.{is_letter};
ghost use Rattle.event_directory.specs.Message.{is_message};

use arrayvec::ArrayVec;
use s6_events::Letter;
use std::marker::Model;

// The most letters of a message.
const MESSAGE_LIMIT: usize = 64;

/// A message to a free directory: 1 to 64 letters, each an event of its own. Page
/// `s6-ftrig-notify`; the limit is chosen here.
#[derive(Drop)]
pub struct Message {
    bytes: ArrayVec<u8, 64>,
}

impl Model for Message {
    ghost use Rattle.std.specs.Prelude.{List, ℕ, IsTrue};
    ghost use Rattle.event_directory.specs.Message.{is_message};

    ghost Value = { List ℕ };

    ghost view = { λ m. m.bytes.items };

    ghost invariant = { λ m. IsTrue (is_message m.bytes.items) };
}

impl Message {
    /// The message of these bytes, or None where they are not 1 to 64 bytes from 0x21 to 0x7e.
    pub fn new(bytes: &[u8]) -> Option<Message>
        ensures { result ≡ (if is_message bytes.now then Some bytes.now else None) }
    {
        if bytes.is_empty() || bytes.len() > MESSAGE_LIMIT || !are_letters(bytes) {
            return None;
        }
        let mut kept = ArrayVec::new();
        if kept.try_extend_from_slice(bytes).is_err() {
            // The length was tested above, and there is room for 64.
            unreachable!()
        }
        Some(Message { bytes: kept })
    }

    /// Its bytes.
    pub fn as_bytes(&self) -> &[u8]
        ensures bytes { result.now ≡ self.now }
        ensures message { is_message result.now ≡ true }
    {
        self.bytes.as_slice()
    }
}

// Whether each of these bytes is a letter of an event directory: 0x21 to 0x7e.
fn are_letters(bytes: &[u8]) -> bool
    ensures { result ≡ list_all is_letter bytes.now }
{
    bytes.iter().all(|b| 0x21 <= *b && *b <= 0x7e)
}
