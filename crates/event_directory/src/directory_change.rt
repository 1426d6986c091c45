//! What a step asks of the event directories, and what it is answered.
use crate::message::Message;
use crate::source::Source;
use s6_events::{Name, SubId};
use thiserror::Error;

/// What a step asks of the event directories, after its moments.
#[derive(Clone, Copy)]
pub enum DirectoryChange<'a> {
    /// Nothing.
    Nothing,
    /// A free directory of this name is to be made. Page `s6-mkfifodir`.
    Make(Name),
    /// This message is to be sent to the free directory of this name. Page `s6-ftrig-notify`.
    Send(Name, &'a Message),
    /// A subscription to this source is to be made; its pattern is handed in with `commit`. Page
    /// `s6-ftrig-listen1`.
    Subscribe(Source),
    /// The subscription of this serial is to end.
    Unsubscribe(SubId),
}

/// Why a change was not made.
#[derive(Clone, Copy, Debug, PartialEq, Eq, Error)]
pub enum DirectoryFault {
    /// No free directory has this name, or no subscription this serial.
    #[error("no such directory or subscription")]
    NoSuch = 1,
    /// There are 256 free directories, or 256 subscriptions, already.
    #[error("256 stand")]
    TooMany = 2,
    /// There is a free directory of this name already.
    #[error("the directory exists")]
    Exists = 3,
}

/// What a step answers to its change.
#[derive(Clone, Copy, Debug, PartialEq, Eq)]
pub enum DirectoryAnswer {
    /// It was done, or nothing was asked.
    Done,
    /// The serial of the new subscription.
    Subscribed(SubId),
    /// Why it was not done.
    Refused(DirectoryFault),
}
