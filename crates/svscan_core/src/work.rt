//! What a step asks of the services.
use super::entry::{Entry, ScanOrder};
use s6_events::Sid;
use supervise_core::Change;

/// What a step asks of the services.
#[derive(Clone, Copy)]
pub enum ServiceWork<'a> {
    /// Nothing.
    Nothing,
    /// The service of this serial takes this change.
    Change(Sid, &'a Change),
    /// The scan directory was listed, and has these entries; no name stands twice. Page
    /// `s6-svscanctl`, `-a`.
    Listing(&'a [Entry]),
    /// All services get this command: nuke, which is for the inactive ones, or terminate. Page
    /// `s6-svscanctl`, `-n` and `-t`.
    Command(ScanOrder),
}
