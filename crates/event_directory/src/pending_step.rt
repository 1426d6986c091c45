//! The change that a prepared step still has to make.
use crate::finds::Finds;
use crate::source::Source;
use crate::source_directory::SourceDirectory;
use s6_events::{Name, SubId};
use std::alloc::Allocator;

/// What a step that is prepared still has to do when it is made, beside hearing its letters.
#[derive(Drop)]
pub enum PendingStep<F: Finds, A: Allocator> {
    /// Nothing.
    Nothing,
    /// The free directory of this name is made.
    Make(Name),
    /// A subscription to this source is made; its event directory is there already, since others
    /// listen to it.
    Join(Source),
    /// A subscription is made to a source to which nobody listens yet: this becomes its event
    /// directory.
    Start(SourceDirectory<F, A>),
    /// The subscription of this serial, which is to this source, ends.
    Unsubscribe(SubId, Source),
}
