//! Why a change of the event directories is refused. Before this, `refusals.rt` of tree_core
//! refuses by names (NoService, Reserved).
ghost use Rattle.std.specs.Prelude.{◌≡◌, ◌==◌, [], Bool, bytes_eq, option_map};
ghost use Rattle.std.specs.List.{list_any};
ghost use Rattle.event_directory.specs.Changes.{directory_request_of};
ghost use Rattle.event_directory.specs.Changes.DirectoryRequest.{make_directory, send, subscribe, unsubscribe};
ghost use Rattle.event_directory.specs.RegisterChanges.{is_source_named, stored_refusal};

use crate::directory_change::{DirectoryChange, DirectoryFault};
use crate::source::Source;
use s6_events::{Name, SubId};

// The most free directories.
const MOST_DIRECTORIES: usize = 256;

// The most subscriptions.
const MOST_SUBSCRIPTIONS: usize = 256;

// Whether a free directory has this name; `names` are those of all free directories.
fn has_name(names: &[Name], name: Name) -> bool
    ensures { result ≡ list_any (bytes_eq name) names.now }
{
    names.iter().any(|other| name == *other)
}

// Whether the source of a subscription is there: a service always is, and a free directory if it is
// among `names`, those of all.
fn is_there(names: &[Name], source: Source) -> bool
    ensures { result ≡ is_source_named source names.now }
{
    match source {
        Source::Service(_) => true,
        Source::Directory(name) => has_name(names, name),
    }
}

// Whether there is a subscription of this serial; `subscribers` are all subscriptions, each with
// its source.
fn has_subscriber(subscribers: &[(SubId, Source)], id: SubId) -> bool
    ensures { result ≡ list_any (λ s. s.0 == id) subscribers.now }
{
    subscribers.iter().any(|subscriber| subscriber.0 == id)
}

// Why no free directory of this name can be made: `Exists` where `names`, those of all free
// directories, have it, `TooMany` where there are 256; None where it can be made.
fn make_refusal(names: &[Name], name: Name) -> Option<DirectoryFault>
    ensures { result ≡ stored_refusal (make_directory name) names.now [] }
{
    if has_name(names, name) {
        Some(DirectoryFault::Exists)
    } else if names.len() >= MOST_DIRECTORIES {
        Some(DirectoryFault::TooMany)
    } else {
        None
    }
}

// Why no message can be sent to the free directory of this name: `NoSuch` where `names`, those of
// all free directories, don't have it; None where it can be sent.
fn send_refusal(names: &[Name], name: Name) -> Option<DirectoryFault>
    ensures { result ≡ stored_refusal (send name []) names.now [] }
{
    if has_name(names, name) {
        None
    } else {
        Some(DirectoryFault::NoSuch)
    }
}

// Why no subscription to this source can be made: `NoSuch` where the source isn't there, `TooMany`
// where there are 256 subscriptions; None where it can be made. `names` are those of all free
// directories, `subscribers` all subscriptions.
fn subscribe_refusal(
    names: &[Name],
    subscribers: &[(SubId, Source)],
    source: Source,
) -> Option<DirectoryFault>
    ensures { result ≡ stored_refusal (subscribe source) names.now subscribers.now }
{
    if !is_there(names, source) {
        Some(DirectoryFault::NoSuch)
    } else if subscribers.len() >= MOST_SUBSCRIPTIONS {
        Some(DirectoryFault::TooMany)
    } else {
        None
    }
}

// Why the subscription of this serial can't be ended: `NoSuch` where it isn't among `subscribers`,
// all subscriptions; None where it can be.
fn unsubscribe_refusal(subscribers: &[(SubId, Source)], id: SubId) -> Option<DirectoryFault>
    ensures { result ≡ stored_refusal (unsubscribe id) [] subscribers.now }
{
    if has_subscriber(subscribers, id) {
        None
    } else {
        Some(DirectoryFault::NoSuch)
    }
}

/// Why a change is refused, where these are all free directories and all subscriptions; None where
/// it is not refused.
pub fn refusal(
    names: &[Name],
    subscribers: &[(SubId, Source)],
    change: &DirectoryChange<'_>,
) -> Option<DirectoryFault>
    ensures { result ≡ stored_refusal (directory_request_of change.now) names.now subscribers.now }
{
    match *change {
        DirectoryChange::Nothing => None,
        DirectoryChange::Make(name) => make_refusal(names, name),
        DirectoryChange::Send(name, _) => send_refusal(names, name),
        DirectoryChange::Subscribe(source) => subscribe_refusal(names, subscribers, source),
        DirectoryChange::Unsubscribe(id) => unsubscribe_refusal(subscribers, id),
    }
}
