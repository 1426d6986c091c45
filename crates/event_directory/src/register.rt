//! What is stored of all event directories (the register): names of free ones, subscriptions, and
//! the directory of each source that is listened to. A source is a service or a free directory.
//! Letters are first prepared, which changes nothing that is shown, then heard.
ghost use Rattle.std.specs.Prelude.{◌≡◌, ◌<◌, ◌++◌, ◌+◌, ◌^◌, [], IfOk, OnOk, IfSome, IfNone, Some, drop, length, option_map, take, true};
ghost use Rattle.event_directory.specs.Changes.{directory_request_of};
ghost use Rattle.event_directory.specs.Hearing.{heard_moments, heard_message, hits_of_moments, hits_of_message};
ghost use Rattle.event_directory.specs.Register.{shown_in, prepared_in, without_prepared, without_followed, source_of, subscribers_without, with_free_name, without_subscription_by, prepared_by_pending, HasRoom, CanJoin, CanStart};
ghost use Rattle.event_directory.specs.RegisterChanges.{stored_refusal, view_in};
ghost use Rattle.event_directory.specs.Remembered.{DirectoriesShown, with_subscription_to};

use crate::directory_change::{DirectoryChange, DirectoryFault};
use crate::finds::Finds;
use crate::hit::Hit;
use crate::image::{DirectoriesImage, source_images};
use crate::listened::{begin_each, commit_each, leave_at, list_at, reserve_at, take_in_at};
use crate::message::Message;
use crate::pattern::Pattern;
use crate::pending_step::PendingStep;
use crate::refusing::refusal;
use crate::source::Source;
use crate::source_directory::SourceDirectory;
use crate::step_letters::{hear_letters, hear_moments};
use crate::sub_view::SubView;
use s6_events::{Moment, Name, NoMemory, SubId};
use std::alloc::Allocator;
use std::marker::Model;

/// The free directories and the subscriptions: as they are, and as they will be once the letters
/// that are prepared are heard.
#[derive(Drop)]
pub struct Register<F: Finds, A: Allocator> {
    // The names of the free directories, in the order in which they were made.
    names: Vec<Name, A>,
    // The serial and the source of each subscription, in rising serial.
    subscribers: Vec<(SubId, Source), A>,
    // The event directory of each source that has a subscription; another source has none.
    listened: Vec<SourceDirectory<F, A>, A>,
    // The serial of the next subscription.
    next: u64,
}

impl<F: Finds, A: Allocator> Model for Register<F, A> {
    ghost use Rattle.std.specs.Prelude.{map, ◌-◌, vec_len, vec_capacity};
    ghost use Rattle.event_directory.specs.Parts.{followed_of, followed_after, room_of, AreDistinct};
    ghost use Rattle.event_directory.specs.Register.{Registered};

    ghost Value = { Registered };

    ghost view = { λ r. record {
      names = r.names.items;
      subscribers = r.subscribers.items;
      followed = map followed_of r.listened.items;
      prepared = map followed_after r.listened.items;
      next = r.next;
      rooms = map room_of r.listened.items;
      name_room = vec_capacity r.names - vec_len r.names;
      subscriber_room = vec_capacity r.subscribers - vec_len r.subscribers;
      source_room = vec_capacity r.listened - vec_len r.listened;
    } };

    ghost invariant = { λ r. AreDistinct (map (λ l. l.source) r.listened.items) };
}

impl<F: Finds, A: Allocator + Copy> Register<F, A> {
    /// A register with nothing in it.
    pub fn new(alloc: A) -> Register<F, A>
        ensures { shown_in result ≡ record
            { names = []; subscribers = []; followed = []; next = 1 } }
    {
        Register {
            names: Vec::new(alloc),
            subscribers: Vec::new(alloc),
            listened: Vec::new(alloc),
            next: 1,
        }
    }

    /// The allocator that it was made with.
    pub fn allocator(&self) -> A {
        *self.names.allocator()
    }

    /// The serial of the next subscription.
    pub fn next(&self) -> SubId
        ensures { result ≡ self.now.next }
    {
        SubId(self.next)
    }

    /// Whether there is no subscription: no source has a directory with one.
    pub fn is_silent(&self) -> bool
        ensures { result ≡ true → self.now.followed ≡ [] }
    {
        self.listened.is_empty()
    }

    /// The source of the subscription of this serial.
    pub fn source(&self, id: SubId) -> Option<Source>
        ensures { result ≡ source_of id self.now.subscribers }
    {
        find_source(&self.subscribers, id)
    }

    /// What the subscription of this serial has heard; None where there is none.
    pub fn list(&self, id: SubId) -> Option<SubView<'_>>
        ensures { option_map (λ v. (v.letters.now, v.state)) result
            ≡ view_in id (shown_in self.now) }
    {
        let source = find_source(&self.subscribers, id)?;
        list_at(&self.listened, source, id)
    }

    /// Why a change is refused; None where it is not.
    pub fn refusal(&self, change: &DirectoryChange<'_>) -> Option<DirectoryFault>
        ensures { result ≡ stored_refusal
            (directory_request_of change.now) self.now.names self.now.subscribers }
    {
        refusal(&self.names, &self.subscribers, change)
    }

    /// Begins to prepare: no letter is prepared yet.
    pub fn begin(&mut self)
        ensures same { without_prepared self.new ≡ without_prepared self.old }
        ensures prepared { self.new.prepared ≡ self.old.followed }
    {
        begin_each(&mut self.listened);
    }

    /// Prepares these moments: the letters of the marks of services among them. Adds the hits that
    /// they will give to `matches`.
    pub fn hear_moments(
        &mut self,
        moments: &[Moment],
        matches: &mut Vec<(SubId, Hit), A>,
    ) -> Result<(), NoMemory>
        ensures same { without_prepared self.new ≡ without_prepared self.old }
        ensures prepared { OnOk result
            (self.new.prepared ≡ heard_moments F.test moments.now self.old.prepared) }
        ensures matches { OnOk result
            (matches.new.items ≡ matches.old.items
            ++ hits_of_moments F.test moments.now self.old.prepared) }
    {
        hear_moments(&mut self.listened, moments, matches)
    }

    /// Prepares the letters of a message to the free directory of this name, and adds the hits that
    /// they will give to `matches`.
    pub fn hear_message(
        &mut self,
        name: Name,
        message: &Message,
        matches: &mut Vec<(SubId, Hit), A>,
    ) -> Result<(), NoMemory>
        ensures same { without_prepared self.new ≡ without_prepared self.old }
        ensures prepared { OnOk result
            (self.new.prepared ≡ heard_message F.test name message.now self.old.prepared) }
        ensures matches { OnOk result
            (matches.new.items ≡ matches.old.items
            ++ hits_of_message F.test name message.now self.old.prepared) }
    {
        hear_letters(&mut self.listened, name, message.as_bytes(), matches)
    }

    /// Hears what was prepared: each subscription becomes what it was worked out to be.
    pub fn hear_prepared(&mut self)
        ensures after { self.new.followed ≡ self.old.prepared }
        ensures same { without_followed self.new ≡ without_followed self.old }
    {
        commit_each(&mut self.listened);
    }

    /// Makes a place for one more name.
    pub fn reserve_name(&mut self) -> Result<(), NoMemory>
        ensures shown { shown_in self.new ≡ shown_in self.old }
        ensures prepared { prepared_in self.new ≡ prepared_in self.old }
        ensures room { OnOk result (0 < self.new.name_room) }
    {
        self.names.reserve(1)?;
        Ok(())
    }

    /// Makes all places for one more subscription to this source, and returns the change that is
    /// left to be made: to join the directory that the source has (`Join`), or to give the source a
    /// first one (`Start`).
    pub fn reserve_subscription(&mut self, source: &Source) -> Result<PendingStep<F, A>, NoMemory>
        requires { self.old.next < 2 ^ 63 }
        ensures shown { shown_in self.new ≡ shown_in self.old }
        ensures prepared { prepared_in self.new ≡ prepared_in self.old }
        ensures pending { IfOk result
            (λ p. (s : DirectoriesShown)
            → prepared_by_pending p s ≡ record { shown = s; joins = Some source.now }) }
        ensures room { IfOk result (λ p. HasRoom p self.new) }
    {
        self.subscribers.reserve(1)?;
        if reserve_at(&mut self.listened, *source)? {
            return Ok(PendingStep::Join(*source));
        }
        self.listened.reserve(1)?;
        let directory = SourceDirectory::with_place(*self.names.allocator(), *source)?;
        Ok(PendingStep::Start(directory))
    }

    /// Adds a free directory of this name, in a place that was made.
    pub fn add_name(&mut self, name: Name)
        requires { 0 < self.old.name_room }
        ensures { shown_in self.new ≡ with_free_name name (shown_in self.old) }
    {
        self.names.push_reserved(name);
    }

    /// Subscribes to a source that has a directory, in places that were made. The subscription gets
    /// the next serial.
    pub fn join(&mut self, source: &Source, pattern: F, repeats: bool)
        requires { CanJoin source.now self.old }
        ensures { shown_in self.new
            ≡ with_subscription_to source.now (F.source pattern, repeats) (shown_in self.old) }
    {
        let id = SubId(self.next);
        self.subscribers.push_reserved((id, *source));
        take_in_at(&mut self.listened, *source, id, pattern, repeats);
        self.next += 1;
    }

    /// Subscribes to a source that has no directory yet, in places that were made: it gets this
    /// one. The subscription gets the next serial.
    pub fn start(&mut self, mut directory: SourceDirectory<F, A>, pattern: F, repeats: bool)
        requires { CanStart directory.source directory.kept.standing directory.kept.room self.old }
        ensures { shown_in self.new
            ≡ with_subscription_to directory.source (F.source pattern, repeats)
            (shown_in self.old) }
    {
        let id = SubId(self.next);
        self.subscribers.push_reserved((id, directory.source()));
        // The directory takes the subscription in, and joins those that are listened to.
        directory.take_in(id, pattern, repeats);
        self.listened.push_reserved(directory);
        self.next += 1;
    }

    /// Ends the subscription of this serial and this source: it leaves the list of all
    /// subscriptions, and the directory of its source.
    pub fn leave(&mut self, id: SubId, source: Source)
        ensures { shown_in self.new ≡ without_subscription_by id source (shown_in self.old) }
    {
        drop_subscriber(&mut self.subscribers, id);
        leave_at(&mut self.listened, source, id);
    }
}

impl<A: Allocator + Copy> Register<Pattern, A> {
    /// All that is there now as plain data.
    pub fn image(&self, alloc: A) -> Result<DirectoriesImage<A>, NoMemory>
        ensures { IfOk result (λ image. image ≡ shown_in self.now) }
    {
        Ok(DirectoriesImage {
            names: Vec::from_slice(alloc, &self.names)?,
            subscribers: Vec::from_slice(alloc, &self.subscribers)?,
            // What the subscriptions to each source have heard.
            followed: source_images(alloc, &self.listened)?,
            next: self.next,
        })
    }
}

// The source of the subscription of this serial.
fn find_source(subscribers: &[(SubId, Source)], id: SubId) -> Option<Source>
    ensures { result ≡ source_of id subscribers.now }
{
    for subscriber in subscribers {
        if subscriber.0 == id {
            return Some(subscriber.1);
        }
    }
    None
}

// Takes the subscriber of this serial out, if there is one.
fn drop_subscriber<A: Allocator + Copy>(subscribers: &mut Vec<(SubId, Source), A>, id: SubId)
    ensures { subscribers.new.items ≡ subscribers_without id subscribers.old.items }
{
    if let Some(place) = place_of(subscribers, id) {
        let _gone = subscribers.remove(place);
    }
}

// The place of the subscriber of this serial.
fn place_of(subscribers: &[(SubId, Source)], id: SubId) -> Option<usize>
    ensures place { IfSome result
        (λ place. (place < length subscribers.now)
        × (subscribers_without id subscribers.now
        ≡ take place subscribers.now ++ drop (place + 1) subscribers.now)) }
    ensures none { IfNone result (subscribers_without id subscribers.now ≡ subscribers.now) }
{
    for (place, subscriber) in subscribers.iter().enumerate() {
        if subscriber.0 == id {
            return Some(place);
        }
    }
    None
}
