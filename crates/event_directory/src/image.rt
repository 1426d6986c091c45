//! The event directories as plain data.
ghost use Rattle.std.specs.Prelude.{◌≡◌, IfOk, map};
ghost use Rattle.event_directory.specs.Parts.{followed_of};
ghost use Rattle.event_directory.specs.Stored.{all_standing, kept_in};

use crate::pattern::Pattern;
use crate::source::Source;
use crate::source_directory::SourceDirectory;
use crate::sub_view::State;
use crate::subscription::Subscription;
use s6_events::{Letter, Name, NoMemory, SubId};
use std::alloc::Allocator;
use std::marker::Model;

/// A subscription as plain data: the text of its pattern, the letters at which its texts matched,
/// and those since its last match while it is live.
#[derive(Drop)]
pub struct SubscriptionImage<A: Allocator> {
    pub id: SubId,
    pub pattern: String<A>,
    pub repeats: bool,
    pub letters: Vec<Letter, A>,
    pub state: State,
    pub text: Vec<Letter, A>,
}

impl<A: Allocator> Model for SubscriptionImage<A> {
    ghost use Rattle.std.specs.Prelude.{string_bytes};
    ghost use Rattle.event_directory.specs.Sending.{KeptSubscription};

    ghost Value = { KeptSubscription };

    ghost view = { λ s. record {
      id = s.id;
      pattern = string_bytes s.pattern;
      repeats = s.repeats;
      heard = record { letters = s.letters.items; state = s.state; text = s.text.items };
    } };
}

/// The subscriptions of one source as plain data, in rising serial.
#[derive(Drop)]
pub struct SourceImage<A: Allocator> {
    pub source: Source,
    /// Its subscriptions, in rising serial.
    pub standing: Vec<SubscriptionImage<A>, A>,
}

impl<A: Allocator> Model for SourceImage<A> {
    ghost use Rattle.event_directory.specs.Remembered.{Followed};

    ghost Value = { Followed };

    ghost view = { λ s. record { source = s.source; standing = s.standing.items } };
}

/// All event directories as plain data: the names of the free ones, the serial and the source of
/// each subscription, what the subscriptions of each source have heard, and the next serial. A
/// clause sees it as what the directories show.
#[derive(Drop)]
pub struct DirectoriesImage<A: Allocator> {
    pub names: Vec<Name, A>,
    pub subscribers: Vec<(SubId, Source), A>,
    pub followed: Vec<SourceImage<A>, A>,
    pub next: u64,
}

impl<A: Allocator> Model for DirectoriesImage<A> {
    ghost use Rattle.event_directory.specs.Remembered.{DirectoriesShown};

    ghost Value = { DirectoriesShown };

    ghost view = { λ d. record {
      names = d.names.items;
      subscribers = d.subscribers.items;
      followed = d.followed.items;
      next = d.next;
    } };
}

// A subscription as plain data; `text` is that of its directory, of which its own text is the end.
fn image_of<A: Allocator + Copy>(
    alloc: A,
    text: &[Letter],
    subscription: &Subscription<Pattern, A>,
) -> Result<SubscriptionImage<A>, NoMemory>
    ensures { IfOk result (λ image. image ≡ kept_in text.now subscription.now.standing) }
{
    Ok(SubscriptionImage {
        id: subscription.id(),
        pattern: String::from_str(alloc, subscription.pattern().text())?,
        repeats: subscription.repeats(),
        letters: Vec::from_slice(alloc, subscription.letters())?,
        state: subscription.state(),
        text: Vec::from_slice(alloc, subscription.text_in(text))?,
    })
}

/// The subscriptions of a directory as plain data; `text` is that of the directory.
pub fn images_of<A: Allocator + Copy>(
    alloc: A,
    text: &[Letter],
    subscriptions: &[Subscription<Pattern, A>],
) -> Result<Vec<SubscriptionImage<A>, A>, NoMemory>
    ensures { IfOk result (λ images. images.items ≡ all_standing text.now subscriptions.now) }
{
    let mut images = Vec::new(alloc);
    for subscription in subscriptions {
        images.push(image_of(alloc, text, subscription)?)?;
    }
    Ok(images)
}

/// The subscriptions of all sources (services and free directories that are listened to) as plain
/// data.
pub fn source_images<A: Allocator + Copy>(
    alloc: A,
    listened: &[SourceDirectory<Pattern, A>],
) -> Result<Vec<SourceImage<A>, A>, NoMemory>
    ensures { IfOk result (λ images. images.items ≡ map followed_of listened.now) }
{
    let mut images = Vec::new(alloc);
    for directory in listened {
        images.push(directory.image(alloc)?)?;
    }
    Ok(images)
}
