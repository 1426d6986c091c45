//! The event directory of one source (a service, or a free directory) that is listened to. Letters
//! are first prepared, which changes nothing that is shown, then heard.
ghost use Rattle.std.specs.Prelude.{◌≡◌, ◌<◌, ◌++◌, ◌∷◌, ◌==◌, [], IfOk, OnOk, length, option_map};
ghost use Rattle.event_directory.specs.Directories.{is_same_source};
ghost use Rattle.event_directory.specs.Parts.{followed_of};
ghost use Rattle.event_directory.specs.Sending.{after_letter, hits_from, new_kept_subscription, view_of, kept_without};

use crate::directory::Directory;
use crate::finds::Finds;
use crate::hit::Hit;
use crate::image::SourceImage;
use crate::pattern::Pattern;
use crate::source::{Source, same_source};
use crate::sub_view::SubView;
use s6_events::{Letter, NoMemory, SubId};
use std::alloc::Allocator;
use std::marker::Model;

/// The event directory of a source that is listened to.
#[derive(Drop)]
pub struct SourceDirectory<F: Finds, A: Allocator> {
    source: Source,
    directory: Directory<F, A>,
}

impl<F: Finds, A: Allocator> Model for SourceDirectory<F, A> {
    ghost use Rattle.event_directory.specs.Parts.{Listened};

    ghost Value = { Listened };

    ghost view = { λ d. record { source = d.source; kept = d.directory } };
}

impl<F: Finds, A: Allocator + Copy> SourceDirectory<F, A> {
    /// The directory of this source, with no subscription, and a place for one.
    pub fn with_place(alloc: A, source: Source) -> Result<SourceDirectory<F, A>, NoMemory>
        ensures source { IfOk result (λ d. d.source ≡ source) }
        ensures none { IfOk result (λ d. d.kept.standing ≡ []) }
        ensures room { IfOk result (λ d. 0 < d.kept.room) }
    {
        let directory = Directory::with_place(alloc)?;
        Ok(SourceDirectory { source, directory })
    }

    /// Its source.
    pub fn source(&self) -> Source
        ensures { result ≡ self.now.source }
    {
        self.source
    }

    /// Whether it is the one of this source.
    pub fn is_of(&self, source: Source) -> bool
        ensures { result ≡ is_same_source source self.now.source }
    {
        same_source(source, self.source)
    }

    /// Begins to prepare: no letter is prepared yet.
    pub fn begin(&mut self)
        ensures source { self.new.source ≡ self.old.source }
        ensures prepared { self.new.kept.prepared ≡ self.old.kept.standing }
        ensures same { self.new.kept.standing ≡ self.old.kept.standing }
        ensures room { self.new.kept.room ≡ self.old.kept.room }
    {
        self.directory.begin();
    }

    /// Prepares one more letter, and returns the hits (matches of subscriptions) that it will give
    /// once it is heard.
    pub fn prepare_more(&mut self, letter: Letter) -> Result<Vec<(SubId, Hit), A>, NoMemory>
        ensures source { self.new.source ≡ self.old.source }
        ensures hits { IfOk result (λ hits. hits.items
            ≡ hits_from F.test letter self.old.kept.prepared) }
        ensures prepared { OnOk result
            (self.new.kept.prepared ≡ after_letter F.test letter self.old.kept.prepared) }
        ensures same { self.new.kept.standing ≡ self.old.kept.standing }
        ensures room { self.new.kept.room ≡ self.old.kept.room }
    {
        self.directory.prepare_more(letter)
    }

    /// Hears what was prepared: each subscription becomes what it was worked out to be.
    pub fn hear_prepared(&mut self)
        ensures source { self.new.source ≡ self.old.source }
        ensures after { self.new.kept.standing ≡ self.old.kept.prepared }
        ensures room { self.new.kept.room ≡ self.old.kept.room }
    {
        self.directory.hear_prepared();
    }

    /// Makes a place for one more subscription.
    pub fn reserve(&mut self) -> Result<(), NoMemory>
        ensures source { self.new.source ≡ self.old.source }
        ensures room { OnOk result (0 < self.new.kept.room) }
        ensures same { self.new.kept.standing ≡ self.old.kept.standing }
        ensures prepared { self.new.kept.prepared ≡ self.old.kept.prepared }
    {
        self.directory.reserve()
    }

    /// Subscribes from now on, in a place that was made.
    pub fn take_in(&mut self, id: SubId, pattern: F, repeats: bool)
        requires { 0 < self.old.kept.room }
        ensures source { self.new.source ≡ self.old.source }
        ensures after { self.new.kept.standing
            ≡ self.old.kept.standing ++ new_kept_subscription id (F.source pattern) repeats ∷ [] }
    {
        self.directory.take_in(id, pattern, repeats);
    }

    /// Ends the subscription of this serial, if there is one, and returns whether no subscription
    /// is left.
    pub fn unsubscribe(&mut self, id: SubId) -> bool
        ensures source { self.new.source ≡ self.old.source }
        ensures after { self.new.kept.standing ≡ kept_without id self.old.kept.standing }
        ensures none_left { result ≡ (length self.new.kept.standing == 0) }
    {
        self.directory.unsubscribe(id);
        self.directory.is_empty()
    }

    /// What the subscription of this serial has heard.
    pub fn list(&self, id: SubId) -> Option<SubView<'_>>
        ensures { option_map (λ v. (v.letters.now, v.state)) result
            ≡ view_of id self.now.kept.standing }
    {
        self.directory.list(id)
    }
}

impl<A: Allocator + Copy> SourceDirectory<Pattern, A> {
    /// Its source and its subscriptions as plain data.
    pub fn image(&self, alloc: A) -> Result<SourceImage<A>, NoMemory>
        ensures { IfOk result (λ image. image ≡ followed_of self.now) }
    {
        let standing = self.directory.images(alloc)?;
        Ok(SourceImage {
            source: self.source,
            standing,
        })
    }
}
