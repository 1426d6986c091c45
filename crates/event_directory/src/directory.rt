//! One event directory: the subscriptions of a service's events, or of letters that are sent to it.
//! Letters are prepared, which changes nothing that is shown, and then heard.
ghost use Rattle.std.specs.Prelude.{◌≡◌, ◌<◌, ◌++◌, ◌∷◌, [], List, IfOk, OnOk, map, ◌+◌, take, drop, IfSome, IfNone, option_map, length, ◌==◌, ◌≤◌, vec_len, vec_capacity};
ghost use Rattle.event_directory.specs.Sending.{TextSubscription, HaveHeard, after_letter, hits_from, after_letters, hits_from_letters, Prepares, left_without, new_kept_subscription, view_of, kept_without};
ghost use Rattle.event_directory.specs.Views.{list_of_subscription};
ghost use Rattle.event_directory.specs.Stored.{greatest_offset, last_letters, standing_of_stored, stored_of, stored_without};

use crate::finds::Finds;
use crate::hit::Hit;
use crate::image::{SubscriptionImage, images_of};
use crate::pattern::Pattern;
use crate::sub_view::SubView;
use crate::subscription::Subscription;
use crate::subscriptions::{
    any_listens, begin_all, commit_all, greatest_offset, hear_planned_all, plan_all, prepare_all,
};
use s6_events::{Letter, NoMemory, SubId};
use std::alloc::Allocator;
use std::marker::Model;

/// The subscriptions of one event directory, in the order in which they were made, so in rising
/// serial. Page `fifodir`; that they are remembered in memory, and not in a folder of pipes, is
/// chosen here.
///
/// They share one text, in which the text of each live subscription begins somewhere. A letter is
/// heard by adding it, and seeking the pattern of each live subscription in its own text. What
/// comes before all their texts is dropped, and a letter that no live subscription hears is not
/// kept.
///
/// `prepare` takes all memory: it works a step's letters out on drafts of the subscriptions, as a
/// plan. `commit` then hears the plan, and takes none. `send` does both with one letter. A call
/// that is refused memory leaves the earlier plan. The caller limits how many subscriptions there
/// are.
#[derive(Drop)]
pub struct Directory<F: Finds, A: Allocator> {
    pub(crate) subscriptions: Vec<Subscription<F, A>, A>,
    // The letters that are heard, and after them those that are being prepared.
    pub(crate) text: Vec<Letter, A>,
    // How many of these letters are heard.
    pub(crate) heard: usize,
    // Whether there is a plan that was not committed yet.
    pub(crate) is_planned: bool,
    // The letters of that plan.
    pub(crate) planned: Vec<Letter, A>,
}

impl<F: Finds, A: Allocator> Model for Directory<F, A> {
    ghost use Rattle.std.specs.Prelude.{take, ◌-◌, vec_len, vec_capacity};
    ghost use Rattle.event_directory.specs.Stored.{StoredDirectory, IsOneText, all_prepared, all_standing, planned_of};

    ghost Value = { StoredDirectory };

    ghost view = { λ d. record {
      standing = all_standing (take d.heard d.text.items) d.subscriptions.items;
      prepared = all_prepared d.text.items d.subscriptions.items;
      planned = planned_of d.is_planned (take d.heard d.text.items) d.planned.items d.subscriptions.items;
      room = vec_capacity d.subscriptions - vec_len d.subscriptions;
    } };

    ghost invariant = { λ d. IsOneText d.text.items d.heard d.is_planned d.planned.items
        (vec_capacity d.text) d.subscriptions.items };
}

impl<F: Finds, A: Allocator + Copy> Directory<F, A> {
    /// A directory with no subscription, no letter and no plan.
    pub fn new(alloc: A) -> Directory<F, A>
        ensures none { result.standing ≡ [] }
        ensures planned { result.planned ≡ [] }
    {
        Directory {
            subscriptions: Vec::new(alloc),
            text: Vec::new(alloc),
            heard: 0,
            is_planned: false,
            planned: Vec::new(alloc),
        }
    }

    // Subscribes from now on, in a place that was made. For the proof of `join`.
    pub(crate) fn take_in(&mut self, id: SubId, pattern: F, repeats: bool)
        requires { 0 < self.old.room }
        ensures after { self.new.standing ≡
            self.old.standing ++ new_kept_subscription id (F.source pattern) repeats ∷ [] }
        ensures planned { self.new.planned ≡
            self.old.planned ++ new_kept_subscription id (F.source pattern) repeats ∷ [] }
    {
        let alloc = *self.subscriptions.allocator();
        self.subscriptions
            .push_reserved(Subscription::new(alloc, id, pattern, repeats));
    }

    // A directory with no subscription, and a place for one.
    pub(crate) fn with_place(alloc: A) -> Result<Directory<F, A>, NoMemory>
        ensures none { IfOk result (λ d. d.standing ≡ []) }
        ensures room { IfOk result (λ d. 0 < d.room) }
    {
        let mut subscriptions = Vec::new(alloc);
        subscriptions.reserve(1)?;
        Ok(Directory {
            subscriptions,
            text: Vec::new(alloc),
            heard: 0,
            is_planned: false,
            planned: Vec::new(alloc),
        })
    }

    // Makes a place for one more subscription.
    pub(crate) fn reserve(&mut self) -> Result<(), NoMemory>
        ensures room { OnOk result (0 < self.new.room) }
        ensures same { self.new.standing ≡ self.old.standing }
        ensures prepared { self.new.prepared ≡ self.old.prepared }
        ensures planned { self.new.planned ≡ self.old.planned }
    {
        self.subscriptions.reserve(1)?;
        Ok(())
    }

    // Whether there is no subscription.
    pub(crate) fn is_empty(&self) -> bool
        ensures { result ≡ (length self.now.standing == 0) }
    {
        self.subscriptions.is_empty()
    }

    /// Ends the subscription of this serial, if there is one, also in a plan.
    pub fn unsubscribe(&mut self, id: SubId)
        ensures after { self.new.standing ≡ kept_without id self.old.standing }
        ensures planned { self.new.planned ≡ kept_without id self.old.planned }
        ensures hears { (subscribed : List TextSubscription) →
            HaveHeard F.test self.old.standing subscribed →
            HaveHeard F.test self.new.standing (left_without id subscribed) }
    {
        self.leave(id);
    }

    // Ends the subscription of this serial. Where there is no plan, letters that are only prepared
    // are given up, and those that no subscription needs any more are dropped; else the text stays
    // until the plan is committed.
    fn leave(&mut self, id: SubId)
        ensures after { self.new.standing ≡ kept_without id self.old.standing }
        ensures planned { self.new.planned ≡ kept_without id self.old.planned }
    {
        drop_one(&mut self.subscriptions, id);
        if !self.is_planned {
            begin_all(&mut self.subscriptions);
            self.text.truncate(self.heard);
            self.heard = forget(&mut self.text, &self.subscriptions);
        }
    }

    /// What the subscription of this serial has heard, or None where there is none.
    pub fn list(&self, id: SubId) -> Option<SubView<'_>>
        ensures stored { option_map (λ v. (v.letters.now, v.state)) result
            ≡ view_of id self.now.standing }
        ensures defined { (subscribed : List TextSubscription) →
            HaveHeard F.test self.now.standing subscribed →
            option_map (λ v. (v.letters.now, v.state)) result
            ≡ list_of_subscription F.test id subscribed }
    {
        self.stored_view(id)
    }

    // What the subscription of this serial has heard. For the proof of `list`.
    fn stored_view(&self, id: SubId) -> Option<SubView<'_>>
        ensures { option_map (λ v. (v.letters.now, v.state)) result ≡ view_of id self.now.standing }
    {
        let subscription = find(&self.subscriptions, id)?;
        Some(SubView {
            letters: subscription.letters(),
            state: subscription.state(),
        })
    }

    // Begins to prepare: no letter is prepared yet. The text keeps only the letters that are heard.
    pub(crate) fn begin(&mut self)
        ensures prepared { self.new.prepared ≡ self.old.standing }
        ensures same { self.new.standing ≡ self.old.standing }
        ensures planned { self.new.planned ≡ self.old.planned }
        ensures room { self.new.room ≡ self.old.room }
    {
        begin_all(&mut self.subscriptions);
        self.text.truncate(self.heard);
    }

    // Prepares one more letter, and returns the hits that it will give. It is not kept where no
    // subscription listens.
    pub(crate) fn prepare_more(&mut self, letter: Letter) -> Result<Vec<(SubId, Hit), A>, NoMemory>
        ensures hits { IfOk result (λ hits. hits.items
            ≡ hits_from F.test letter self.old.prepared) }
        ensures prepared { OnOk result
            (self.new.prepared ≡ after_letter F.test letter self.old.prepared) }
        ensures same { self.new.standing ≡ self.old.standing }
        ensures planned { self.new.planned ≡ self.old.planned }
        ensures room { self.new.room ≡ self.old.room }
    {
        let alloc = *self.subscriptions.allocator();
        if !any_listens(&self.subscriptions) {
            return Ok(Vec::new(alloc));
        }
        self.text.push(letter)?;
        let hits = prepare_all(alloc, &mut self.subscriptions, &self.text, letter)?;
        Ok(hits)
    }

    // Hears what is prepared, and drops letters that no subscription needs. Then there is no plan.
    pub(crate) fn hear_prepared(&mut self)
        ensures after { self.new.standing ≡ self.old.prepared }
        ensures idle { self.new.planned ≡ self.new.standing }
        ensures room { self.new.room ≡ self.old.room }
    {
        commit_all(&mut self.subscriptions);
        self.is_planned = false;
        self.heard = forget(&mut self.text, &self.subscriptions);
    }
}

impl<A: Allocator + Copy> Directory<Pattern, A> {
    // Its subscriptions as plain data.
    pub(crate) fn images(&self, alloc: A) -> Result<Vec<SubscriptionImage<A>, A>, NoMemory>
        ensures { IfOk result (λ images. images.items ≡ self.now.standing) }
    {
        images_of(alloc, &self.text[..self.heard], &self.subscriptions)
    }
}

// Prepares several letters, and returns the hits that each of them will give.
pub(crate) fn prepare_letters<F: Finds, A: Allocator + Copy>(
    directory: &mut Directory<F, A>,
    letters: &[Letter],
) -> Result<Vec<Vec<(SubId, Hit), A>, A>, NoMemory>
    ensures hits { IfOk result (λ hits. map (λ v. v.items) hits.items ≡
        hits_from_letters F.test letters.now directory.old.prepared) }
    ensures prepared { OnOk result
        (directory.new.prepared ≡ after_letters F.test letters.now directory.old.prepared) }
    ensures same { directory.new.standing ≡ directory.old.standing }
    ensures planned { directory.new.planned ≡ directory.old.planned }
    ensures room { directory.new.room ≡ directory.old.room }
{
    let mut hits = Vec::new(*directory.subscriptions.allocator());
    for letter in letters {
        let one = directory.prepare_more(*letter)?;
        hits.push(one)?;
    }
    Ok(hits)
}

// Drops the first letters, which no live subscription needs, and returns how many are left.
pub(crate) fn forget<F: Finds, A: Allocator + Copy>(
    text: &mut Vec<Letter, A>,
    subscriptions: &[Subscription<F, A>],
) -> usize
    requires { greatest_offset (map standing_of_stored subscriptions.now)
        ≤ length text.old.items }
    ensures text { text.new.items ≡ last_letters result text.old.items }
    ensures left { result ≡ greatest_offset (map standing_of_stored subscriptions.now) }
{
    // How many letters, from the end of the text, live subscriptions need.
    let left = greatest_offset(subscriptions);
    let gone = text.len() - left;
    drop_front(text, gone);
    left
}

// A copy of the letters of a text after the first `heard` ones.
pub(crate) fn copy_after<A: Allocator + Copy>(
    alloc: A,
    text: &[Letter],
    heard: usize,
) -> Result<Vec<Letter, A>, NoMemory>
    requires { heard ≤ length text.now }
    ensures { IfOk result (λ letters. letters.items ≡ drop heard text.now) }
{
    let mut letters = Vec::new(alloc);
    letters.extend_from_slice(&text[heard..])?;
    Ok(letters)
}

// Puts these letters into a text after the first `heard` ones, in place of others; they fit.
pub(crate) fn put_after<A: Allocator + Copy>(
    text: &mut Vec<Letter, A>,
    heard: usize,
    letters: &[Letter],
)
    requires there { heard ≤ vec_len text.old }
    requires room { heard + length letters.now ≤ vec_capacity text.old }
    ensures { text.new.items ≡ take heard text.old.items ++ letters.now }
{
    text.truncate(heard);
    text.extend_from_slice(letters).unwrap();
}

// Drops the first `gone` letters of a text.
fn drop_front<A: Allocator + Copy>(text: &mut Vec<Letter, A>, gone: usize)
    requires { gone ≤ vec_len text.old }
    ensures { text.new.items ≡ drop gone text.old.items }
{
    let _gone = text.drain(..gone);
}

// Takes the subscription of this serial out, if there is one.
fn drop_one<F: Finds, A: Allocator + Copy>(
    subscriptions: &mut Vec<Subscription<F, A>, A>,
    id: SubId,
)
    ensures { subscriptions.new.items ≡ stored_without id subscriptions.old.items }
{
    if let Some(place) = place_of(subscriptions, id) {
        let _gone = subscriptions.remove(place);
    }
}

// The place of the subscription of this serial.
fn place_of<F: Finds, A: Allocator + Copy>(
    subscriptions: &[Subscription<F, A>],
    id: SubId,
) -> Option<usize>
    ensures place { IfSome result
        (λ place. (place < length subscriptions.now)
        × (stored_without id subscriptions.now
        ≡ take place subscriptions.now ++ drop (place + 1) subscriptions.now)) }
    ensures none { IfNone result (stored_without id subscriptions.now ≡ subscriptions.now) }
{
    for (place, s) in subscriptions.iter().enumerate() {
        if s.id() == id {
            return Some(place);
        }
    }
    None
}

// The subscription of this serial.
fn find<F: Finds, A: Allocator + Copy>(
    subscriptions: &[Subscription<F, A>],
    id: SubId,
) -> Option<&Subscription<F, A>>
    ensures { option_map (λ s. s.now) result ≡ stored_of id subscriptions.now }
{
    for s in subscriptions {
        if s.id() == id {
            return Some(s);
        }
    }
    None
}
