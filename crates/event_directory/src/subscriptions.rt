//! All subscriptions of one directory. Each has two drafts of what it will be: after the letters
//! that are being prepared, and after those of a plan that waits to be committed.
ghost use Rattle.std.specs.Prelude.{◌≡◌, ◌<◌, ◌≤◌, IfOk, OnOk, length, map};
ghost use Rattle.std.specs.List.{filter_map, list_any};
ghost use Rattle.event_directory.specs.SubscriberList.{is_live};
ghost use Rattle.event_directory.specs.Stored.{greatest_offset, hit_of_reader, next_reader, planned_standing, prepared_standing, standing_of_stored};

use crate::finds::Finds;
use crate::hit::Hit;
use crate::subscription::Subscription;
use s6_events::{Letter, NoMemory, SubId};
use std::alloc::Allocator;

/// Begins to prepare in each subscription: no letter is prepared yet.
pub fn begin_all<F: Finds, A: Allocator + Copy>(subscriptions: &mut [Subscription<F, A>])
    ensures same { map standing_of_stored subscriptions.new
        ≡ map standing_of_stored subscriptions.old }
    ensures planned { map planned_standing subscriptions.new
        ≡ map planned_standing subscriptions.old }
    ensures prepared { map prepared_standing subscriptions.new
        ≡ map standing_of_stored subscriptions.old }
{
    for subscription in subscriptions.iter_mut() {
        subscription.begin();
    }
}

/// How many letters, from the end of the text, the subscriptions need: none of them needs the
/// letters before these.
pub fn greatest_offset<F: Finds, A: Allocator + Copy>(subscriptions: &[Subscription<F, A>]) -> usize
    ensures { result ≡ greatest_offset (map standing_of_stored subscriptions.now) }
{
    let mut greatest = 0;
    for subscription in subscriptions {
        greatest = subscription.live_offset().max(greatest);
    }
    greatest
}

/// Whether some subscription looks at the next letter that is prepared.
pub fn any_listens<F: Finds, A: Allocator + Copy>(subscriptions: &[Subscription<F, A>]) -> bool
    ensures { result ≡ list_any (λ s. is_live s.prepared.state) subscriptions.now }
{
    subscriptions
        .iter()
        .any(|subscription| subscription.listens())
}

/// Prepares `letter`, the last one of `text`: it is worked out what each subscription will have
/// heard. Returns the hits (matches) that it will give, in the order of the subscriptions.
pub fn prepare_all<F: Finds, A: Allocator + Copy>(
    alloc: A,
    subscriptions: &mut [Subscription<F, A>],
    text: &[Letter],
    letter: Letter,
) -> Result<Vec<(SubId, Hit), A>, NoMemory>
    requires { greatest_offset (map prepared_standing subscriptions.old) < length text.now }
    ensures same { map standing_of_stored subscriptions.new
        ≡ map standing_of_stored subscriptions.old }
    ensures planned { map planned_standing subscriptions.new
        ≡ map planned_standing subscriptions.old }
    ensures within { greatest_offset (map prepared_standing subscriptions.new) ≤ length text.now }
    ensures next { OnOk result (map prepared_standing subscriptions.new
        ≡ map (next_reader F.test letter text.now) (map prepared_standing subscriptions.old)) }
    ensures hits { IfOk result (λ hits. hits.items
        ≡ filter_map (hit_of_reader F.test letter text.now)
        (map prepared_standing subscriptions.old)) }
{
    let mut hits = Vec::new(alloc);
    for subscription in subscriptions.iter_mut() {
        match subscription.prepare_hit(text, letter)? {
            Some(hit) => hits.push((subscription.id(), hit))?,
            None => {}
        }
    }
    Ok(hits)
}

// Exchanges what is prepared and what is planned, in each subscription.
fn exchange_all<F: Finds, A: Allocator + Copy>(subscriptions: &mut [Subscription<F, A>])
    ensures same { map standing_of_stored subscriptions.new
        ≡ map standing_of_stored subscriptions.old }
    ensures prepared { map prepared_standing subscriptions.new
        ≡ map planned_standing subscriptions.old }
    ensures planned { map planned_standing subscriptions.new
        ≡ map prepared_standing subscriptions.old }
{
    for subscription in subscriptions.iter_mut() {
        subscription.exchange();
    }
}

/// What was prepared becomes the plan, and nothing is prepared: the drafts are exchanged, and that
/// of the preparation begins anew.
pub fn plan_all<F: Finds, A: Allocator + Copy>(subscriptions: &mut [Subscription<F, A>])
    ensures same { map standing_of_stored subscriptions.new
        ≡ map standing_of_stored subscriptions.old }
    ensures planned { map planned_standing subscriptions.new
        ≡ map prepared_standing subscriptions.old }
    ensures prepared { map prepared_standing subscriptions.new
        ≡ map standing_of_stored subscriptions.old }
{
    exchange_all(subscriptions);
    begin_all(subscriptions);
}

/// Hears what was planned: the drafts are exchanged, so that the plan stands as what is prepared,
/// and that is heard.
pub fn hear_planned_all<F: Finds, A: Allocator + Copy>(subscriptions: &mut [Subscription<F, A>])
    ensures standing { map standing_of_stored subscriptions.new
        ≡ map planned_standing subscriptions.old }
    ensures prepared { map prepared_standing subscriptions.new
        ≡ map planned_standing subscriptions.old }
{
    exchange_all(subscriptions);
    commit_all(subscriptions);
}

/// Hears what was prepared: each subscription becomes what its draft says; what was planned is
/// forgotten.
pub fn commit_all<F: Finds, A: Allocator + Copy>(subscriptions: &mut [Subscription<F, A>])
    ensures standing { map standing_of_stored subscriptions.new
        ≡ map prepared_standing subscriptions.old }
    ensures prepared { map prepared_standing subscriptions.new
        ≡ map prepared_standing subscriptions.old }
{
    for subscription in subscriptions.iter_mut() {
        subscription.commit();
    }
}
