//! All event directories that are listened to (they have a subscription), each with its source: a
//! service, or a free directory. Letters are first prepared, which changes nothing that is shown,
//! then heard.
ghost use Rattle.std.specs.Prelude.{◌≡◌, ◌<◌, ◌++◌, IfOk, OnOk, map, option_map, true, false};
ghost use Rattle.std.specs.List.{position};
ghost use Rattle.event_directory.specs.Directories.{is_same_source};
ghost use Rattle.event_directory.specs.Hearing.{heard_more};
ghost use Rattle.event_directory.specs.Parts.{followed_of, followed_after, room_of, room_at, IsAbsent, AreDistinct};
ghost use Rattle.event_directory.specs.Register.{without_subscription_at};
ghost use Rattle.event_directory.specs.Remembered.{kept_at, with_subscription_at};
ghost use Rattle.event_directory.specs.Sending.{hits_from, new_kept_subscription, view_of};

use crate::finds::Finds;
use crate::hit::Hit;
use crate::source::Source;
use crate::source_directory::SourceDirectory;
use crate::sub_view::SubView;
use s6_events::{Letter, NoMemory, SubId};
use std::alloc::Allocator;

/// Begins to prepare in each directory: no letter is prepared yet.
pub fn begin_each<F: Finds, A: Allocator + Copy>(listened: &mut [SourceDirectory<F, A>])
    ensures same { map followed_of listened.new ≡ map followed_of listened.old }
    ensures prepared { map followed_after listened.new ≡ map followed_of listened.old }
    ensures rooms { map room_of listened.new ≡ map room_of listened.old }
{
    for directory in listened.iter_mut() {
        directory.begin();
    }
}

/// Hears what was prepared in each directory.
pub fn commit_each<F: Finds, A: Allocator + Copy>(listened: &mut [SourceDirectory<F, A>])
    ensures after { map followed_of listened.new ≡ map followed_after listened.old }
    ensures rooms { map room_of listened.new ≡ map room_of listened.old }
{
    for directory in listened.iter_mut() {
        directory.hear_prepared();
    }
}

// The place of the directory of this source.
fn place_in<F: Finds, A: Allocator + Copy>(
    listened: &[SourceDirectory<F, A>],
    source: Source,
) -> Option<usize>
    ensures { result ≡ position (λ l. is_same_source source l.source) listened.now }
{
    listened
        .iter()
        .position(|directory| directory.is_of(source))
}

/// Prepares one more letter of this source, and adds the hits (matches of subscriptions) that it
/// will give to `matches`.
pub fn hear<F: Finds, A: Allocator + Copy>(
    listened: &mut [SourceDirectory<F, A>],
    source: Source,
    letter: Letter,
    matches: &mut Vec<(SubId, Hit), A>,
) -> Result<(), NoMemory>
    ensures same { map followed_of listened.new ≡ map followed_of listened.old }
    ensures rooms { map room_of listened.new ≡ map room_of listened.old }
    ensures prepared { OnOk result
        (map followed_after listened.new
        ≡ heard_more F.test source letter (map followed_after listened.old)) }
    ensures matches { OnOk result
        (matches.new.items ≡ matches.old.items
        ++ hits_from F.test letter (kept_at source (map followed_after listened.old))) }
{
    match place_in(listened, source) {
        Some(place) => {
            let hits = listened[place].prepare_more(letter)?;
            matches.extend_from_slice(&hits)?;
        }
        // Nobody has subscribed to this source.
        None => {}
    }
    Ok(())
}

/// Makes a place for one more subscription in the directory of this source. Returns whether the
/// source has a directory: one without a subscription has none.
pub fn reserve_at<F: Finds, A: Allocator + Copy>(
    listened: &mut [SourceDirectory<F, A>],
    source: Source,
) -> Result<bool, NoMemory>
    ensures same { map followed_of listened.new ≡ map followed_of listened.old }
    ensures prepared { map followed_after listened.new ≡ map followed_after listened.old }
    ensures place { IfOk result (λ there. there ≡ true
        → 0 < room_at source (map room_of listened.new)) }
    ensures absent { IfOk result
        (λ there. there ≡ false → IsAbsent source (map (λ l. l.source) listened.new)) }
{
    match place_in(listened, source) {
        Some(place) => {
            listened[place].reserve()?;
            Ok(true)
        }
        None => Ok(false),
    }
}

/// Subscribes from now on to this source, in a place that was made.
pub fn take_in_at<F: Finds, A: Allocator + Copy>(
    listened: &mut [SourceDirectory<F, A>],
    source: Source,
    id: SubId,
    pattern: F,
    repeats: bool,
)
    requires { 0 < room_at source (map room_of listened.old) }
    ensures after { map followed_of listened.new
        ≡ with_subscription_at source (new_kept_subscription id (F.source pattern) repeats)
        (map followed_of listened.old) }
    ensures sources { map (λ l. l.source) listened.new ≡ map (λ l. l.source) listened.old }
{
    match place_in(listened, source) {
        Some(place) => listened[place].take_in(id, pattern, repeats),
        // `reserve_at` found this directory when the place was made, and it stays while it has a
        // subscription.
        None => unreachable!(),
    }
}

/// Ends the subscription of this serial and this source, if there is one. Where the source has no
/// subscription left, its directory is dropped.
pub fn leave_at<F: Finds, A: Allocator + Copy>(
    listened: &mut Vec<SourceDirectory<F, A>, A>,
    source: Source,
    id: SubId,
)
    requires { AreDistinct (map (λ l. l.source) listened.old.items) }
    ensures after { map followed_of listened.new.items
        ≡ without_subscription_at id source (map followed_of listened.old.items) }
    ensures distinct { AreDistinct (map (λ l. l.source) listened.new.items) }
{
    match place_in(listened, source) {
        Some(place) => {
            // `unsubscribe` tells whether the directory has no subscription left.
            let none_left = listened[place].unsubscribe(id);
            if none_left {
                let _gone = listened.remove(place);
            }
        }
        // The source has no directory, so that there is no such subscription.
        None => {}
    }
}

/// What the subscription of this serial and this source has heard; None where there is none.
pub fn list_at<F: Finds, A: Allocator + Copy>(
    listened: &[SourceDirectory<F, A>],
    source: Source,
    id: SubId,
) -> Option<SubView<'_>>
    ensures { option_map (λ v. (v.letters.now, v.state)) result
        ≡ view_of id (kept_at source (map followed_of listened.now)) }
{
    let place = place_in(listened, source)?;
    listened[place].list(id)
}
