//! The letters of a step, one after the other, each prepared in its directory (its source is a
//! service or a free directory). What a letter gives one subscription is in `subscription.rt`.
ghost use Rattle.std.specs.Prelude.{◌≡◌, ◌++◌, OnOk, map, true};
ghost use Rattle.std.specs.List.{list_all};
ghost use Rattle.s6_events.specs.Letter.{is_letter};
ghost use Rattle.event_directory.specs.Hearing.{heard_more, heard_moment, heard_moments, heard_message, hits_of_moment, hits_of_moments, hits_of_message};
ghost use Rattle.event_directory.specs.Parts.{followed_of, followed_after, room_of};
ghost use Rattle.event_directory.specs.Remembered.{kept_at};
ghost use Rattle.event_directory.specs.Sending.{hits_from};
ghost use Rattle.event_directory.specs.declared.source.Source.TheVariants.{Directory};

use crate::finds::Finds;
use crate::hit::Hit;
use crate::listened::hear;
use crate::source::Source;
use crate::source_directory::SourceDirectory;
use s6_events::{Letter, Moment, Name, NoMemory, SubId};
use std::alloc::Allocator;

// Prepares one more moment: where it is a mark of a service, its letter for the subscriptions to
// that service. Adds the hits that it will give to `matches`.
fn hear_moment<F: Finds, A: Allocator + Copy>(
    listened: &mut [SourceDirectory<F, A>],
    moment: Moment,
    matches: &mut Vec<(SubId, Hit), A>,
) -> Result<(), NoMemory>
    ensures same { map followed_of listened.new ≡ map followed_of listened.old }
    ensures rooms { map room_of listened.new ≡ map room_of listened.old }
    ensures prepared { OnOk result
        (map followed_after listened.new
        ≡ heard_moment F.test moment (map followed_after listened.old)) }
    ensures matches { OnOk result
        (matches.new.items ≡ matches.old.items
        ++ hits_of_moment F.test moment (map followed_after listened.old)) }
{
    match moment {
        // A clock reading is no letter.
        Moment::Clock(_) => Ok(()),
        Moment::Event(sid, mark) => hear(listened, Source::Service(sid), mark.letter(), matches),
    }
}

/// Prepares these moments, and adds the hits that they will give to `matches`.
pub fn hear_moments<F: Finds, A: Allocator + Copy>(
    listened: &mut [SourceDirectory<F, A>],
    moments: &[Moment],
    matches: &mut Vec<(SubId, Hit), A>,
) -> Result<(), NoMemory>
    ensures same { map followed_of listened.new ≡ map followed_of listened.old }
    ensures rooms { map room_of listened.new ≡ map room_of listened.old }
    ensures prepared { OnOk result
        (map followed_after listened.new
        ≡ heard_moments F.test moments.now (map followed_after listened.old)) }
    ensures matches { OnOk result
        (matches.new.items ≡ matches.old.items
        ++ hits_of_moments F.test moments.now (map followed_after listened.old)) }
{
    for moment in moments {
        hear_moment(listened, *moment, matches)?;
    }
    Ok(())
}

// Prepares one more letter, sent to the free directory of this name, and adds the hits that it will
// give to `matches`.
fn hear_byte<F: Finds, A: Allocator + Copy>(
    listened: &mut [SourceDirectory<F, A>],
    name: Name,
    byte: u8,
    matches: &mut Vec<(SubId, Hit), A>,
) -> Result<(), NoMemory>
    requires { is_letter byte ≡ true }
    ensures same { map followed_of listened.new ≡ map followed_of listened.old }
    ensures rooms { map room_of listened.new ≡ map room_of listened.old }
    ensures prepared { OnOk result
        (map followed_after listened.new
        ≡ heard_more F.test (Directory name) byte (map followed_after listened.old)) }
    ensures matches { OnOk result
        (matches.new.items ≡ matches.old.items
        ++ hits_from F.test byte (kept_at (Directory name) (map followed_after listened.old))) }
{
    match Letter::new(byte) {
        Some(letter) => hear(listened, Source::Directory(name), letter, matches),
        // A message has no byte that is not a letter.
        None => unreachable!(),
    }
}

/// Prepares these letters, sent to the free directory of this name, and adds the hits that they
/// will give to `matches`.
pub fn hear_letters<F: Finds, A: Allocator + Copy>(
    listened: &mut [SourceDirectory<F, A>],
    name: Name,
    bytes: &[u8],
    matches: &mut Vec<(SubId, Hit), A>,
) -> Result<(), NoMemory>
    requires { list_all is_letter bytes.now ≡ true }
    ensures same { map followed_of listened.new ≡ map followed_of listened.old }
    ensures rooms { map room_of listened.new ≡ map room_of listened.old }
    ensures prepared { OnOk result
        (map followed_after listened.new
        ≡ heard_message F.test name bytes.now (map followed_after listened.old)) }
    ensures matches { OnOk result
        (matches.new.items ≡ matches.old.items
        ++ hits_of_message F.test name bytes.now (map followed_after listened.old)) }
{
    for byte in bytes {
        hear_byte(listened, name, *byte, matches)?;
    }
    Ok(())
}
