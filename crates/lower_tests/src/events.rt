//! Names, letters, actors, moments and histories by their public calls.
ghost use Rattle.std.specs.Prelude.{◌≡◌, ◌<◌, []};

use crate::shared::new_heap;
use s6_events::{Actor, At, History, Letter, Mark, Moment, Name, NoMemory, Sid};
use std::alloc::{Allocator, Global};
use std::process::Abort;

const LAST_MOMENT: u64 = 1_000_000_000_000_000;

// The number of the moment one millisecond later, of the actor, and of the letter, where there is
// one.
fn after(millis: u64) -> Option<u64> {
    Some(At::new(millis)?.later(1))
}

fn actor(number: u8) -> Option<u8> {
    Some(Actor::new(number)?.number())
}

fn letter(byte: u8) -> Option<u8> {
    Some(Letter::new(byte)?.byte())
}

#[test]
fn moments_actors_and_letters_have_their_limits(rt: HostRuntime) {
    let moments = (after(LAST_MOMENT), after(LAST_MOMENT + 1));
    let actors = (actor(15), actor(16));
    let letters = [letter(0x20), letter(0x21), letter(0x7e), letter(0x7f)];
    let found = (At::zero().millis(), moments, actors, letters);
    let shown = [None, Some(0x21), Some(0x7e), None];
    let wanted = (0, (Some(LAST_MOMENT + 1), None), (Some(15), None), shown);
    assert_eq!(rt; found, wanted);
}

#[test]
fn marks_have_the_letters_of_the_page(rt: HostRuntime) {
    let letters = [
        Mark::SupervisorStarted.letter().byte(),
        Mark::Spawned.letter().byte(),
        Mark::Ready.letter().byte(),
        Mark::Died.letter().byte(),
        Mark::FinishDone.letter().byte(),
        Mark::PermanentFailure.letter().byte(),
        Mark::SupervisorEnded.letter().byte(),
    ];
    assert_eq!(rt; letters, *b"suUdDOx");
}

// A text makes a name of its bytes, or none.
fn makes_a_name(rt: &impl Abort, text: &[u8], is_name: bool) {
    let is_made = match Name::new(text) {
        Some(name) => name.as_bytes() == text,
        None => false,
    };
    assert_eq!(rt; is_made, is_name, "{text:?}");
}

#[test]
fn takes_names_of_its_alphabet(rt: HostRuntime) {
    let names = [b"web".as_slice(), b"A-z_0.9@", &[b'a'; 64]];
    for text in names {
        makes_a_name(&rt, text, true);
    }
    let others = [
        b"".as_slice(),
        b".x",
        b"a:b",
        b"a b",
        b"a/b",
        b"\xc3\xa9",
        &[b'a'; 65],
    ];
    for text in others {
        makes_a_name(&rt, text, false);
    }
}

#[test]
fn orders_names_by_their_bytes(rt: HostRuntime) {
    let upper = Name::new(b"B").expect(&rt, "B");
    let lower = Name::new(b"a").expect(&rt, "a");
    let longer = Name::new(b"a0").expect(&rt, "a0");
    let found = [
        upper < lower,
        lower < longer,
        lower == lower,
        lower == longer,
    ];
    assert_eq!(rt; found, [true, true, true, false]);
}

const FIRST: Moment = Moment::Event(Sid(1), Mark::SupervisorStarted);

const SECOND: Moment = Moment::Event(Sid(1), Mark::Spawned);

const THIRD: Moment = Moment::Event(Sid(1), Mark::Died);

// From this place on the history has these moments, or it has no such place.
fn wants_from<R: Abort>(rt: &R, history: &History<Global>, place: u64, wanted: Option<&[Moment]>) {
    assert_eq!(rt; history.from(place), wanted, "from {place}");
}

// The history has so many places.
fn wants_places<R: Abort>(rt: &R, history: &History<Global>, wanted: u64) {
    assert_eq!(rt; (history.len(), history.is_empty()), (wanted, wanted == 0));
}

// Prepares these moments, which shows nothing, and makes them.
fn push_all<R: Abort>(rt: &R, alloc: Global, history: &mut History<Global>, moments: &[Moment]) {
    let before = history.len();
    assert!(rt; before < 9 && moments.len() < 9);
    let moments = moments.to_vec(alloc).expect(rt, "memory");
    let plan = history.prepare(moments).expect(rt, "memory");
    wants_places(rt, history, before);
    history.commit(plan);
}

#[test]
fn a_history_is_the_list_of_its_pushes(rt: HostRuntime) {
    let mut history = History::new(rt.alloc());
    wants_places(&rt, &history, 0);
    history.push(FIRST).expect(&rt, "memory");
    wants_places(&rt, &history, 1);
    push_all(&rt, rt.alloc(), &mut history, &[SECOND, THIRD]);
    wants_places(&rt, &history, 3);
    wants_from(&rt, &history, 0, Some(&[FIRST, SECOND, THIRD]));
    wants_from(&rt, &history, 2, Some(&[THIRD]));
    wants_from(&rt, &history, 3, Some(&[]));
    wants_from(&rt, &history, 4, None);
}

#[test]
fn forgotten_places_of_the_history(rt: HostRuntime) {
    let mut history = History::new(rt.alloc());
    let moments = [FIRST, SECOND, THIRD, FIRST, SECOND];
    push_all(&rt, rt.alloc(), &mut history, &moments);
    history.forget(3);
    wants_from(&rt, &history, 3, Some(&[FIRST, SECOND]));
    wants_from(&rt, &history, 5, Some(&[]));
    wants_from(&rt, &history, 2, None);
    wants_from(&rt, &history, 6, None);
    wants_places(&rt, &history, 5);
    history.forget(2);
    wants_from(&rt, &history, 3, Some(&[FIRST, SECOND]));
    history.forget(9);
    wants_from(&rt, &history, 4, None);
    wants_from(&rt, &history, 5, Some(&[]));
    wants_places(&rt, &history, 5);
}

// Pushes a moment and then nine more, as far as memory goes.
fn push_ten<A: Allocator + Copy>(alloc: A, history: &mut History<A>) -> Result<(), NoMemory>
    requires forgotten { history.old.forgotten ≡ 0 }
    requires kept { history.old.kept ≡ [] }
{
    history.push(FIRST)?;
    let moments = Vec::from_slice(alloc, &[SECOND; 9])?;
    let plan = history.prepare(moments)?;
    history.commit(plan);
    Ok(())
}

// How many are in the history then.
fn pushed<A: Allocator + Copy>(alloc: A) -> u64 {
    let mut history = History::new(alloc);
    let _told = push_ten(alloc, &mut history);
    history.len()
}

// On heaps of a growing size each growth is the first one refused; then the history is as it was.
#[test]
fn a_refused_growth_changes_nothing(rt: HostRuntime) {
    let mut seen = [0u32; 3];
    for step in 0..120usize {
        let stage = stage_of(&rt, pushed(&new_heap(&rt, rt.alloc(), 16 * step)));
        seen[stage] = seen[stage].saturating_add(1);
    }
    assert!(rt; seen[0] > 1 && seen[1] > 1 && seen[2] > 1, "{seen:?}");
}

// How many of the two pushes were made, by the count of moments.
fn stage_of<R: Abort>(rt: &R, count: u64) -> usize
    ensures { result < 3 }
{
    match count {
        0 => 0,
        1 => 1,
        _ => {
            assert_eq!(rt; count, 10, "a part of the pushes");
            2
        }
    }
}
