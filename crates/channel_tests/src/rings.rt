//! Tests of rings, with and without threads.
ghost use Rattle.std.specs.Prelude.{◌≡◌};

use channel_names::Channels;
use inbox::{Drain, Finished, Ring, Seat, Ticket, open_rings};
use s6_events::{At, Sid};
use std::alloc::Global;
use std::marker::Brand;
use std::process::Abort;
use std::thread;
use std::thread::Threads;
use tree_core::{Act, Input};

/// How many acts each of the two seats hands in.
const ACTS: u64 = 10_000;

/// How often a thread tries, so that a test in which no thread could be made ends too.
const TRIES: u64 = 10_000_000;

// The act of this number, which no other act is.
fn act(number: u64) -> Act<Global> {
    Act::Started(Sid(number), 0, 0)
}

// The moment of so many milliseconds.
fn moment(millis: u64) -> At {
    At::new(millis).unwrap_or_default()
}

fn is_act(act: &Act<Global>, number: u64) -> bool {
    match act {
        Act::Started(sid, _, _) => sid.0 == number,
        _ => false,
    }
}

// Rings of so many actors.
fn new_rings<R: Abort>(rt: &R, alloc: Global, actors: u8) -> Vec<Ring> {
    assert!(rt; actors >= 1 && actors <= 16);
    open_rings(alloc, actors).expect(rt, "memory")
}

// The rings of two actors, 0 and 1.
fn two_rings<R: Abort>(rt: &R, alloc: Global) -> (Ring, Ring)
    ensures { (result.0.actor ≡ 0) × (result.1.actor ≡ 1) }
{
    let mut rings = new_rings(rt, alloc, 2);
    let second = rings.pop().expect(rt, "no second ring");
    let first = rings.pop().expect(rt, "no first ring");
    assert!(rt; first.actor().number() == 0 && second.actor().number() == 1);
    (first, second)
}

#[test]
fn each_actor_has_a_ring(rt: HostRuntime) {
    let rings = new_rings(&rt, rt.alloc(), 16);
    assert_eq!(rt; rings.len(), 16);
    for (number, ring) in rings.iter().enumerate() {
        wants_actor(&rt, ring, number);
    }
}

// Whose ring it is.
fn wants_actor<R: Abort>(rt: &R, ring: &Ring, number: usize) {
    assert_eq!(rt; ring.actor().number() as usize, number);
}

// Submits an act; None where the ring takes no more, or no test submits so many.
fn submit<C: Channels>(seat: &mut Seat<C>, at: At, act: Act<Global>) -> Option<Ticket> {
    if seat.sent() > ACTS {
        return None;
    }
    seat.submit(at, act).ok()
}

// Submits an act, which the seat takes with the ticket of this number.
fn wants_taken<C: Channels, R: Abort>(
    rt: &R,
    seat: &mut Seat<C>,
    at: At,
    act: Act<Global>,
    number: u64,
) {
    let actor = seat.actor();
    let ticket = submit(seat, at, act);
    assert_eq!(rt; ticket, Some(Ticket { actor, number }));
}

// Submits the act of this number to a full ring: it comes back.
fn wants_back<C: Channels, R: Abort>(rt: &R, seat: &mut Seat<C>, number: u64) {
    assert!(rt; seat.sent() <= ACTS);
    let refused = seat.submit(At::zero(), act(number)).err();
    assert!(rt; refused.is_some_and(|(back, _)| is_act(&back, number)));
}

// How many the seat submitted.
fn wants_sent<C: Channels, R: Abort>(rt: &R, seat: &Seat<C>, wanted: u64) {
    assert_eq!(rt; seat.sent(), wanted);
}

// Whether it is an input with the act of this number.
fn has_act(input: Option<Input<Global>>, number: u64) -> bool {
    match &input {
        Some(input) => is_act(&input.act, number),
        None => false,
    }
}

// Takes the act of this number.
fn wants_act<C: Channels, R: Abort>(rt: &R, drain: &mut Drain<C>, number: u64) {
    let taken = has_act(drain.take_next(), number);
    assert!(rt; taken, "act {number}");
}

// There is nothing to take.
fn wants_none<C: Channels, R: Abort>(rt: &R, drain: &mut Drain<C>) {
    assert!(rt; drain.take_next().is_none());
}

// Whether all of the finished seat was taken.
fn wants_drained<C: Channels, R: Abort>(
    rt: &R,
    drain: &mut Drain<C>,
    finished: &mut Finished<C>,
    wanted: bool,
) {
    assert!(rt; drain.actor() == finished.actor());
    let drained = drain.is_drained(finished);
    assert_eq!(rt; drained, Some(wanted));
}

#[test]
fn sixty_fifth_submission_is_full(rt: HostRuntime) {
    let (first, _) = two_rings(&rt, rt.alloc());
    fill_and_take::<Brand, _>(&rt, first);
}

// A seat submits 64 acts, and a 65th comes back until one was taken.
fn fill_and_take<C: Channels, R: Abort>(rt: &R, ring: Ring)
    requires { ring.ring ≡ C.seat_ring ring.actor }
{
    let (mut seat, mut drain) = ring.ends::<C>();
    fill(rt, &mut seat);
    wants_act(rt, &mut drain, 1);
    wants_taken(rt, &mut seat, At::zero(), act(65), 65);
    let mut finished = seat.finish();
    take_rest(rt, &mut drain, &mut finished);
}

// Submits the acts 1 to 64, and one more.
fn fill<C: Channels, R: Abort>(rt: &R, seat: &mut Seat<C>) {
    for number in 1..65 {
        wants_taken(rt, seat, At::zero(), act(number), number);
    }
    wants_back(rt, seat, 65);
    wants_sent(rt, seat, 64);
}

// Takes the acts 2 to 65, and there is nothing more.
fn take_rest<C: Channels, R: Abort>(rt: &R, drain: &mut Drain<C>, finished: &mut Finished<C>) {
    wants_drained(rt, drain, finished, false);
    for number in 2..66 {
        wants_act(rt, drain, number);
    }
    wants_none(rt, drain);
    wants_drained(rt, drain, finished, true);
}

#[test]
fn two_seats_make_one_run(rt: HostRuntime) {
    let (first, second) = two_rings(&rt, rt.alloc());
    hand_in_ticks::<Brand, _>(&rt, first, second);
}

// Two seats submit 32 ticks each, and then each one's are taken: all of them, in the order in which
// they were submitted.
fn hand_in_ticks<C: Channels, R: Abort>(rt: &R, first: Ring, second: Ring)
    requires first { first.ring ≡ C.seat_ring first.actor }
    requires second { second.ring ≡ C.seat_ring second.actor }
{
    let (mut first_seat, mut first_drain) = first.ends::<C>();
    let (mut second_seat, mut second_drain) = second.ends::<C>();
    submit_ticks(rt, &mut first_seat, &mut second_seat);
    take_ticks(rt, &mut first_drain, &mut second_drain);
}

// Submits 32 ticks of each seat, in turn.
fn submit_ticks<C: Channels, R: Abort>(rt: &R, first: &mut Seat<C>, second: &mut Seat<C>) {
    for number in 1..33 {
        wants_taken(rt, first, moment(number), Act::Tick, number);
        wants_taken(rt, second, moment(number), Act::Tick, number);
    }
    wants_sent(rt, first, 32);
    wants_sent(rt, second, 32);
}

// Takes 32 ticks of each seat, in turn, and there is nothing more.
fn take_ticks<C: Channels, R: Abort>(rt: &R, first: &mut Drain<C>, second: &mut Drain<C>) {
    for number in 1..33 {
        wants_tick(rt, second, number);
        wants_tick(rt, first, number);
    }
    wants_none(rt, first);
    wants_none(rt, second);
}

// Takes a tick, which is the one at the moment of this number.
fn wants_tick<C: Channels, R: Abort>(rt: &R, drain: &mut Drain<C>, number: u64) {
    let actor = drain.actor();
    let taken = drain.take_next();
    assert!(rt;
        taken.is_some_and(|input| {
            input.actor == actor && input.at == moment(number) && matches!(&input.act, Act::Tick)
        })
    );
}

#[test]
fn acts_of_two_seats_come_once_and_in_order(rt: HostRuntime) {
    let (first, second) = two_rings(&rt, rt.alloc());
    hand_in_and_take::<Brand, _>(&rt, first, second);
}

// Two seats hand in all of their acts, each in a thread of its own, while a third thread takes
// them.
fn hand_in_and_take<C: Channels + Send + Sync, R: Threads + Abort + Sync>(
    rt: &R,
    first: Ring,
    second: Ring,
)
    requires first { first.ring ≡ C.seat_ring first.actor }
    requires second { second.ring ≡ C.seat_ring second.actor }
{
    let (first_seat, first_drain) = first.ends::<C>();
    let (second_seat, second_drain) = second.ends::<C>();
    let (seats, taken) = thread::join(
        rt,
        move || {
            thread::join(
                rt,
                move || hand_in_all(first_seat),
                move || hand_in_all(second_seat),
            )
        },
        move || take_all(first_drain, second_drain),
    );
    assert_eq!(rt; (seats.0, seats.1), (ACTS, ACTS));
    assert!(rt; taken);
}

// Submits the acts 1 to 10,000, each until the ring takes it. How many were taken in.
fn hand_in_all<C: Channels>(seat: Seat<C>) -> u64 {
    let mut seat = seat;
    hand_in_each(&mut seat);
    seat.sent()
}

fn hand_in_each<C: Channels>(seat: &mut Seat<C>) {
    for _ in 0..TRIES {
        let sent = seat.sent();
        if sent >= ACTS {
            break;
        }
        if submit(seat, At::zero(), act(sent + 1)).is_none() {
            thread::yield_now();
        }
    }
}

// Takes 10,000 acts of each seat: whether each seat's came with their numbers in order, and nothing
// after them.
fn take_all<C: Channels>(first: Drain<C>, second: Drain<C>) -> bool {
    let mut first = first;
    let mut second = second;
    take_each(&mut first, &mut second)
}

fn take_each<C: Channels>(first: &mut Drain<C>, second: &mut Drain<C>) -> bool {
    let mut taken = (0, 0);
    let mut in_order = true;
    for _ in 0..TRIES {
        if taken.0 >= ACTS && taken.1 >= ACTS {
            break;
        }
        in_order = takes_next(first, &mut taken.0) && takes_next(second, &mut taken.1) && in_order;
    }
    taken == (ACTS, ACTS) && in_order && is_empty(first) && is_empty(second)
}

// Whether there is nothing to take.
fn is_empty<C: Channels>(drain: &mut Drain<C>) -> bool {
    drain.take_next().is_none()
}

// Takes the next act, where there is one, and counts it: whether it is the seat's next.
fn takes_next<C: Channels>(drain: &mut Drain<C>, taken: &mut u64) -> bool {
    let Some(input) = drain.take_next() else {
        thread::yield_now();
        return true;
    };
    *taken = taken.saturating_add(1);
    input.actor == drain.actor() && is_act(&input.act, *taken)
}
