//! The rings: one for each actor, of 64 places. A seat hands in at one end of its ring, and gets a
//! ticket with a number, which counts from 1, or the answer that the ring is full.
ghost use Rattle.std.specs.Prelude.{◌≡◌, ◌+◌, ◌-◌, ◌^◌, ◌<◌, ◌≤◌, [], ◌∷◌, ◌++◌, length, map, IsOk, IfOk, IfErr, IfSome};
ghost use Rattle.rtrb.specs.Ring.{sent, known_free, producer_capacity};
ghost use Rattle.channel_names.specs.RingName.{producer_ring};
ghost use Rattle.inbox.specs.Ends.{places, numbers_below};

use crate::drain::Drain;
use crate::finished::Finished;
use crate::submission::Submission;
use channel_names::Channels;
use rtrb::{Consumer, Producer, RingBuffer};
use s6_events::{Actor, At, NoMemory};
use std::alloc::Global;
use std::marker::{Model, PhantomData};
use thiserror::Error;
use tree_core::Act;

/// How many submissions a ring holds.
const PLACES: usize = 64;

/// A new ring, through which nothing went yet. A run makes its two ends once it has picked the
/// names of its rings.
#[derive(Drop)]
pub struct Ring {
    actor: Actor,
    producer: Producer<Submission>,
    consumer: Consumer<Submission>,
}

// Contracts see whose ring it is, and its name in proofs. Nothing was handed in yet, and all 64
// places are known to be free.
impl Model for Ring {
    ghost use Rattle.std.specs.Prelude.{◌≡◌, []};
    ghost use Rattle.rtrb.specs.Ring.{IsPair, sent, known_free, producer_capacity, received, known_items};
    ghost use Rattle.channel_names.specs.RingName.{consumer_ring};
    ghost use Rattle.inbox.specs.Ends.{RingView, places};

    ghost Value = { RingView };

    ghost view = { λ r. record { actor = r.actor; ring = consumer_ring r.consumer } };

    ghost invariant = { λ r. IsPair r.producer r.consumer
        × (sent r.producer ≡ []) × (known_free r.producer ≡ places)
        × (producer_capacity r.producer ≡ places)
        × (received r.consumer ≡ []) × (known_items r.consumer ≡ []) };
}

impl Ring {
    // A new ring for this actor.
    fn open(alloc: Global, actor: Actor) -> Result<Ring, NoMemory>
        ensures { IfOk result (λ r. r.actor ≡ actor) }
    {
        // The seat pushes submissions at the one end, and the tree pops them at the other.
        let (producer, consumer) = RingBuffer::new(alloc, PLACES)?;
        Ok(Ring {
            actor,
            producer,
            consumer,
        })
    }

    /// Whose ring it is.
    pub fn actor(&self) -> Actor
        ensures { result ≡ self.now.actor }
    {
        self.actor
    }

    /// Makes the ring's two ends. `C` names this ring as that of the actor.
    pub fn ends<C: Channels>(self) -> (Seat<C>, Drain<C>)
        requires { self.ring ≡ C.seat_ring self.actor }
        ensures seat { result.0 ≡ record { actor = self.actor; submitted = []; waiting = 0 } }
        ensures drain { result.1 ≡ record { actor = self.actor; taken = []; seen = [] } }
    {
        let Ring {
            actor,
            producer,
            consumer,
        } = self;
        (Seat::over(actor, producer), Drain::over(actor, consumer))
    }
}

/// A new ring for each of `actors` actors, 1 to 16, in the order of their numbers, which begin at
/// 0. `NoMemory` where memory is refused.
pub fn open_rings(alloc: Global, actors: u8) -> Result<Vec<Ring>, NoMemory>
    requires { (1 ≤ actors) × (actors ≤ 16) }
    ensures { IfOk result (λ rings. map (λ r. r.actor) rings.items ≡ numbers_below actors) }
{
    let mut rings = Vec::new(alloc);
    for number in 0..actors {
        // The number is below 16, as that of each actor is.
        let Some(actor) = Actor::new(number) else {
            unreachable!()
        };
        rings.push(Ring::open(alloc, actor)?)?;
    }
    Ok(rings)
}

/// What an actor gets for a submission; with it the reply is asked for later. The number counts the
/// submissions of its seat, from 1.
#[derive(Clone, Copy, PartialEq, Eq, Debug)]
pub struct Ticket {
    pub actor: Actor,
    pub number: u64,
}

/// The ring was full: 64 submissions of the seat wait to be taken. The seat is as it was, and takes
/// the next one as soon as one of them was taken.
#[derive(Clone, Copy, PartialEq, Eq, Debug, Error)]
#[error("64 submissions of the seat wait to be taken")]
pub struct Full;

/// An actor's end of its ring, where it hands in what happened. It may move to a thread of its own.
#[derive(Drop)]
pub struct Seat<C: Channels> {
    actor: Actor,
    // How many submissions were handed in so far.
    count: u64,
    producer: Producer<Submission>,
    // Names the run: a seat of another run has another type.
    channels: PhantomData<C>,
}

impl<C: Channels> Model for Seat<C> {
    ghost use Rattle.std.specs.Prelude.{◌≡◌, ◌-◌, length};
    ghost use Rattle.rtrb.specs.Ring.{sent, known_free, producer_capacity};
    ghost use Rattle.channel_names.specs.RingName.{producer_ring};
    ghost use Rattle.inbox.specs.Ends.{SeatView, places};

    ghost Value = { SeatView };

    ghost view = { λ s. record { actor = s.actor; submitted = sent s.producer; waiting = places - known_free s.producer } };

    ghost invariant = { λ s. (s.count ≡ length (sent s.producer))
        × (producer_capacity s.producer ≡ places)
        × (producer_ring s.producer ≡ C.seat_ring s.actor) };
}

impl<C: Channels> Seat<C> {
    // The seat at the end of a ring through which nothing went yet.
    pub(crate) fn over(actor: Actor, producer: Producer<Submission>) -> Seat<C>
        requires ring { producer_ring producer ≡ C.seat_ring actor }
        requires unused { (sent producer ≡ []) × (known_free producer ≡ places)
            × (producer_capacity producer ≡ places) }
        ensures { result ≡ record { actor = actor; submitted = []; waiting = 0 } }
    {
        Seat {
            actor,
            count: 0,
            producer,
            channels: PhantomData,
        }
    }

    /// Hands in an act with this moment. `Full` where the ring holds 64 submissions that aren't
    /// known to be taken: the act comes back, and was not submitted. It takes no lock and no
    /// memory, and waits for nobody. Call it only while the seat has taken fewer than 2^63
    /// submissions; `sent` counts them.
    pub fn submit(&mut self, at: At, act: Act<Global>) -> Result<Ticket, (Act<Global>, Full)>
        requires { length self.old.submitted < 2 ^ 63 }
        ensures actor { self.new.actor ≡ self.old.actor }
        ensures appended { IfOk result
            (λ _. self.new.submitted ≡ self.old.submitted ++ record { at = at; act = act } ∷ []) }
        ensures ticket { IfOk result
            (λ t. (t.actor ≡ self.old.actor) × (t.number ≡ length self.new.submitted)) }
        ensures one_more { IfOk result (λ _. self.new.waiting ≤ self.old.waiting + 1) }
        ensures full { IfErr result
            (λ e. (e.0 ≡ act) × (self.new.submitted ≡ self.old.submitted)
            × (self.new.waiting ≡ places)) }
        ensures succeeds { self.old.waiting < places → IsOk result }
    {
        if self.producer.is_full() {
            return Err((act, Full));
        }
        // `is_full` said that there is a free place.
        self.producer.push_reserved(Submission { at, act });
        self.count += 1;
        Ok(Ticket {
            actor: self.actor,
            number: self.count,
        })
    }

    /// Who hands in here.
    pub fn actor(&self) -> Actor
        ensures { result ≡ self.now.actor }
    {
        self.actor
    }

    /// How many submissions were handed in so far.
    pub fn sent(&self) -> u64
        ensures { result ≡ length self.now.submitted }
    {
        self.count
    }

    /// Ends the seat: it submits no more. From what is left of it a drain can tell whether it took
    /// all.
    pub fn finish(self) -> Finished<C>
        ensures actor { result.actor ≡ self.actor }
        ensures submitted { IfSome result.submitted (λ all. all ≡ self.submitted) }
    {
        let Seat {
            actor,
            count: _,
            producer,
            channels: _,
        } = self;
        // The ring's own end tells all that was submitted, unless the drain was dropped before.
        Finished::over(actor, producer.finish())
    }
}
