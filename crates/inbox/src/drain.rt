//! The end of a ring at which the tree takes out what an actor submitted.
ghost use Rattle.std.specs.Prelude.{◌≡◌, ◌≢◌, ◌<◌, [], ◌∷◌, ◌++◌, length, true, false, IsTrue, IsFalse, IsSome, IfSome, IfNone, Some, None};
ghost use mathlib.Core.List.{IsPrefix};
ghost use Rattle.rtrb.specs.Ring.{received, known_items};
ghost use Rattle.channel_names.specs.RingName.{consumer_ring};

use crate::finished::Finished;
use crate::submission::Submission;
use channel_names::Channels;
use rtrb::Consumer;
use s6_events::Actor;
use std::alloc::Global;
use std::marker::{Model, PhantomData};
use tree_core::Input;

/// The tree's end of an actor's ring, where its submissions are taken out, oldest first.
#[derive(Drop)]
pub struct Drain<C: Channels> {
    actor: Actor,
    consumer: Consumer<Submission>,
    channels: PhantomData<C>,
}

impl<C: Channels> Model for Drain<C> {
    ghost use Rattle.std.specs.Prelude.{◌≡◌};
    ghost use Rattle.rtrb.specs.Ring.{received, known_items};
    ghost use Rattle.channel_names.specs.RingName.{consumer_ring};
    ghost use Rattle.inbox.specs.Ends.{DrainView};

    ghost Value = { DrainView };

    ghost view = { λ d. record { actor = d.actor; taken = received d.consumer; seen = known_items d.consumer } };

    ghost invariant = { λ d. consumer_ring d.consumer ≡ C.seat_ring d.actor };
}

impl<C: Channels> Drain<C> {
    // The drain at the end of this ring.
    pub(crate) fn over(actor: Actor, consumer: Consumer<Submission>) -> Drain<C>
        requires { consumer_ring consumer ≡ C.seat_ring actor }
        ensures { result ≡ record {
          actor = actor;
          taken = received consumer;
          seen =
              known_items consumer;
        } }
    {
        Drain {
            actor,
            consumer,
            // It names the run in proofs, and has no bytes.
            channels: PhantomData,
        }
    }

    /// Whose submissions it takes.
    pub fn actor(&self) -> Actor
        ensures { result ≡ self.now.actor }
    {
        self.actor
    }

    /// Takes out the oldest submission, as the actor's input; None where the ring has none. It
    /// takes no lock and no memory, and waits for nobody.
    pub fn take_next(&mut self) -> Option<Input<Global>>
        ensures actor { self.new.actor ≡ self.old.actor }
        ensures taken { IfSome result
            (λ i. (i.actor ≡ self.old.actor)
            × (self.new.taken ≡ self.old.taken ++ record { at = i.at; act = i.act } ∷ [])) }
        ensures next { IfSome result
            (λ i. IsPrefix self.old.seen (record { at = i.at; act = i.act } ∷ self.new.seen)) }
        ensures none { IfNone result ((self.new.taken ≡ self.old.taken) × (self.new.seen ≡ [])) }
        ensures succeeds { 0 < length self.old.seen → IsSome result }
    {
        // `take_into` puts the input here, where the ring has one.
        let mut held = None;
        if self.take_into(&mut held) {
            held
        } else {
            None
        }
    }

    /// Takes out the oldest submission as `take_next` does, and puts it into `held`, the place
    /// where the caller keeps the input of its next step. Returns whether the ring had one; where
    /// it had none, `held` is as it was.
    pub fn take_into(&mut self, held: &mut Option<Input<Global>>) -> bool
        ensures actor { self.new.actor ≡ self.old.actor }
        ensures held { IsTrue result → IsSome held.new }
        ensures taken { IsTrue result → IfSome held.new
            (λ i. (i.actor ≡ self.old.actor)
            × (self.new.taken ≡ self.old.taken ++ record { at = i.at; act = i.act } ∷ [])) }
        ensures next { IsTrue result → IfSome held.new
            (λ i. IsPrefix self.old.seen (record { at = i.at; act = i.act } ∷ self.new.seen)) }
        ensures none { IsFalse result → (held.new ≡ held.old) × (self.new.taken ≡ self.old.taken)
            × (self.new.seen ≡ []) }
        ensures succeeds { 0 < length self.old.seen → IsTrue result }
    {
        if self.consumer.is_empty() {
            return false;
        }
        // `is_empty` said that the ring has a submission, so one is known to be there, and this
        // can't fail.
        let next = self.consumer.pop_known();
        *held = Some(Input {
            actor: self.actor,
            at: next.at,
            act: next.act,
        });
        true
    }

    /// Whether all that the seat of the same actor ever submitted was taken out; None where its
    /// ring told nothing when the seat ended (`Finished`).
    pub fn is_drained(&mut self, finished: &mut Finished<C>) -> Option<bool>
        requires { finished.old.actor ≡ self.old.actor }
        ensures actor { self.new.actor ≡ self.old.actor }
        ensures taken { self.new.taken ≡ self.old.taken }
        ensures finished { finished.new ≡ finished.old }
        ensures in_order { IfSome finished.old.submitted (λ all. IsPrefix self.new.taken all) }
        ensures drained { result ≡ Some true → finished.old.submitted ≡ Some self.new.taken }
        ensures left { result ≡ Some false → finished.old.submitted ≢ Some self.new.taken }
        ensures none { IfNone result (finished.old.submitted ≡ None) }
        ensures told { IfSome result (λ drained. IsSome finished.old.submitted) }
    {
        // The ended seat's side of the ring: it tells how many submissions went in.
        let ring = finished.ring.as_mut()?;
        // How many of those were not taken out yet.
        Some(self.consumer.slots_after(ring) == 0)
    }
}
