//! The end of a seat that submits no more.
ghost use Rattle.std.specs.Prelude.{◌≡◌, option_map};
ghost use Rattle.std.specs.Option.{ForSome};
ghost use Rattle.rtrb.specs.Ring.{all_sent};
ghost use Rattle.channel_names.specs.RingName.{finished_ring};

use crate::submission::Submission;
use channel_names::Channels;
use s6_events::Actor;
use std::marker::{Model, PhantomData};

/// What is left of a seat that submits no more.
#[derive(Drop)]
pub struct Finished<C: Channels> {
    actor: Actor,
    // The seat's end of the ring, which tells all that was submitted; None where the drain was
    // dropped before the seat ended.
    pub(crate) ring: Option<rtrb::Finished<Submission>>,
    channels: PhantomData<C>,
}

impl<C: Channels> Model for Finished<C> {
    ghost use Rattle.std.specs.Prelude.{◌≡◌, option_map};
    ghost use Rattle.std.specs.Option.{ForSome};
    ghost use Rattle.rtrb.specs.Ring.{all_sent};
    ghost use Rattle.channel_names.specs.RingName.{finished_ring};
    ghost use Rattle.inbox.specs.Ends.{FinishedView};

    ghost Value = { FinishedView };

    ghost view = { λ f. record { actor = f.actor; submitted = option_map (λ r. all_sent r) f.ring } };

    ghost invariant = { λ f. ForSome f.ring (λ r. finished_ring r ≡ C.seat_ring f.actor) };
}

impl<C: Channels> Finished<C> {
    // The end of this actor's seat, with what its ring told of all that was submitted.
    pub(crate) fn over(actor: Actor, ring: Option<rtrb::Finished<Submission>>) -> Finished<C>
        requires { ForSome ring (λ r. finished_ring r ≡ C.seat_ring actor) }
        ensures { result ≡ record { actor = actor; submitted = option_map (λ r. all_sent r) ring } }
    {
        Finished {
            actor,
            ring,
            // It names the run in proofs, and has no bytes.
            channels: PhantomData,
        }
    }

    /// Whose seat it was.
    pub fn actor(&self) -> Actor
        ensures { result ≡ self.now.actor }
    {
        self.actor
    }
}
