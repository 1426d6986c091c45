//! How a run is opened: the ends of its rings.
ghost use Rattle.std.specs.Prelude.{◌≡◌, ℕ, [], IfOk, length};
ghost use Rattle.locked_services.specs.Submissions.{AreNumbered, taken_from};
ghost use Rattle.locked_services.specs.Opening.{AreNamed, AreUnused};

use channel_names::Channels;
use inbox::{Drain, Ring, Seat};
use s6_events::NoMemory;
use std::alloc::Global;

/// A seat for each actor, and the tree's ends of their rings, both in the order of the actors'
/// numbers.
#[derive(Drop)]
pub struct SeatEnds<C: Channels> {
    pub seats: Vec<Seat<C>>,
    pub drains: Vec<Drain<C>>,
}

/// The ends of these new rings, whose names are those that `C` gives to the rings of its seats.
/// `NoMemory` where memory is refused.
pub fn seat_ends<C: Channels>(alloc: Global, rings: Vec<Ring>) -> Result<SeatEnds<C>, NoMemory>
    requires { AreNamed C.seat_ring rings.items }
    ensures numbered { IfOk result (λ ends. AreNumbered ends.drains.items) }
    ensures untaken { IfOk result (λ ends. (actor : ℕ) → taken_from actor ends.drains.items ≡ []) }
    ensures unused { IfOk result (λ ends. AreUnused ends.seats.items) }
    ensures seats { IfOk result (λ ends. length ends.seats.items ≡ length rings.items) }
    ensures drains { IfOk result (λ ends. length ends.drains.items ≡ length rings.items) }
{
    let mut ends = SeatEnds {
        seats: Vec::new(alloc),
        drains: Vec::new(alloc),
    };
    for ring in rings {
        let (seat, drain) = ring.ends::<C>();
        ends.seats.push(seat)?;
        ends.drains.push(drain)?;
    }
    Ok(ends)
}
