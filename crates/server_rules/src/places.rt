//! Who each actor is, by its number: 0 the scanner (scans and ticks), 1 to 4 the lanes (reports),
//! from 5 on the connections, by their slots.
ghost use Rattle.std.specs.Prelude.{◌≡◌};
ghost use Rattle.server_rules.specs.Places.{place_of, client_actor};

use line_server::SLOT_COUNT;
use s6_events::Actor;

/// How many lanes there are.
pub const LANE_LIMIT: usize = 4;

/// The actor of scans and ticks.
pub const SCANNER: usize = 0;

/// The actor of the first lane; those of the others follow.
pub const FIRST_LANE: usize = 1;

/// The actor of the connection on the first slot; those of the others follow.
pub const FIRST_CLIENT: usize = FIRST_LANE + LANE_LIMIT;

/// How many actors there are.
pub const ACTOR_COUNT: usize = FIRST_CLIENT + SLOT_COUNT;

/// The actor of the connection on the last slot, which is kept for short requests.
pub const LAST_CLIENT: usize = ACTOR_COUNT - 1;

/// Who an actor is.
#[derive(Clone, Copy, PartialEq, Eq, Debug)]
pub enum Place {
    /// It hands in ticks and scans.
    Scanner,
    /// It hands in the reports of this lane.
    Lane(usize),
    /// It hands in the requests of the connection on this slot.
    Client(usize),
}

/// Who this actor is.
pub fn place_of(actor: Actor) -> Place
    ensures { result ≡ place_of actor }
{
    let number = usize::from(actor.number());
    if number == SCANNER {
        Place::Scanner
    } else if number < FIRST_CLIENT {
        Place::Lane(number - FIRST_LANE)
    } else {
        Place::Client(number - FIRST_CLIENT)
    }
}

/// The actor of the connection on this slot; None where there is no such slot.
pub fn client_actor(slot: usize) -> Option<Actor>
    ensures { result ≡ client_actor slot }
{
    if slot < SLOT_COUNT {
        Actor::new((FIRST_CLIENT + slot) as u8)
    } else {
        None
    }
}
