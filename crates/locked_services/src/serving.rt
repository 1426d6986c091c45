//! Whether all orders of a run were asked; and the backends, taken from their desks.
ghost use Rattle.std.specs.Prelude.{◌≡◌, ◌≤◌, [], length, map, Some, true, false, vec_capacity};
ghost use Rattle.locked_services.specs.Closing.{AreSameDesks, AreSameLanes, AreServed, IsServed, IsOrderLeft};

use order_lanes::{Backend, Desk, Lane, Lanes};

// Whether the lane and the desk both have this number, and the desk's backend was asked all that
// was ever sent into the lane.
fn is_served<B: Backend, L: Lanes>(number: usize, lane: &mut Lane<L>, desk: &mut Desk<B, L>) -> bool
    ensures lane { lane.new ≡ record lane.old { free = lane.new.free } }
    ensures desk { desk.new ≡ record desk.old { seen = desk.new.seen } }
    ensures yes { result ≡ true → IsServed L.asked_before number (Some lane.old) (Some desk.old) }
    ensures no { result ≡ false
        → IsServed L.asked_before number (Some lane.old) (Some desk.old) → ⊥ }
{
    // A desk at a wrong place is that of another lane: it tells nothing of this one.
    if lane.number() != number || desk.lane() != number {
        return false;
    }
    desk.is_done(lane)
}

/// Whether the desks are just those of the lanes, in the order of their numbers, and each backend
/// was asked all that was ever sent into its lane.
pub fn are_served<B: Backend, L: Lanes>(
    lanes: &mut Vec<Lane<L>>,
    desks: &mut Vec<Desk<B, L>>,
) -> bool
    ensures lanes { AreSameLanes lanes.old.items lanes.new.items }
    ensures desks { AreSameDesks desks.old.items desks.new.items }
    ensures room { vec_capacity desks.new ≡ vec_capacity desks.old }
    ensures yes { result ≡ true → AreServed L.asked_before lanes.old.items desks.old.items }
    ensures each { result ≡ true → length desks.old.items ≡ length lanes.old.items }
    ensures no { result ≡ false → IsOrderLeft L.asked_before lanes.old.items desks.old.items }
{
    if lanes.len() != desks.len() {
        return false;
    }
    for k in 0..lanes.len() {
        let lane = &mut lanes[k];
        let desk = &mut desks[k];
        if !is_served(k, lane, desk) {
            return false;
        }
    }
    true
}

/// The backends of these desks, in the same order, in `room`, an empty list with room for them.
pub fn backends_of<B: Backend, L: Lanes>(desks: Vec<Desk<B, L>>, room: Vec<B>) -> Vec<B>
    requires empty { room.items ≡ [] }
    requires fits { length desks.items ≤ vec_capacity room }
    ensures { map B.asked result.items ≡ map (λ d. d.asked) desks.items }
{
    let mut backends = room;
    for desk in desks {
        backends.push_reserved(desk.into_backend());
    }
    backends
}
