//! How a lane is served: at its desk the lane's backend is asked the orders of the lane's ring.
ghost use Rattle.std.specs.Prelude.{◌≡◌, ◌≤◌, [], None, IsSome};
ghost use Rattle.order_lanes.specs.declared.desk.Carried.TheVariants.{Asked, Idle, Refused};

use order_lanes::{Backend, Carried, Desk, Lanes};
use std::sync::{Mutex, Wait};

/// Asks the desk's backend one order after another, at most `most`, which is 1 or more, until none
/// is left or the backend hands one back. Returns what the last `carry_one` did.
pub fn carry_many<B: Backend, L: Lanes>(desk: &mut Desk<B, L>, most: u64) -> Carried
    requires { 1 ≤ most }
    ensures rest { (desk.new.lane ≡ desk.old.lane) × (desk.new.given ≡ desk.old.given) }
    ensures asked { result ≡ Asked → desk.new.held ≡ None }
    ensures idle { result ≡ Idle → (desk.new.held ≡ None) × (desk.new.seen ≡ []) }
    ensures refused { (fault : _) → result ≡ Refused fault → IsSome desk.new.held }
{
    // All turns but the last, whose result is returned in any case.
    for _ in 1..most {
        let carried = desk.carry_one();
        if carried != Carried::Asked {
            return carried;
        }
    }
    desk.carry_one()
}

/// Gives this desk `turns` turns: in each its backend is asked one order, if there is one, under
/// the desk's lock.
pub fn carry_in_turns<B: Backend, L: Lanes, R: Wait>(rt: &R, desk: &Mutex<Desk<B, L>>, turns: u64) {
    for _ in 0..turns {
        desk.lock(rt).carry_one();
    }
}
