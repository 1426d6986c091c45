//! Calls for whoever embeds this crate alone: no program of this tree makes them.
ghost use Rattle.std.specs.Prelude.{◌≡◌, ◌+◌, ◌<◌, ◌≤◌, [], IsOk, IfOk, OnOk, OnErr, true};
ghost use Rattle.deadlines.specs.Timers.{with_timer, without_timer, due_by, is_rising};

use crate::deadlines::{Deadlines, add_due, is_at, place_of};
use crate::queue::take_out;
use s6_events::{At, NoMemory, Sid};
use std::alloc::Allocator;

impl<A: Allocator + Copy> Deadlines<A> {
    /// Sets the timer of a service to a moment, in place of the one that it had. It always succeeds
    /// where there is still room. `NoMemory` where memory is refused: nothing has changed then, and
    /// a plan still has its room. Both lists of the timers, `timers` and `queue`, get room for one
    /// more first.
    pub fn set(&mut self, sid: Sid, at: At) -> Result<(), NoMemory>
        ensures ok { OnOk result (self.new.timers ≡ with_timer sid at self.old.timers) }
        ensures err { OnErr result (self.new.timers ≡ self.old.timers) }
        ensures same_room { OnErr result (self.old.spare_capacity ≤ self.new.spare_capacity) }
        ensures succeeds { 0 < self.old.spare_capacity → IsOk result }
    {
        self.timers.reserve(1)?;
        self.queue.reserve(1)?;
        self.put(sid, at);
        Ok(())
    }

    /// Clears the timer of a service, where it was set: it is taken out of both lists, `timers` and
    /// `queue`.
    pub fn clear(&mut self, sid: Sid)
        ensures timers { self.new.timers ≡ without_timer sid self.old.timers }
        ensures room { self.old.spare_capacity ≤ self.new.spare_capacity }
    {
        let place = place_of(&self.timers, sid);
        if is_at(&self.timers, place, sid) {
            let timer = self.timers.remove(place);
            take_out(&mut self.queue, &timer);
        }
    }

    /// The services whose timers are set to a moment at most `now`, in rising serial. Where none is
    /// due, only the timer with the least moment is looked at, and no memory is asked for.
    /// `NoMemory` where memory is refused.
    pub fn due<B: Allocator + Copy>(&self, alloc: B, now: At) -> Result<Vec<Sid, B>, NoMemory>
        ensures due { IfOk result (λ sids. sids.items ≡ due_by now self.now.timers) }
        ensures rising { IfOk result (λ sids. is_rising sids.items ≡ true) }
        ensures quiet { due_by now self.now.timers ≡ [] → IsOk result }
    {
        let mut sids = Vec::new(alloc);
        add_due(&self.timers, &self.queue, now, &mut sids)?;
        Ok(sids)
    }
}
