//! The timers that are set, at most one for each service, and which of them are due. They are kept
//! twice: in `timers` in the order of the serials of their services, and in `queue` in the order of
//! their moments.
ghost use Rattle.std.specs.Prelude.{◌≡◌, ◌+◌, ◌<◌, ◌≤◌, [], length, IsOk, IfOk, OnOk, IfSome, IsSomeAnd, nat_lt, take, slice_get, true, false};
ghost use Rattle.std.specs.List.{list_all};
ghost use Rattle.deadlines.specs.Queue.{HaveSameTimers, in_moment_order};
ghost use Rattle.deadlines.specs.Timers.{with_timer, with_timer_change, with_timer_changes, due_by, is_rising, is_timer_of, rises};

use crate::queue::{is_any_due, put_in, take_out};
use crate::timer::{Timer, TimerChange};
use s6_events::{At, NoMemory, Sid};
use std::alloc::Allocator;
use std::marker::Model;

/// The timers that are set, at most one for each service. They are kept twice: in `timers` in
/// rising serial, to find that of a service, and in `queue` in the order of their moments, to find
/// those that are due.
#[derive(Drop)]
pub struct Deadlines<A: Allocator> {
    pub(crate) timers: Vec<Timer, A>,
    pub(crate) queue: Vec<Timer, A>,
    // The list of the last step's changes, kept so that the next step can use its memory.
    pub(crate) spare: Vec<TimerChange, A>,
    // The services whose timers the last search found due, kept likewise.
    pub(crate) found: Vec<Sid, A>,
}

impl<A: Allocator> Model for Deadlines<A> {
    ghost use Rattle.deadlines.specs.Deadlines.{Armed};

    ghost Value = { Armed };

    ghost use Rattle.deadlines.specs.DeadlinesFields.{deadlines_view, IsInOrder};

    ghost view = { deadlines_view };

    ghost invariant = { IsInOrder };
}

/// The changes of one step, for which the deadlines have made room.
#[derive(Drop)]
pub struct DeadlinesPlan<A: Allocator> {
    changes: Vec<TimerChange, A>,
}

impl<A: Allocator> Model for DeadlinesPlan<A> {
    ghost use Rattle.std.specs.Prelude.{List};
    ghost use Rattle.deadlines.specs.declared.timer.TimerChange.{TimerChange};

    ghost Value = { List TimerChange };

    ghost view = { λ p. p.changes.items };
}

// Whether the timer is that of a service with a lower serial.
fn is_below(timer: &Timer, sid: Sid) -> bool
    ensures { result ≡ nat_lt timer.now.sid sid }
{
    timer.sid.0 < sid.0
}

// Whether the place of this serial is the first one: no timer has a lower serial.
fn comes_first(timers: &[Timer], sid: Sid) -> bool
    ensures yes { result ≡ true → IfSome (slice_get timers.now 0) (λ t. nat_lt t.sid sid ≡ false) }
    ensures no { result ≡ false
        → IsSomeAnd (slice_get timers.now 0) (λ t. nat_lt t.sid sid ≡ true) }
{
    let Some(first) = timers.first() else {
        return true;
    };
    !is_below(first, sid)
}

// Whether the place of this serial is the end: all timers have lower serials.
fn comes_last(timers: &[Timer], sid: Sid) -> bool
    requires { rises timers.now ≡ true }
    ensures { result ≡ list_all (λ t. nat_lt t.sid sid) timers.now }
{
    let Some(end) = timers.len().checked_sub(1) else {
        return true;
    };
    let last = timers[end];
    is_below(&last, sid)
}

// The first place of a timer whose serial is not below this one, or the end. Services that were
// started together die and are started again in their order, so that both ends are looked at first.
pub(crate) fn place_of(timers: &[Timer], sid: Sid) -> usize
    requires { rises timers.now ≡ true }
    ensures bound { result ≤ length timers.now }
    ensures before { list_all (λ t. nat_lt t.sid sid) (take result timers.now) ≡ true }
    ensures stop { IfSome (slice_get timers.now result) (λ t. nat_lt t.sid sid ≡ false) }
{
    if comes_first(timers, sid) {
        return 0;
    }
    if comes_last(timers, sid) {
        return timers.len();
    }
    let mut low = 0;
    let mut high = timers.len();
    while low < high {
        let middle = low + (high - low) / 2;
        let timer = timers[middle];
        if is_below(&timer, sid) {
            low = middle + 1;
        } else {
            high = middle;
        }
    }
    low
}

// Whether the timer at this place is that of the service.
pub(crate) fn is_at(timers: &[Timer], place: usize, sid: Sid) -> bool
    ensures { result ≡ is_timer_of sid (slice_get timers.now place) }
{
    timers.get(place).is_some_and(|timer| timer.sid == sid)
}

// Adds the services whose timers are set to a moment at most `now`, in rising serial. `timers` is
// in the order of serials; `queue` has the same timers in the order of moments, so that its first
// one tells whether any is due.
pub(crate) fn add_due<B: Allocator>(
    timers: &[Timer],
    queue: &[Timer],
    now: At,
    sids: &mut Vec<Sid, B>,
) -> Result<(), NoMemory>
    requires order { in_moment_order queue.now ≡ true }
    requires same { HaveSameTimers queue.now timers.now }
    requires rises { rises timers.now ≡ true }
    requires empty { sids.old.items ≡ [] }
    ensures rising { OnOk result (is_rising sids.new.items ≡ true) }
    ensures due { OnOk result (sids.new.items ≡ due_by now timers.now) }
    ensures quiet { due_by now timers.now ≡ [] → IsOk result }
{
    if !is_any_due(queue, now) {
        return Ok(());
    }
    for timer in timers {
        if timer.at.millis() <= now.millis() {
            sids.push(timer.sid)?;
        }
    }
    Ok(())
}

impl<A: Allocator + Copy> Deadlines<A> {
    /// Deadlines with no timer set. They keep the allocator. A timer that is set goes into both
    /// `timers` (in the order of serials) and `queue` (in the order of moments).
    pub fn new(alloc: A) -> Deadlines<A>
        ensures { result.timers ≡ [] }
    {
        Deadlines {
            timers: Vec::new(alloc),
            queue: Vec::new(alloc),
            spare: Vec::new(alloc),
            found: Vec::new(alloc),
        }
    }

    // Sets the timer of a service, for which there is room in both lists: `timers`, in the order of
    // serials, and `queue`, in the order of moments.
    pub(crate) fn put(&mut self, sid: Sid, at: At)
        requires { 0 < self.old.spare_capacity }
        ensures timers { self.new.timers ≡ with_timer sid at self.old.timers }
        ensures room { self.old.spare_capacity ≤ self.new.spare_capacity + 1 }
    {
        let place = place_of(&self.timers, sid);
        let timer = Timer { sid, at };
        // The service has a timer: it is replaced, in both lists.
        if is_at(&self.timers, place, sid) {
            let old = self.timers[place];
            take_out(&mut self.queue, &old);
            put_in(&mut self.queue, &timer);
            self.timers[place] = timer;
        } else {
            put_in(&mut self.queue, &timer);
            self.timers.insert(place, timer).unwrap();
        }
    }

    /// Finds the services that `due` gives, and keeps them for `found`: their list uses the memory
    /// of the last search. `NoMemory` where memory is refused, and nothing is said of `found` then;
    /// never where none is due.
    pub fn find_due(&mut self, now: At) -> Result<(), NoMemory>
        ensures due { OnOk result (self.new.found ≡ due_by now self.old.timers) }
        ensures rising { OnOk result (is_rising self.new.found ≡ true) }
        ensures timers { self.new.timers ≡ self.old.timers }
        ensures same_room { self.old.spare_capacity ≤ self.new.spare_capacity }
        ensures quiet { due_by now self.old.timers ≡ [] → IsOk result }
    {
        self.found.clear();
        add_due(&self.timers, &self.queue, now, &mut self.found)
    }

    /// The services that the last search found due, in rising serial.
    pub fn found(&self) -> &[Sid]
        ensures { result.now ≡ self.now.found }
    {
        self.found.as_slice()
    }

    /// Makes room for these changes, and copies them into a plan: no timer is changed yet. An
    /// earlier plan keeps its room, even where this call is refused. `NoMemory` where memory is
    /// refused; never where there is nothing to change.
    #[inline(always)]
    pub fn prepare(&mut self, changes: &[TimerChange]) -> Result<DeadlinesPlan<A>, NoMemory>
        ensures ok { IfOk result (λ plan. plan ≡ changes.now) }
        ensures room { OnOk result (length changes.now ≤ self.new.spare_capacity) }
        ensures timers { self.new.timers ≡ self.old.timers }
        ensures same_room { self.old.spare_capacity ≤ self.new.spare_capacity }
        ensures quiet { changes.now ≡ [] → IsOk result }
    {
        // The list of the last plan (`spare`) is used again for this one.
        let none = Vec::new(*self.timers.allocator());
        let mut planned = std::mem::replace(&mut self.spare, none);
        planned.clear();
        planned.extend_from_slice(changes)?;
        // Each change may set a timer, which is kept in both lists.
        self.timers.reserve(changes.len())?;
        self.queue.reserve(changes.len())?;
        Ok(DeadlinesPlan { changes: planned })
    }

    /// Makes the changes of a plan. It has to be a plan of these deadlines, and nothing may have
    /// changed since it was made.
    pub fn commit(&mut self, plan: DeadlinesPlan<A>)
        requires { length plan ≤ self.old.spare_capacity }
        ensures { self.new.timers ≡ with_timer_changes plan self.old.timers }
    {
        for change in &plan.changes {
            self.make(change);
        }
        // The memory of the plan's list is kept for the next plan.
        self.spare = plan.changes;
    }

    // Makes one change, for which there is room.
    fn make(&mut self, change: &TimerChange)
        requires { 0 < self.old.spare_capacity }
        ensures timers { self.new.timers ≡ with_timer_change self.old.timers change.now }
        ensures room { self.old.spare_capacity ≤ self.new.spare_capacity + 1 }
    {
        match change {
            TimerChange::Set(sid, at) => self.put(*sid, *at),
            TimerChange::Clear(sid) => self.clear(*sid),
        }
    }
}
