//! What is known of every service, for waiters to come: kept in runs of neighbouring serials of
//! which the same is known. Each run has its last serial, and goes from behind the run before it up
//! to that one.
ghost use Rattle.std.specs.Prelude.{◌≡◌, ◌==◌, ◌≤◌, ◌<◌, ◌+◌, ◌-◌, ◌*◌, ◌++◌, [], ◌∷◌, ℕ, true, false, length, take, drop, slice_get, slice_set, nat_le, nat_lt, vec_len, vec_capacity, if◌then◌else◌, IsOk, IfSome, IsSomeAnd, OnOk, OnErr};
ghost use Rattle.std.specs.List.{list_all, list_any, remove};
ghost use Rattle.s6_events.specs.Newest.{mark_of};
ghost use Rattle.wait_conditions.specs.States.{state_in, state_over, IsCovered, IsRepeated};
ghost use Rattle.wait_conditions.specs.SupervisorState.{state_after};

use crate::supervisor_state::{SupervisorState, mark_in};
use s6_events::{Moment, NoMemory, Sid};
use std::alloc::Allocator;
use std::marker::Model;

/// What is known of the services of one run of serials: of each one above the `last` of the run
/// before it, up to its own `last`.
#[derive(Clone, Copy, Debug)]
pub struct StateRun {
    pub last: Sid,
    pub state: SupervisorState,
}

/// What the marks say of every service, in runs of neighbouring serials of which the same is known.
/// Services that were dropped have all ended, so they share the runs between those that were not.
/// However long a tree runs, there are at most two runs for each service that was not dropped, and
/// one more.
#[derive(Drop)]
pub struct ServiceStates<A: Allocator> {
    runs: Vec<StateRun, A>,
}

impl<A: Allocator> Model for ServiceStates<A> {
    ghost use Rattle.std.specs.Prelude.{◌-◌, vec_len, vec_capacity};
    ghost use Rattle.wait_conditions.specs.States.{RunList};

    ghost Value = { RunList };

    ghost view = { λ s. record { runs = s.runs.items; spare_capacity = vec_capacity s.runs - vec_len s.runs } };
}

// What the runs say of a service: the first run that reaches up to its serial says it. Of one
// behind the last run the same is known as of a service with no mark.
fn state_of_service(runs: &[StateRun], sid: Sid) -> SupervisorState
    ensures { result ≡ state_in runs.now sid }
{
    for run in runs {
        if sid.0 <= run.last.0 {
            return run.state;
        }
    }
    SupervisorState::unseen()
}

// The place of the run that this serial is in, which is the first that reaches up to it; or the
// end, where none does.
fn place_of(runs: &[StateRun], sid: Sid) -> usize
    ensures bound { result ≤ length runs.now }
    ensures before { list_all (λ r. nat_lt r.last sid) (take result runs.now) ≡ true }
    ensures stop { IfSome (slice_get runs.now result) (λ r. nat_lt r.last sid ≡ false) }
{
    let mut place = 0;
    for run in runs {
        if run.last.0 >= sid.0 {
            return place;
        }
        place += 1;
    }
    place
}

// Whether a run reaches no further than another one.
fn reaches_no_further(run: StateRun, other: StateRun) -> bool
    ensures bound { result ≡ true → run.last ≤ other.last }
    ensures all { run.last ≤ other.last → result ≡ true }
{
    run.last.0 <= other.last.0
}

// Whether a run says the same as the one after it, and reaches no further than that one.
fn says_the_same(run: StateRun, after: StateRun) -> bool
    ensures reach { result ≡ true → run.last ≤ after.last }
    ensures same { result ≡ true → run.state ≡ after.state }
    ensures all { run.last ≤ after.last → run.state ≡ after.state → result ≡ true }
{
    run.last.0 <= after.last.0 && run.state == after.state
}

// Whether the run at this place reaches no further than the one before it, so that it has no serial
// of its own.
fn is_covered(runs: &[StateRun], place: usize) -> bool
    requires { place < length runs.now }
    ensures same { result ≡ true → (sid : ℕ) →
        state_in (remove runs.now place) sid ≡ state_in runs.now sid }
    ensures all { IsCovered runs.now place → result ≡ true }
{
    if place == 0 {
        return false;
    }
    reaches_no_further(runs[place], runs[place - 1])
}

// Whether the run at this place says the same as the one after it, and reaches no further than that
// one.
fn is_repeated(runs: &[StateRun], place: usize) -> bool
    requires { place < length runs.now }
    ensures same { result ≡ true → (sid : ℕ) →
        state_in (remove runs.now place) sid ≡ state_in runs.now sid }
    ensures all { IsRepeated runs.now place → result ≡ true }
{
    if place + 1 >= runs.len() {
        return false;
    }
    says_the_same(runs[place], runs[place + 1])
}

// Whether a run ends with this serial.
fn ends_with(run: StateRun, last: u64) -> bool
    ensures last { result ≡ true → run.last ≡ last }
    ensures all { run.last ≡ last → result ≡ true }
{
    run.last.0 == last
}

// Whether the run before this place ends with the serial just below this one, or there is no such
// serial: then the run at this place begins with this serial.
fn is_reached_below(runs: &[StateRun], place: usize, sid: Sid) -> bool
    requires { place ≤ length runs.now }
    ensures below { result ≡ true → (other : ℕ) → other < sid
        → list_any (λ r. nat_le other r.last) (take place runs.now) ≡ true }
    ensures first { sid ≡ 0 → result ≡ true }
    ensures all { 0 < place → IsSomeAnd (slice_get runs.now (place - 1)) (λ r. r.last + 1 ≡ sid)
        → result ≡ true }
{
    sid.0 == 0 || (place > 0 && ends_with(runs[place - 1], sid.0 - 1))
}

// Whether the run at this place is that of the service alone.
fn is_of_one(runs: &[StateRun], place: usize, sid: Sid) -> bool
    ensures within { result ≡ true → place < length runs.now }
    ensures last { result ≡ true → IfSome (slice_get runs.now place) (λ r. r.last ≡ sid) }
    ensures below { result ≡ true → (other : ℕ) → other < sid
        → list_any (λ r. nat_le other r.last) (take place runs.now) ≡ true }
    ensures first { sid ≡ 0 → IsSomeAnd (slice_get runs.now place) (λ r. r.last ≡ sid)
        → result ≡ true }
    ensures all { 0 < place → IsSomeAnd (slice_get runs.now (place - 1)) (λ r. r.last + 1 ≡ sid)
        → IsSomeAnd (slice_get runs.now place) (λ r. r.last ≡ sid) → result ≡ true }
{
    place < runs.len() && ends_with(runs[place], sid.0) && is_reached_below(runs, place, sid)
}

// Whether a run says this, and ends with the serial just below this one.
fn says_just_below(run: StateRun, sid: Sid, state: SupervisorState) -> bool
    ensures last { result ≡ true → run.last + 1 ≡ sid }
    ensures state { result ≡ true → run.state ≡ state }
    ensures other { run.last + 1 ≡ sid → run.state ≡ state → result ≡ true }
{
    run.last.0 < sid.0 && run.last.0 + 1 == sid.0 && run.state == state
}

// Whether the run before this place says this, and ends with the serial just below this one.
fn is_said_before(runs: &[StateRun], place: usize, sid: Sid, state: SupervisorState) -> bool
    requires { place ≤ length runs.now }
    ensures place { result ≡ true → 0 < place }
    ensures run { result ≡ true → IfSome (slice_get runs.now (place - 1))
        (λ r. (r.last + 1 ≡ sid) × (r.state ≡ state)) }
    ensures other { 0 < place → IsSomeAnd (slice_get runs.now (place - 1))
        (λ r. (r.last + 1 ≡ sid) × (r.state ≡ state)) → result ≡ true }
{
    place > 0 && says_just_below(runs[place - 1], sid, state)
}

// Whether there is a run at this place that is not needed: without it the same is known of each
// service.
fn is_redundant(runs: &[StateRun], place: usize) -> bool
    ensures within { result ≡ true → place < length runs.now }
    ensures same { result ≡ true → (sid : ℕ) →
        state_in (remove runs.now place) sid ≡ state_in runs.now sid }
    ensures covered { IsCovered runs.now place → result ≡ true }
    ensures repeated { IsRepeated runs.now place → result ≡ true }
{
    place < runs.len() && (is_covered(runs, place) || is_repeated(runs, place))
}

// Puts a run in at this place; there is room for it.
fn insert_run<A: Allocator>(
    runs: &mut Vec<StateRun, A>,
    place: usize,
    last: Sid,
    state: SupervisorState,
)
    requires place { place ≤ vec_len runs.old }
    requires room { vec_len runs.old < vec_capacity runs.old }
    ensures runs { runs.new.items ≡ take place runs.old.items
        ++ record { last = last; state = state } ∷ drop place runs.old.items }
    ensures len { vec_len runs.new ≡ vec_len runs.old + 1 }
    ensures capacity { vec_capacity runs.new ≡ vec_capacity runs.old }
{
    runs.insert(place, StateRun { last, state }).unwrap();
}

// Puts a run in at this place that ends with the serial just below this one, if there is such a
// serial; there is room for it.
fn insert_below<A: Allocator>(
    runs: &mut Vec<StateRun, A>,
    place: usize,
    sid: Sid,
    state: SupervisorState,
)
    requires place { place ≤ vec_len runs.old }
    requires room { vec_len runs.old < vec_capacity runs.old }
    ensures runs { runs.new.items ≡ (if nat_lt 0 sid
        then take place runs.old.items
        ++ record { last = sid - 1; state = state } ∷ drop place runs.old.items
        else runs.old.items) }
    ensures len { vec_len runs.new ≤ vec_len runs.old + 1 }
    ensures capacity { vec_capacity runs.new ≡ vec_capacity runs.old }
{
    if sid.0 > 0 {
        insert_run(runs, place, Sid(sid.0 - 1), state);
    }
}

// Replaces the run at this place.
fn set_run<A: Allocator>(
    runs: &mut Vec<StateRun, A>,
    place: usize,
    last: Sid,
    state: SupervisorState,
)
    requires { place < vec_len runs.old }
    ensures runs { runs.new.items
        ≡ slice_set runs.old.items place (record { last = last; state = state }) }
    ensures len { vec_len runs.new ≡ vec_len runs.old }
    ensures capacity { vec_capacity runs.new ≡ vec_capacity runs.old }
{
    runs[place] = StateRun { last, state };
}

impl<A: Allocator + Copy> ServiceStates<A> {
    /// The states where no service has a mark.
    pub fn new(alloc: A) -> ServiceStates<A>
        ensures { result.runs ≡ [] }
    {
        ServiceStates {
            runs: Vec::new(alloc),
        }
    }

    /// Makes room for the runs that this many more moments may add. `NoMemory` where memory is
    /// refused: nothing has changed then.
    pub fn reserve(&mut self, moments: usize) -> Result<(), NoMemory>
        ensures runs { self.new.runs ≡ self.old.runs }
        ensures ok { OnOk result (2 * moments ≤ self.new.spare_capacity) }
        ensures err { OnErr result (self.new ≡ self.old) }
        ensures quiet { moments ≡ 0 → IsOk result }
    {
        // A moment adds two runs at most (`put`).
        let Some(room) = moments.checked_mul(2) else {
            return Err(NoMemory);
        };
        self.runs.reserve(room)?;
        Ok(())
    }
}

impl<A: Allocator> ServiceStates<A> {
    /// The runs in their order.
    pub fn runs(&self) -> &[StateRun]
        ensures { result.now ≡ self.now.runs }
    {
        &self.runs
    }

    /// What is known of a service once these moments have come too, one after the other.
    pub fn after(&self, sid: Sid, moments: &[Moment]) -> SupervisorState
        ensures { result ≡ state_over sid moments.now (state_in self.now.runs sid) }
    {
        let mut state = state_of_service(&self.runs, sid);
        for moment in moments {
            state = state.after(mark_in(sid, moment));
        }
        state
    }

    /// Takes in one more moment: a mark may change what is known of its service, a clock reading
    /// nothing. There is room for it.
    pub fn take_in(&mut self, moment: &Moment)
        requires { 2 ≤ self.old.spare_capacity }
        ensures states { (sid : ℕ) → state_in self.new.runs sid
            ≡ state_after (mark_of sid moment.now) (state_in self.old.runs sid) }
        ensures room { self.old.spare_capacity ≤ self.new.spare_capacity + 2 }
    {
        if let Moment::Event(sid, mark) = moment {
            let was = state_of_service(&self.runs, *sid);
            let state = was.after(Some(*mark));
            if state != was {
                self.put(*sid, state);
            }
        }
    }

    /// Takes in these moments, one after the other; there is room for them.
    pub fn take_in_all(&mut self, moments: &[Moment])
        requires { 2 * length moments.now ≤ self.old.spare_capacity }
        ensures states { (sid : ℕ) → state_in self.new.runs sid
            ≡ state_over sid moments.now (state_in self.old.runs sid) }
    {
        for moment in moments {
            self.take_in(moment);
        }
    }

    // Sets what is known of this service, and takes out runs that are then not needed; there is
    // room for that.
    fn put(&mut self, sid: Sid, state: SupervisorState)
        requires { 2 ≤ self.old.spare_capacity }
        ensures states { (other : ℕ) → state_in self.new.runs other
            ≡ (if other == sid then state else state_in self.old.runs other) }
        ensures room { self.old.spare_capacity ≤ self.new.spare_capacity + 2 }
    {
        let place = place_of(&self.runs, sid);
        // The service has a run of its own: that run says the new state.
        if is_of_one(&self.runs, place, sid) {
            set_run(&mut self.runs, place, sid, state);
            self.tidy_at(place);
            return;
        }
        // The run just below it says the new state already: it reaches one serial further.
        if is_said_before(&self.runs, place, sid, state) {
            set_run(&mut self.runs, place - 1, sid, state);
            return;
        }
        // Else its run is cut: the serials below it, as they were, it alone, and those above it.
        let was = state_of_service(&self.runs, sid);
        insert_run(&mut self.runs, place, sid, state);
        insert_below(&mut self.runs, place, sid, was);
        self.tidy(place);
    }

    // Takes out the runs that are not needed, at the four places from one before this one to two
    // after it. The last one is looked at first, so that the places of the others stay.
    fn tidy(&mut self, place: usize)
        ensures states { (sid : ℕ) → state_in self.new.runs sid ≡ state_in self.old.runs sid }
        ensures room { self.old.spare_capacity ≤ self.new.spare_capacity }
    {
        for offset in 0..4usize {
            if let Some(place) = place.checked_add(2).and_then(|end| end.checked_sub(offset)) {
                self.drop_redundant(place);
            }
        }
    }

    // Takes out the run at this place and the one before it, where each says the same as the next
    // one.
    fn tidy_at(&mut self, place: usize)
        ensures states { (sid : ℕ) → state_in self.new.runs sid ≡ state_in self.old.runs sid }
        ensures room { self.old.spare_capacity ≤ self.new.spare_capacity }
    {
        self.drop_repeated(place);
        if place > 0 {
            self.drop_repeated(place - 1);
        }
    }

    // Takes out the run at this place, if it says the same as the next one, which then covers its
    // serials.
    fn drop_repeated(&mut self, place: usize)
        ensures states { (sid : ℕ) → state_in self.new.runs sid ≡ state_in self.old.runs sid }
        ensures room { self.old.spare_capacity ≤ self.new.spare_capacity }
    {
        if place < self.runs.len() && is_repeated(&self.runs, place) {
            self.runs.remove(place);
        }
    }

    // Takes out the run at this place, if without it the same is known of each service.
    fn drop_redundant(&mut self, place: usize)
        ensures states { (sid : ℕ) → state_in self.new.runs sid ≡ state_in self.old.runs sid }
        ensures room { self.old.spare_capacity ≤ self.new.spare_capacity }
    {
        if is_redundant(&self.runs, place) {
            self.runs.remove(place);
        }
    }
}
