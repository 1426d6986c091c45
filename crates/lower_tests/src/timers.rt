//! Deadlines by their public calls.
use crate::shared::{TrialCounts, at, new_heap};
use deadlines::{Deadlines, TimerChange};
use s6_events::{At, NoMemory, Sid};
use std::alloc::{Allocator, Global};
use std::process::Abort;

// The timer of a service is set to a moment, or cleared where there is none.
fn change<R: Abort>(rt: &R, deadlines: &mut Deadlines<Global>, sid: u64, moment: Option<u64>) {
    match moment {
        Some(millis) => deadlines.set(Sid(sid), at(rt, millis)).expect(rt, "memory"),
        None => deadlines.clear(Sid(sid)),
    }
}

// These are due at this moment.
fn wants_due<R: Abort>(
    rt: &R,
    alloc: Global,
    deadlines: &Deadlines<Global>,
    now: u64,
    due: &[Sid],
) {
    let found = deadlines.due(alloc, at(rt, now)).expect(rt, "memory");
    assert_eq!(rt; found.as_slice(), due, "at {now}");
}

#[test]
fn due_services_come_in_rising_serial(rt: HostRuntime) {
    // A service, the moment to which its timer is set, or none where it is cleared, and which are
    // due at a moment then.
    let rows: &[(u64, Option<u64>, u64, &[Sid])] = &[
        (1, Some(1300), 1299, &[]),
        (1, Some(1300), 1300, &[Sid(1)]),
        (1, None, 1300, &[]),
        (5, Some(10), 9, &[]),
        (2, Some(30), 20, &[Sid(5)]),
        (9, Some(20), 20, &[Sid(5), Sid(9)]),
        (1, Some(20), 20, &[Sid(1), Sid(5), Sid(9)]),
        (5, Some(21), 20, &[Sid(1), Sid(9)]),
        (9, None, 20, &[Sid(1)]),
        (7, None, 30, &[Sid(1), Sid(2), Sid(5)]),
    ];
    let mut deadlines = Deadlines::new(rt.alloc());
    for (sid, moment, now, due) in rows {
        change(&rt, &mut deadlines, *sid, *moment);
        wants_due(&rt, rt.alloc(), &deadlines, *now, due);
    }
}

// Sets the timer of service 3 and makes the changes of a plan, as far as memory goes.
fn make_a_plan<A: Allocator + Copy>(deadlines: &mut Deadlines<A>) -> Result<(), NoMemory> {
    let zero = At::zero();
    deadlines.set(Sid(3), zero)?;
    let plan = deadlines.prepare(&[
        TimerChange::Set(Sid(4), zero),
        TimerChange::Set(Sid(2), zero),
        TimerChange::Clear(Sid(3)),
        TimerChange::Set(Sid(6), zero),
        TimerChange::Set(Sid(5), zero),
        TimerChange::Set(Sid(7), zero),
    ])?;
    deadlines.commit(plan);
    Ok(())
}

// Whether the services 2, 4, 5, 6 and 7 are due then.
fn are_due_after_a_plan<A: Allocator + Copy>(alloc: A) -> Result<bool, NoMemory> {
    let mut deadlines = Deadlines::new(alloc);
    make_a_plan(&mut deadlines)?;
    let due = deadlines.due(alloc, At::zero())?;
    Ok(due.as_slice() == [Sid(2), Sid(4), Sid(5), Sid(6), Sid(7)].as_slice())
}

// On heaps of a growing size each growth is the first one refused.
#[test]
fn a_refused_growth_is_told(rt: HostRuntime) {
    let mut counts = TrialCounts::new();
    for step in 0..80usize {
        let heap = new_heap(&rt, rt.alloc(), 16 * step);
        counts.add(&rt, are_due_after_a_plan(&heap));
    }
    counts.wants_more_than(&rt, 2);
}
