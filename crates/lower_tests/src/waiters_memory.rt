//! The memory of waiters is bounded by the services and waiters that stand, and not by how many
//! came and went.

use crate::shared::new_heap;
use linked_list_allocator::LocalHeap;
use s6_events::{Mark, Moment, Sid};
use std::alloc::Allocator;
use std::process::Abort;
use wait_conditions::Waits;

// The marks of a service that is supervised, runs, dies, and is dropped.
const LIFE: &[Mark] = &[
    Mark::SupervisorStarted,
    Mark::Spawned,
    Mark::Ready,
    Mark::Died,
    Mark::FinishDone,
    Mark::SupervisorEnded,
];

// So many of these marks of a service.
fn live<A: Allocator + Copy, R: Abort>(rt: &R, waits: &mut Waits<A>, sid: u64, marks: &[Mark]) {
    for mark in marks {
        let released = waits.moment(&Moment::Event(Sid(sid), *mark));
        assert!(rt; released.is_ok());
    }
}

// Services of these serials come and go; each tenth stays for ten others.
fn come_and_go<A: Allocator + Copy, R: Abort>(rt: &R, waits: &mut Waits<A>, from: u64, to: u64) {
    for sid in from..to {
        live(rt, waits, sid, &LIFE[..3]);
        if sid % 10 != 0 {
            live(rt, waits, sid, &LIFE[3..]);
        } else if sid > 10 {
            live(rt, waits, sid - 10, &LIFE[3..]);
        }
    }
}

// As much of the heap is used after many services as after some, and that is more than nothing.
fn use_no_more<A: Allocator + Copy, R: Abort>(rt: &R, heap: &LocalHeap, waits: &mut Waits<A>) {
    come_and_go(rt, waits, 1, 100);
    let used = heap.used();
    come_and_go(rt, waits, 100, 3_000);
    wants_used(rt, used, heap.used());
}

fn wants_used<R: Abort>(rt: &R, before: usize, after: usize) {
    assert!(rt; before > 0, "the services that stand are known");
    assert_eq!(rt; after, before);
}

#[test]
fn services_that_were_dropped_take_no_memory(rt: HostRuntime) {
    let heap = new_heap(&rt, rt.alloc(), 65_536);
    use_no_more(&rt, &heap, &mut Waits::new(&heap));
}
