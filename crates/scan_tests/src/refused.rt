//! Refused memory in a step of the table, growth by growth.
use crate::tables::{control, listing, prepare, scan, shown};
use linked_list_allocator::LocalHeap;
use s6_events::At;
use std::alloc::{Allocator, Global};
use std::process::Abort;
use supervise_core::ChartState;
use svscan_core::{Entry, Registry, ScanOrder, ServiceWork};

// Memory of which so many bytes are left once this is taken.
fn filler(heap: &LocalHeap, left: usize) -> Option<Vec<u8, &LocalHeap>> {
    let free = 65_536usize.saturating_sub(heap.used());
    Vec::with_capacity(heap, free.saturating_sub(left)).ok()
}

fn are_same(rt: &impl Abort, before: &[ChartState], after: &[ChartState]) {
    assert!(rt; before == after);
}

// Whether this step is refused. It shows what was shown.
fn is_refused<A: Allocator + Copy>(
    rt: &impl Abort,
    alloc: Global,
    registry: &mut Registry<A>,
    work: &ServiceWork,
) -> bool {
    let before = shown(rt, alloc, registry);
    let is_refused = prepare(rt, alloc, registry, &[], work, At::zero()).is_none();
    are_same(rt, &before, &shown(rt, alloc, registry));
    is_refused
}

// The step is made.
fn make<A: Allocator + Copy>(
    rt: &impl Abort,
    alloc: Global,
    registry: &mut Registry<A>,
    work: &ServiceWork,
) {
    let planned = prepare(rt, alloc, registry, &[], work, At::zero());
    registry.commit(planned.expect(rt, "memory"));
}

// A step that is refused shows what was shown; without the filler it is made. Whether it was
// refused.
fn is_step_refused<A: Allocator + Copy>(
    rt: &impl Abort,
    alloc: Global,
    registry: &mut Registry<A>,
    listing: &[Entry],
    filler: Option<Vec<u8, A>>,
) -> bool {
    let work = ServiceWork::Listing(listing);
    let is_refused = is_refused(rt, alloc, registry, &work);
    drop(filler);
    make(rt, alloc, registry, &work);
    is_refused
}

// Whether the scan is made, or else leaves what was shown.
fn is_scanned<A: Allocator + Copy>(
    rt: &impl Abort,
    alloc: Global,
    registry: &mut Registry<A>,
    listing: &[Entry],
) -> bool {
    let before = shown(rt, alloc, registry);
    let is_scanned = scan(rt, alloc, registry, listing, At::zero()).is_some();
    if !is_scanned {
        are_same(rt, &before, &shown(rt, alloc, registry));
    }
    is_scanned
}

// A scan that is refused leaves what was shown; without the filler it is made. Whether it was
// refused.
fn is_scan_refused<A: Allocator + Copy>(
    rt: &impl Abort,
    alloc: Global,
    registry: &mut Registry<A>,
    listing: &[Entry],
    filler: Option<Vec<u8, A>>,
) -> bool {
    if is_scanned(rt, alloc, registry, listing) {
        return false;
    }
    drop(filler);
    let answer = scan(rt, alloc, registry, listing, At::zero());
    assert!(rt; answer.is_some());
    true
}

// With so many bytes left for a step, and then for a scan, after which nine services stand: how
// many of the two were refused.
fn with_little<'h>(
    rt: &impl Abort,
    alloc: Global,
    heap: &'h LocalHeap,
    registry: &mut Registry<&'h LocalHeap>,
    left: usize,
) -> u32 {
    let few = listing(rt, alloc, "b c d e");
    let step = is_step_refused(rt, alloc, registry, &few, filler(heap, left));
    let others = listing(rt, alloc, "b f g h i j");
    let scan = is_scan_refused(rt, alloc, registry, &others, filler(heap, left));
    assert_eq!(rt; registry.len(), 9, "with {left}");
    u32::from(step) + u32::from(scan)
}

fn new_heap(rt: &impl Abort, alloc: Global) -> LocalHeap {
    LocalHeap::new(alloc, 65_536).expect(rt, "memory")
}

// With more and more memory: each growth is the first one refused, once.
#[test]
fn a_refused_step_leaves_what_is_shown(rt: HostRuntime) {
    let mut refusals = 0u32;
    let mut without = 0u32;
    for step in 0..180usize {
        let heap = new_heap(&rt, rt.alloc());
        let mut registry = Registry::new(&heap);
        let refused = with_little(&rt, rt.alloc(), &heap, &mut registry, 64 * step);
        refusals = refusals.saturating_add(refused);
        if refused == 0 {
            without = without.saturating_add(1);
        }
    }
    assert!(&rt; refusals > 20 && without > 2, "{refusals} {without}");
}

// Whether Terminate is refused with so many bytes left.
fn is_order_refused<'h>(
    rt: &impl Abort,
    heap: &'h LocalHeap,
    registry: &mut Registry<&'h LocalHeap>,
    left: usize,
) -> bool {
    let _filler = filler(heap, left);
    control(rt, registry, ScanOrder::Terminate, At::zero()).is_none()
}

// Some services are added, for which there is memory.
fn add_few<A: Allocator + Copy>(rt: &impl Abort, alloc: Global, registry: &mut Registry<A>) {
    let few = listing(rt, alloc, "b c d e");
    let answer = scan(rt, alloc, registry, &few, At::zero());
    assert!(rt; answer.is_some());
}

// Terminate with so many bytes left, and then a step that does nothing: whether the order was
// refused. If so, it isn't made all the same.
fn refuse_order<'h>(
    rt: &impl Abort,
    alloc: Global,
    heap: &'h LocalHeap,
    registry: &mut Registry<&'h LocalHeap>,
    left: usize,
) -> bool {
    add_few(rt, alloc, registry);
    let before = shown(rt, alloc, registry);
    let is_refused = is_order_refused(rt, heap, registry, left);
    make(rt, alloc, registry, &ServiceWork::Nothing);
    if is_refused {
        are_same(rt, &before, &shown(rt, alloc, registry));
    }
    is_refused
}

#[test]
fn a_refused_order_is_not_made_by_a_commit(rt: HostRuntime) {
    let mut refused = 0u32;
    for step in 0..180usize {
        let heap = new_heap(&rt, rt.alloc());
        let mut registry = Registry::new(&heap);
        if refuse_order(&rt, rt.alloc(), &heap, &mut registry, 64 * step) {
            refused = refused.saturating_add(1);
        }
    }
    assert!(&rt; refused > 2, "{refused}");
}
