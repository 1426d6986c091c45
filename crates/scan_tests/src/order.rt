//! Services that stay and services that come later, in the order in which they came.
use crate::tables::{control, scan};
use s6_events::{At, Name, Sid};
use servicedir::Config;
use std::alloc::Global;
use std::process::Abort;
use svscan_core::{Entry, Registry, ScanOrder};

// The name of the service of this number: s01, s02 and so on.
fn name_of(rt: &impl Abort, number: u8) -> Name {
    let text = [b's', b'0' + number / 10 % 10, b'0' + number % 10];
    Name::new(&text).expect(rt, "a name")
}

// The entry of this number. It is not started.
fn entry_of(rt: &impl Abort, number: u8) -> Entry {
    let config = Config {
        down: true,
        ..Config::plain()
    };
    Entry {
        name: name_of(rt, number),
        config: Some(config),
    }
}

// Of 64 services, each so many numbers after the last.
fn each(rt: &impl Abort, alloc: Global, stride: u8) -> Vec<Entry, Global> {
    let mut entries = Vec::new(alloc);
    for number in 1..65u8 {
        if number % stride.max(1) == 0 {
            entries.push(entry_of(rt, number)).expect(rt, "memory");
        }
    }
    entries
}

// After a scan of each so many of the 64, for which there is memory, so many stand.
fn scan_each(
    rt: &impl Abort,
    alloc: Global,
    registry: &mut Registry<Global>,
    stride: u8,
    wanted: usize,
) {
    let entries = each(rt, alloc, stride);
    let answer = scan(rt, alloc, registry, entries.as_slice(), At::zero());
    assert!(rt; answer.is_some());
    assert_eq!(rt; registry.len(), wanted);
}

// The services that the last scan didn't list leave.
fn nuke(rt: &impl Abort, registry: &mut Registry<Global>) {
    let left = control(rt, registry, ScanOrder::Nuke, At::zero());
    assert!(rt; left.is_some());
}

// The service at this place has this serial and this name.
fn stands_at(rt: &impl Abort, registry: &Registry<Global>, place: usize, serial: u64, name: u8) {
    let found = (registry.nth(place), registry.find(name_of(rt, name)));
    assert_eq!(rt; found, (Some(Sid(serial)), Some(Sid(serial))), "at {place}");
}

// Eight of the first 64, then those that came again, in the order of their names.
fn stand_in_order(rt: &impl Abort, registry: &Registry<Global>) {
    stands_at(rt, registry, 0, 8, 8);
    stands_at(rt, registry, 7, 64, 64);
    stands_at(rt, registry, 8, 65, 1);
    stands_at(rt, registry, 14, 71, 7);
    stands_at(rt, registry, 15, 72, 9);
    stands_at(rt, registry, 63, 120, 63);
}

// Each eighth of 64 stays, the others leave, and come again under new serials.
#[test]
fn services_keep_their_order(rt: HostRuntime) {
    let mut registry = Registry::new(rt.alloc());
    scan_each(&rt, rt.alloc(), &mut registry, 1, 64);
    scan_each(&rt, rt.alloc(), &mut registry, 8, 64);
    nuke(&rt, &mut registry);
    scan_each(&rt, rt.alloc(), &mut registry, 8, 8);
    scan_each(&rt, rt.alloc(), &mut registry, 1, 64);
    stand_in_order(&rt, &registry);
}
