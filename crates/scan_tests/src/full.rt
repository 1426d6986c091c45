//! A full table: as many services as may stand are added and told to end.
ghost use Rattle.std.specs.Prelude.{IfSome};
ghost use Rattle.svscan_core.specs.Registry.{IsPlanOf};

use crate::tables::{control, prepare, scan, wants_services};
use s6_events::{At, Mark, Name, Order, Sid};
use servicedir::Config;
use std::alloc::Global;
use std::process::Abort;
use svscan_core::{
    Entry, Event, Listed, Registry, RegistryAnswer, RegistryPlan, ScanOrder, ServiceWork,
};

// The name of this number: n001, n002 and so on.
fn name_of(rt: &impl Abort, number: u16) -> Name {
    let hundreds = (number / 100 % 10) as u8;
    let tens = (number / 10 % 10) as u8;
    let ones = (number % 10) as u8;
    let text = [b'n', b'0' + hundreds, b'0' + tens, b'0' + ones];
    Name::new(&text).expect(rt, "a name")
}

// 260 names, from the last one to the first.
fn too_many(rt: &impl Abort, alloc: Global) -> Vec<Entry, Global> {
    let mut entries = Vec::new(alloc);
    for back in 0..260u16 {
        let name = name_of(rt, 260 - back);
        let config = Some(Config::plain());
        entries.push(Entry { name, config }).expect(rt, "memory");
    }
    entries
}

// A service that is added, and begins to run.
fn add_service(rt: &impl Abort, wanted: &mut RegistryAnswer<Global>, sid: Sid, name: Name) {
    let mark = Mark::SupervisorStarted;
    let listed = wanted.listed.push(Listed::Added(sid, name));
    let told = wanted.events.push(Event { sid, mark });
    let ordered = wanted.orders.push(Order::Run(sid, 1, name, None));
    assert!(rt; listed.is_ok() && told.is_ok() && ordered.is_ok());
}

// A service that finds no place.
fn add_full(rt: &impl Abort, wanted: &mut RegistryAnswer<Global>, name: Name) {
    let listed = wanted.listed.push(Listed::Full(name));
    assert!(rt; listed.is_ok());
}

// What comes of them: the first 256 are added, in the order of their bytes, and the others find no
// place.
fn full_table(rt: &impl Abort, alloc: Global) -> RegistryAnswer<Global> {
    let mut wanted = RegistryAnswer {
        events: Vec::new(alloc),
        orders: Vec::new(alloc),
        dropped: Vec::new(alloc),
        listed: Vec::new(alloc),
    };
    for number in 1..261u16 {
        let name = name_of(rt, number);
        if number > 256 {
            add_full(rt, &mut wanted, name);
        } else {
            add_service(rt, &mut wanted, Sid(u64::from(number)), name);
        }
    }
    wanted
}

// What the step gives that was worked out last is what was wanted.
fn tells(rt: &impl Abort, registry: &Registry<Global>, wanted: &RegistryAnswer<Global>) {
    assert_eq!(rt; registry.events(), wanted.events.as_slice());
    assert_eq!(rt; registry.orders(), wanted.orders.as_slice());
    assert_eq!(rt; registry.listed(), wanted.listed.as_slice());
    assert_eq!(rt;
        (registry.dropped().is_empty(), registry.is_stale()),
        (true, false)
    );
    assert_eq!(rt; registry.timers().len(), 256);
}

// What was answered is what was wanted.
fn answers(rt: &impl Abort, answer: &RegistryAnswer<Global>, wanted: &RegistryAnswer<Global>) {
    assert_eq!(rt; answer.events.as_slice(), wanted.events.as_slice());
    assert_eq!(rt; answer.orders.as_slice(), wanted.orders.as_slice());
    assert_eq!(rt; answer.listed.as_slice(), wanted.listed.as_slice());
}

// A step that takes this listing at the first moment.
fn prepare_listing(
    rt: &impl Abort,
    alloc: Global,
    registry: &mut Registry<Global>,
    listing: &[Entry],
) -> RegistryPlan
    ensures { IsPlanOf registry.new result }
{
    let work = ServiceWork::Listing(listing);
    let planned = prepare(rt, alloc, registry, &[], &work, At::zero());
    planned.expect(rt, "memory")
}

// A step that fills the table shows nothing before it is made.
fn fill_in_a_step(rt: &impl Abort, alloc: Global, registry: &mut Registry<Global>) {
    let plan = prepare_listing(rt, alloc, registry, &too_many(rt, alloc));
    tells(rt, registry, &full_table(rt, alloc));
    assert_eq!(rt; registry.len(), 0);
    registry.commit(plan);
}

#[test]
fn a_step_fills_the_table(rt: HostRuntime) {
    let mut registry = Registry::new(rt.alloc());
    fill_in_a_step(&rt, rt.alloc(), &mut registry);
    wants_services(&rt, rt.alloc(), &registry, 256);
}

// A scan that fills the table.
fn fill_in_a_scan(rt: &impl Abort, alloc: Global, registry: &mut Registry<Global>) {
    let answer = scan(rt, alloc, registry, &too_many(rt, alloc), At::zero());
    answers(rt, &answer.expect(rt, "memory"), &full_table(rt, alloc));
}

#[test]
fn a_scan_fills_the_table(rt: HostRuntime) {
    let mut registry = Registry::new(rt.alloc());
    fill_in_a_scan(&rt, rt.alloc(), &mut registry);
    wants_services(&rt, rt.alloc(), &registry, 256);
    let left = control(&rt, &mut registry, ScanOrder::Terminate, At::zero());
    assert!(rt; left.is_some());
}
