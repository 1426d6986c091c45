//! Two lanes are served at once.
use crate::parts::{AskedLog, TestParts, new_log, new_probe, new_tree};
use crate::scenes::same;
use crate::stage::play_scene;
use order_lanes::probe::Probe;
use order_lanes::{AskFault, Backend, Report};
use s6_events::{NoMemory, Order};
use std::alloc::Global;
use std::process::Abort;
use std::sync::atomic::{AtomicU64, Ordering};
use std::sync::{Arc, Wait};
use std::thread;
use std::time::{Clock, Duration};

/// How many of both backends came, and 256 for each of these that met the other.
type MetCounter = Arc<AtomicU64, Global>;

/// A backend that waits at its first order for the other one's.
#[derive(Drop)]
struct Meeting<R> {
    rt: R,
    probe: Probe<R>,
    count: MetCounter,
}

impl<R: Wait + Clock + Drop> Backend for Meeting<R> {
    ghost asked = { λ m. m.probe.asked };

    ghost given = { λ m. m.probe.given };

    fn ask(&mut self, order: Order) -> Result<(), (Order, AskFault)> {
        wait_for_both(&self.rt, &self.count);
        self.probe.ask(order)
    }

    fn report(&mut self) -> Option<Report> {
        self.probe.report()
    }
}

// One more has come. It waits for the other, at most ten seconds.
fn wait_for_both<R: Wait + Clock>(rt: &R, count: &AtomicU64) {
    count.fetch_add(1, Ordering::SeqCst);
    for _ in 0..10_000u32 {
        if count.load(Ordering::SeqCst) % 256 == 2 {
            count.fetch_add(256, Ordering::SeqCst);
            break;
        }
        thread::sleep(rt, Duration::from_millis(1));
    }
}

// Adds such a backend.
fn add_meeting<R: Copy + Drop>(
    rt: R,
    alloc: Global,
    log: &AskedLog,
    count: &MetCounter,
    all: &mut Vec<Meeting<R>>,
) -> Result<(), NoMemory> {
    let count = Arc::try_clone(count)?;
    let probe = new_probe(rt, alloc, Vec::new(alloc), log)?;
    all.push(Meeting { rt, probe, count })?;
    Ok(())
}

// A tree that has made no step, and two backends that wait for each other.
fn meetings<R: Copy + Drop>(
    rt: R,
    alloc: Global,
    log: &AskedLog,
    count: &MetCounter,
) -> Result<TestParts<Meeting<R>>, NoMemory> {
    let mut backends = Vec::new(alloc);
    add_meeting(rt, alloc, log, count, &mut backends)?;
    add_meeting(rt, alloc, log, count, &mut backends)?;
    let tree = new_tree(alloc)?;
    Ok(TestParts { tree, backends })
}

/// Two services are started, one of each lane.
const SCENE: &str = "> open 1
> submit 1 0 0 scan first second
> drive 1
Driven { steps: 1, stop: Count }
> serve 1
Ok(())
";

#[test]
fn lanes_run_at_once(rt: HostRuntime) {
    let alloc = rt.alloc();
    let log = new_log(alloc).ok().expect(&rt, "no log");
    let count = Arc::new(alloc, AtomicU64::new(0))
        .ok()
        .expect(&rt, "no count");
    let mut left = meetings(rt, alloc, &log, &count).ok();
    let mut text = Vec::new(alloc);
    play_scene(&rt, alloc, &mut left, SCENE, &mut text);
    same(&rt, text.as_slice(), SCENE);
    look_at_count(&rt, &count);
    look_at_log(&rt, &log);
}

// Both came, and both met the other.
fn look_at_count<R: Abort>(rt: &R, count: &AtomicU64) {
    assert_eq!(rt; count.load(Ordering::SeqCst), 2 + 2 * 256);
}

// Both were asked one order each.
fn look_at_log<R: Wait + Abort>(rt: &R, log: &AskedLog) {
    let orders = log.lock(rt).len();
    assert_eq!(rt; orders, 2);
}
