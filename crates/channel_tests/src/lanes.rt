//! Tests of lanes, desks and the probe. All but the last run with ample memory, and fail where a
//! growth is refused.
ghost use Rattle.std.specs.Prelude.{◌≡◌, [], IfSome};

use order_lanes::probe::Probe;
use order_lanes::{
    AskFault, Backend, Carried, Desk, LANE_ROOM, Lane, LaneRing, Lanes, Report, blocked_lane,
    open_lane_rings, send_all,
};
use s6_events::{Exit, Name, Order, Sid};
use std::alloc::Global;
use std::marker::Brand;
use std::process::Abort;
use std::sync::{Arc, Mutex, Wait};
use std::thread;
use std::thread::Threads;

type AskedLog = Arc<Mutex<Vec<Order>>, Global>;

// The order to start the first `run` of the service of this serial.
fn run(number: u64) -> Order {
    match Name::new(b"web") {
        Some(name) => Order::Run(Sid(number), 1, name, None),
        None => Order::KillFinish(Sid(0), 0),
    }
}

fn kill(number: u64) -> Order {
    Order::Signal(Sid(number), 1, 9)
}

// A log in which nothing is written; None where a growth was refused.
fn try_log(alloc: Global) -> Option<AskedLog> {
    Arc::new(alloc, Mutex::new(Vec::new(alloc))).ok()
}

fn new_log<R: Abort>(rt: &R, alloc: Global) -> AskedLog {
    try_log(alloc).expect(rt, "memory")
}

// What was written into the log.
fn wants_log<R: Wait + Abort>(rt: &R, log: &AskedLog, wanted: &[Order]) {
    let found = log.lock(rt);
    assert!(rt; found.as_slice() == wanted);
}

// A probe that has no reports, writes into this log, and is so often busy; None where a growth was
// refused.
fn try_probe<R: Drop>(rt: R, alloc: Global, busy: u32, log: &AskedLog) -> Option<Probe<R>>
    ensures { IfSome result (λ p. p.asked ≡ []) }
{
    let log = Arc::try_clone(log).ok()?;
    Some(Probe::new(rt, alloc, Vec::new(alloc), busy, log))
}

fn new_probe<R: Abort + Copy + Drop>(rt: R, alloc: Global, busy: u32, log: &AskedLog) -> Probe<R>
    ensures { result.asked ≡ [] }
{
    try_probe(rt, alloc, busy, log).expect(&rt, "memory")
}

// The rings of lanes 0 and 1.
fn two_rings<R: Abort>(rt: &R, alloc: Global) -> (LaneRing, LaneRing)
    ensures { (result.0.number ≡ 0) × (result.1.number ≡ 1) }
{
    let mut rings = open_lane_rings(alloc, 2).expect(rt, "memory");
    let second = rings.pop().expect(rt, "two rings");
    let first = rings.pop().expect(rt, "two rings");
    assert!(rt; first.number() == 0 && second.number() == 1);
    (first, second)
}

// Sends an order into a lane, which has room for it.
fn send<L: Lanes, R: Abort>(rt: &R, lane: &mut Lane<L>, order: Order) {
    assert!(rt; lane.free_places() > 0);
    lane.send(order);
}

// Carries one order, with this answer.
fn wants_carried<B: Backend, L: Lanes, R: Abort>(rt: &R, desk: &mut Desk<B, L>, wanted: Carried) {
    let carried = desk.carry_one();
    assert_eq!(rt; carried, wanted);
}

// Whether all that was sent into the desk's lane was asked.
fn wants_done<B: Backend, L: Lanes, R: Abort>(
    rt: &R,
    desk: &mut Desk<B, L>,
    lane: &mut Lane<L>,
    wanted: bool,
) {
    assert!(rt; lane.number() == desk.lane());
    let done = desk.is_done(lane);
    assert_eq!(rt; done, wanted);
}

// Which lane has fewer than so many free places.
fn wants_blocked<L: Lanes, R: Abort>(
    rt: &R,
    lanes: &mut Vec<Lane<L>>,
    places: usize,
    wanted: Option<usize>,
) {
    let blocked = blocked_lane(lanes, places);
    assert_eq!(rt; blocked, wanted);
}

// Sends orders for which each lane has room.
fn send_each<L: Lanes, R: Abort>(rt: &R, lanes: &mut Vec<Lane<L>>, orders: &[Order]) {
    assert_eq!(rt; blocked_lane(lanes, orders.len()), None);
    assert!(rt; lanes.len() > 0);
    send_all(lanes, orders);
}

#[test]
fn busy_backend_is_asked_again(rt: HostRuntime) {
    let alloc = rt.alloc();
    let (ring, _) = two_rings(&rt, alloc);
    let log = new_log(&rt, alloc);
    ask_until_idle::<_, Brand, _>(&rt, ring, new_probe(rt, alloc, 1, &log));
    wants_log(&rt, &log, &[run(1), kill(1)]);
}

// Two orders go to a backend that is busy once.
fn ask_until_idle<B: Backend, L: Lanes, R: Abort>(rt: &R, ring: LaneRing, backend: B)
    requires ring { ring.ring ≡ L.lane_ring ring.number }
    requires before { B.asked backend ≡ L.asked_before ring.number }
{
    let (mut lane, mut desk) = ring.ends::<B, L>(backend);
    carry_two(rt, &mut lane, &mut desk);
    assert!(rt; desk.report_one().is_none());
}

// The two orders.
fn carry_two<B: Backend, L: Lanes, R: Abort>(rt: &R, lane: &mut Lane<L>, desk: &mut Desk<B, L>) {
    send(rt, lane, run(1));
    send(rt, lane, kill(1));
    wants_carried(rt, desk, Carried::Refused(AskFault::Busy));
    wants_carried(rt, desk, Carried::Asked);
    wants_done(rt, desk, lane, false);
    wants_carried(rt, desk, Carried::Asked);
    wants_carried(rt, desk, Carried::Idle);
    wants_done(rt, desk, lane, true);
}

#[test]
fn each_order_goes_by_its_own_lane(rt: HostRuntime) {
    let alloc = rt.alloc();
    let (first, second) = two_rings(&rt, alloc);
    let even = new_log(&rt, alloc);
    let odd = new_log(&rt, alloc);
    let one = new_probe(rt, alloc, 0, &even);
    let other = new_probe(rt, alloc, 0, &odd);
    send_and_carry::<_, Brand, _>(&rt, alloc, first, one, second, other);
    wants_log(&rt, &even, &[run(2), kill(2)]);
    wants_log(&rt, &odd, &[run(1), run(3), kill(3)]);
}

// Five orders go to two backends, each in a thread of its own.
fn send_and_carry<B: Backend + Send, L: Lanes + Send + Sync, R: Threads + Abort + Sync>(
    rt: &R,
    alloc: Global,
    first: LaneRing,
    one: B,
    second: LaneRing,
    other: B,
)
    requires first { first.ring ≡ L.lane_ring first.number }
    requires second { second.ring ≡ L.lane_ring second.number }
    requires first_before { B.asked one ≡ L.asked_before first.number }
    requires second_before { B.asked other ≡ L.asked_before second.number }
{
    let (even_lane, even_desk) = first.ends::<B, L>(one);
    let (odd_lane, odd_desk) = second.ends::<B, L>(other);
    let mut lanes = Vec::from_array(alloc, [even_lane, odd_lane]).expect(rt, "memory");
    send_each(rt, &mut lanes, &[run(1), run(2), run(3), kill(2), kill(3)]);
    let carried = carry_both(rt, even_desk, odd_desk);
    assert_eq!(rt; carried, (2, 3));
}

// How many each desk carries, in a thread of its own.
fn carry_both<B: Backend + Send, L: Lanes + Send + Sync, R: Threads + Sync>(
    rt: &R,
    even: Desk<B, L>,
    odd: Desk<B, L>,
) -> (u64, u64) {
    thread::join(rt, move || carry_all(even), move || carry_all(odd))
}

// Carries until there is no order: how many were asked.
fn carry_all<B: Backend, L: Lanes>(desk: Desk<B, L>) -> u64 {
    let mut desk = desk;
    carry_many(&mut desk)
}

fn carry_many<B: Backend, L: Lanes>(desk: &mut Desk<B, L>) -> u64 {
    let mut asked = 0u64;
    for _ in 0..10 {
        if desk.carry_one() != Carried::Asked {
            break;
        }
        asked = asked.saturating_add(1);
    }
    asked
}

#[test]
fn lane_of_4096_orders_is_blocked(rt: HostRuntime) {
    let alloc = rt.alloc();
    let (first, second) = two_rings(&rt, alloc);
    let log = new_log(&rt, alloc);
    let one = new_probe(rt, alloc, 0, &log);
    let other = new_probe(rt, alloc, 0, &log);
    fill_one_lane::<_, Brand, _>(&rt, alloc, first, one, second, other);
}

// Lane 1 is filled, and one of its orders is taken.
fn fill_one_lane<B: Backend, L: Lanes, R: Abort>(
    rt: &R,
    alloc: Global,
    first: LaneRing,
    one: B,
    second: LaneRing,
    other: B,
)
    requires first { first.ring ≡ L.lane_ring first.number }
    requires second { second.ring ≡ L.lane_ring second.number }
    requires first_before { B.asked one ≡ L.asked_before first.number }
    requires second_before { B.asked other ≡ L.asked_before second.number }
{
    let (even_lane, _desk) = first.ends::<B, L>(one);
    let (odd_lane, mut desk) = second.ends::<B, L>(other);
    let mut lanes = Vec::from_array(alloc, [even_lane, odd_lane]).expect(rt, "memory");
    wants_blocked(rt, &mut lanes, LANE_ROOM, None);
    fill_second(rt, &mut lanes);
    wants_carried(rt, &mut desk, Carried::Asked);
    wants_blocked(rt, &mut lanes, 1, None);
    wants_blocked(rt, &mut lanes, 2, Some(1));
}

// Sends as many orders into lane 1 as there is room for.
fn fill_second<L: Lanes, R: Abort>(rt: &R, lanes: &mut Vec<Lane<L>>) {
    for _ in 0..LANE_ROOM {
        send_each(rt, lanes, &[kill(1)]);
    }
    wants_blocked(rt, lanes, 1, Some(1));
    wants_blocked(rt, lanes, LANE_ROOM + 1, Some(0));
}

// The reports of service 1's first run, its death twice, and before them one of service 2.
fn reports<R: Abort>(rt: &R, alloc: Global) -> Vec<Report> {
    let reports = [
        Report::Started(Sid(2), 1, 502),
        Report::Started(Sid(1), 1, 501),
        Report::Death(Sid(1), 1, Exit::Code(3)),
        Report::Death(Sid(1), 1, Exit::Code(3)),
    ];
    Vec::from_array(alloc, reports).expect(rt, "memory")
}

#[test]
fn probe_gives_reports_of_what_was_asked_alone(rt: HostRuntime) {
    let alloc = rt.alloc();
    let log = Arc::new(alloc, Mutex::new(Vec::new(alloc))).expect(&rt, "memory");
    let mut probe = Probe::new(rt, alloc, reports(&rt, alloc), 0, log);
    look_at_reports(&rt, &mut probe);
}

// The first service alone is asked for.
fn look_at_reports<B: Backend, R: Abort>(rt: &R, probe: &mut B) {
    assert!(rt; probe.ask(run(1)).is_ok());
    let started = probe.report();
    assert!(rt; matches!(started, Some(Report::Started(Sid(1), 1, 501))));
    wants_death(rt, probe);
    wants_death(rt, probe);
    assert!(rt; probe.report().is_none());
}

fn wants_death<B: Backend, R: Abort>(rt: &R, probe: &mut B) {
    let death = probe.report();
    assert!(rt; matches!(death, Some(Report::Death(Sid(1), 1, Exit::Code(3)))));
}

// Whatever growth is refused, nothing is lost. Run with `--fail-alloc N` for each N.
#[test]
fn refused_growth_loses_nothing(rt: HostRuntime) {
    let alloc = rt.alloc();
    if let Some(log) = try_log(alloc) {
        ask_one(rt, alloc, &log);
    }
}

// Nothing is asked where a growth of the test itself was refused.
fn ask_one<R: Wait + Abort + Copy + Drop>(rt: R, alloc: Global, log: &AskedLog) {
    let Some(ring) = try_ring(alloc) else {
        return;
    };
    if let Some(probe) = try_probe(rt, alloc, 0, log) {
        ask_twice::<_, Brand, _>(&rt, ring, probe);
        wants_log(&rt, log, &[run(1)]);
    }
}

// The only ring.
fn try_ring(alloc: Global) -> Option<LaneRing> {
    let mut rings = open_lane_rings(alloc, 1).ok()?;
    rings.pop()
}

// An order that was refused once is asked again, and is taken just once.
fn ask_twice<B: Backend, L: Lanes, R: Abort>(rt: &R, ring: LaneRing, backend: B)
    requires ring { ring.ring ≡ L.lane_ring ring.number }
    requires before { B.asked backend ≡ L.asked_before ring.number }
{
    let (mut lane, mut desk) = ring.ends::<B, L>(backend);
    send(rt, &mut lane, run(1));
    carry_at_last(rt, &mut desk);
    wants_carried(rt, &mut desk, Carried::Idle);
}

fn carry_at_last<B: Backend, L: Lanes, R: Abort>(rt: &R, desk: &mut Desk<B, L>) {
    match desk.carry_one() {
        Carried::Asked => {}
        Carried::Refused(AskFault::NoMemory) => wants_carried(rt, desk, Carried::Asked),
        Carried::Idle | Carried::Refused(AskFault::Busy) => {
            assert!(rt; false);
        }
    }
}
