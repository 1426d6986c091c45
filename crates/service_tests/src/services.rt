//! Services by their public calls, from their start to their supervisor's end.
ghost use Rattle.std.specs.Prelude.{◌+◌, ◌<◌, ◌^◌};

use arrayvec::ArrayVec;
use control_letters::{ControlLetter, Letters};
use s6_events::{At, Exit, Mark, Name, Order, Report, Sid};
use servicedir::Config;
use std::alloc::Global;
use std::process::Abort;
use supervise_core::{Change, ChartState, Out, Phase, Row, Service, ServiceState};

// Two services that began alike. One takes its changes by `change`, the other each by the call that
// is named after it.
type Pair = (Service<Global>, Service<Global>);

// What a change gives: its marks and its orders, and whether it is stale.
type GivenOut<'a> = (&'a [Mark], &'a [Order], bool);

fn at(rt: &impl Abort, millis: u64) -> At {
    At::new(millis).expect(rt, "a moment")
}

fn control(rt: &impl Abort, letter: ControlLetter) -> Change {
    let mut letters = Letters::new();
    let added = letters.try_push(letter).is_ok();
    assert!(rt; added);
    Change::Control(letters)
}

fn notify(rt: &impl Abort, generation: u64, bytes: &[u8]) -> Change {
    let mut list = ArrayVec::new();
    let added = list.try_extend_from_slice(bytes).is_ok();
    assert!(rt; added);
    Change::Report(Report::Notify(Sid(1), generation, list))
}

// The answer to a change is this.
fn gives(rt: &impl Abort, out: &Out, now: u64, wanted: GivenOut) {
    let found = (out.events.as_slice(), out.orders.as_slice(), out.stale);
    assert_eq!(rt; found, wanted, "at {now}");
}

// Takes a report by the call that is named after it.
fn take_report(service: &mut Service<Global>, report: &Report, now: At) -> Out
    requires { service.old.chart.generation + 1 < 2 ^ 64 }
{
    match report {
        Report::Started(_, generation, pid) => service.started(*generation, *pid, now),
        Report::StartFailed(_, generation) => service.start_failed(*generation, now),
        Report::Notify(_, generation, bytes) => service.notify(*generation, bytes.as_slice(), now),
        Report::Death(_, generation, exit) => service.death(*generation, *exit, now),
        Report::FinishEnded(_, generation, exit) => service.finish_ended(*generation, *exit, now),
    }
}

// Takes a change by the call that is named after it.
fn take(service: &mut Service<Global>, change: &Change, now: At) -> Out
    requires { service.old.chart.generation + 1 < 2 ^ 64 }
{
    match change {
        Change::Report(report) => take_report(service, report, now),
        Change::Control(letters) => service.control(letters, now),
        Change::Fire => service.fire(now),
        Change::SetConfig(config) => service.set_config(*config),
        Change::SetActive(active) => service.set_active(*active, now),
    }
}

// One service takes a change by `change`.
fn play_one(
    rt: &impl Abort,
    service: &mut Service<Global>,
    now: u64,
    change: &Change,
    wanted: GivenOut,
) {
    assert!(rt; service.chart().generation < 9);
    let out = service.change(change, at(rt, now));
    gives(rt, &out, now, wanted);
}

// The other service takes a change by the call of it.
fn play_other(
    rt: &impl Abort,
    service: &mut Service<Global>,
    now: u64,
    change: &Change,
    wanted: GivenOut,
) {
    assert!(rt; service.chart().generation < 9);
    let out = take(service, change, at(rt, now));
    gives(rt, &out, now, wanted);
}

// Both take this change at this moment, and give this.
fn play(rt: &impl Abort, pair: &mut Pair, now: u64, change: &Change, wanted: GivenOut) {
    play_one(rt, &mut pair.0, now, change, wanted);
    play_other(rt, &mut pair.1, now, change, wanted);
}

// They take changes until they are ready.
fn play_to_ready(rt: &impl Abort, web: Name, pair: &mut Pair) {
    let second = [Order::Run(Sid(1), 2, web, Some(3))];
    let ready = notify(rt, 2, b"a\n\n");
    play(
        rt,
        pair,
        0,
        &Change::Report(Report::StartFailed(Sid(1), 1)),
        (&[], &[], false),
    );
    play(rt, pair, 59999, &Change::Fire, (&[], &[], false));
    play(rt, pair, 60000, &Change::Fire, (&[], &second, false));
    play(
        rt,
        pair,
        60000,
        &Change::Report(Report::Started(Sid(1), 2, 500)),
        (&[Mark::Spawned], &[], false),
    );
    play(
        rt,
        pair,
        60010,
        &Change::Report(Report::Started(Sid(1), 2, 501)),
        (&[], &[], true),
    );
    play(rt, pair, 60100, &ready, (&[Mark::Ready], &[], false));
}

// From there they go on until they are killed.
fn play_to_killed(rt: &impl Abort, pair: &mut Pair) {
    let down = [Order::Signal(Sid(1), 2, 15), Order::Signal(Sid(1), 2, 18)];
    let kill = [Order::Signal(Sid(1), 2, 9)];
    let letter = control(rt, ControlLetter::Down);
    play(rt, pair, 60200, &letter, (&[], &down, false));
    play(rt, pair, 60700, &Change::Fire, (&[], &kill, false));
}

// From there until they have failed for good.
fn play_to_failed(rt: &impl Abort, web: Name, pair: &mut Pair) {
    let finish = [Order::Finish(Sid(1), 2, web, 256, 9)];
    let failed = [Mark::PermanentFailure, Mark::FinishDone];
    let died = Change::Report(Report::Death(Sid(1), 2, Exit::Killed(9)));
    let ended = Change::Report(Report::FinishEnded(Sid(1), 2, Exit::Code(125)));
    play(rt, pair, 60800, &died, (&[Mark::Died], &finish, false));
    play(rt, pair, 60900, &ended, (&failed, &[], false));
}

// From there until the next supervisor has started.
fn play_to_the_next_supervisor(rt: &impl Abort, web: Name, pair: &mut Pair) {
    let third = [Order::Run(Sid(1), 3, web, None)];
    let config = Change::SetConfig(Config::plain());
    let exit = control(rt, ControlLetter::Exit);
    play(rt, pair, 60950, &config, (&[], &[], false));
    play(
        rt,
        pair,
        61000,
        &exit,
        (&[Mark::SupervisorEnded], &[], false),
    );
    play(
        rt,
        pair,
        61050,
        &Change::SetActive(false),
        (&[], &[], false),
    );
    play(rt, pair, 61100, &Change::SetActive(true), (&[], &[], false));
    play(rt, pair, 62099, &Change::Fire, (&[], &[], false));
    play(
        rt,
        pair,
        62100,
        &Change::Fire,
        (&[Mark::SupervisorStarted], &third, false),
    );
}

// A service has died at this moment, so.
fn has_died(rt: &impl Abort, alloc: Global, service: &Service<Global>, millis: u64, exit: Exit) {
    let deaths = service.tally().list(alloc).expect(rt, "memory");
    assert_eq!(rt; deaths.as_slice(), [(at(rt, millis), exit)].as_slice());
}

// The row of a service at this moment.
fn has_row(rt: &impl Abort, service: &Service<Global>, now: u64, row: Row) {
    assert_eq!(rt; service.row(at(rt, now)), row);
}

// The row of the service while it is ready, at 61099.
fn ready_row(web: Name) -> Row {
    Row {
        sid: Sid(1),
        name: web,
        up: true,
        wanted_up: true,
        normally_up: true,
        ready: true,
        paused: false,
        pid: Some(500),
        exit: None,
        up_down_for: Some(1),
        ready_for: Some(0),
    }
}

// The same after its end, under the next supervisor.
fn ended_row(web: Name) -> Row {
    Row {
        up: false,
        pid: None,
        exit: Some(Exit::Killed(9)),
        up_down_for: None,
        ready_for: None,
        ..ready_row(web)
    }
}

// A service begins, and gives this.
fn begin(
    rt: &impl Abort,
    alloc: Global,
    (sid, name): (Sid, Name),
    config: Config,
    wanted: GivenOut,
) -> Service<Global> {
    let begun = Service::begin(alloc, sid, name, config, At::zero());
    let (service, out) = begun.expect(rt, "memory");
    gives(rt, &out, 0, wanted);
    service
}

// Both services play all of it, with their rows in between and at the end.
fn play_all(rt: &impl Abort, alloc: Global, web: Name, pair: &mut Pair) {
    play_to_ready(rt, web, pair);
    has_row(rt, &pair.0, 61099, ready_row(web));
    play_to_killed(rt, pair);
    play_to_failed(rt, web, pair);
    play_to_the_next_supervisor(rt, web, pair);
    has_died(rt, alloc, &pair.0, 60800, Exit::Killed(9));
    has_died(rt, alloc, &pair.1, 60800, Exit::Killed(9));
    has_row(rt, &pair.1, 63000, ended_row(web));
}

#[test]
fn a_service_takes_each_change(rt: HostRuntime) {
    let web = Name::new(b"web").expect(&rt, "web");
    let config = Config {
        finish: true,
        notification_fd: Some(3),
        timeout_kill: 500,
        ..Config::plain()
    };
    let first = [Order::Run(Sid(1), 1, web, Some(3))];
    let given: GivenOut = (&[Mark::SupervisorStarted], &first, false);
    let service = begin(&rt, rt.alloc(), (Sid(1), web), config, given);
    let other = begin(&rt, rt.alloc(), (Sid(1), web), config, given);
    play_all(&rt, rt.alloc(), web, &mut (service, other));
}

#[test]
fn a_service_with_a_file_down_begins_without_a_run(rt: HostRuntime) {
    let config = Config {
        down: true,
        ..Config::plain()
    };
    let given: GivenOut = (&[Mark::SupervisorStarted], &[], false);
    let service = begin(&rt, rt.alloc(), (Sid(2), Name::default()), config, given);
    assert_eq!(rt;
        (service.sid(), service.timer(), service.chart().phase),
        (Sid(2), None, Phase::Down)
    );
}

// A start is added to what is there.
fn add_start(rt: &impl Abort, standing: &mut ServiceState, pid: u32, out: &mut Out) {
    assert!(rt; standing.chart().generation < 9 && out.events.len() < 4 && out.orders.len() < 9);
    standing.change_onto(
        &Change::Report(Report::Started(Sid(1), 1, pid)),
        at(rt, 5),
        out,
    );
}

// A letter is added to what is there: no order, so that there is room for those of 63 letters.
fn add_letter(rt: &impl Abort, chart: ChartState, letter: ControlLetter, out: &mut Out) {
    let mut chart = chart;
    let mut letters = Letters::new();
    let added = letters.try_push(letter).is_ok();
    assert!(rt; added && chart.generation < 9 && out.events.len() < 4 && out.orders.len() < 1);
    chart.change_onto(&Change::Control(letters), at(rt, 6), out);
}

// A start and a stale one are added to what the beginning of another service gave, and then a
// letter to what is empty again.
fn add_changes(
    rt: &impl Abort,
    begun: &[Order],
    told: &[Order],
    standing: &mut ServiceState,
    out: &mut Out,
) {
    let marks = [Mark::SupervisorStarted, Mark::Spawned];
    gives(rt, out, 0, (&marks[..1], begun, false));
    add_start(rt, standing, 70, out);
    gives(rt, out, 5, (&marks, begun, false));
    add_start(rt, standing, 71, out);
    gives(rt, out, 5, (&marks, begun, true));
    out.clear();
    gives(rt, out, 6, (&[], &[], false));
    add_letter(rt, standing.chart(), ControlLetter::Hangup, out);
    gives(rt, out, 7, (&marks[..0], told, false));
}

// The order to start a service for the first time.
fn first_run(name: Name) -> Order {
    Order::Run(Sid(1), 1, name, None)
}

// The service takes them over, with a death.
fn take_over(
    rt: &impl Abort,
    alloc: Global,
    service: &mut Service<Global>,
    standing: ServiceState,
) {
    service.adopt(&standing, Some((at(rt, 7), Exit::Code(1))));
    assert_eq!(rt;
        (service.chart().pid, service.status().letter),
        (70, Mark::Spawned)
    );
    has_died(rt, alloc, service, 7, Exit::Code(1));
}

// What the beginning of a service with a plain configuration gave.
fn begin_plain(rt: &impl Abort, alloc: Global, sid: Sid, name: Name) -> (Service<Global>, Out) {
    let begun = Service::begin(alloc, sid, name, Config::plain(), At::zero());
    begun.expect(rt, "memory")
}

#[test]
fn a_change_is_added_to_what_is_there(rt: HostRuntime) {
    let web = Name::new(b"web").expect(&rt, "web");
    let log = Name::new(b"log").expect(&rt, "log");
    let (_, mut out) = begin_plain(&rt, rt.alloc(), Sid(1), web);
    let (mut service, _) = begin_plain(&rt, rt.alloc(), Sid(2), log);
    let mut standing = *service.standing();
    let begun = [first_run(web)];
    let told = [Order::Signal(Sid(2), 1, 1)];
    add_changes(&rt, &begun, &told, &mut standing, &mut out);
    take_over(&rt, rt.alloc(), &mut service, standing);
}
