//! Scenes of one thread, each written as one text: what is asked of offices, and what is to come of
//! it.
use crate::parts::{
    AskedLog, TestParts, new_log, new_parts, new_probe, new_tree, push_log, step_once,
};
use crate::stage::play_scene;
use order_lanes::{Backend, Report};
use s6_events::{Exit, NoMemory, Sid};
use std::alloc::Global;
use std::process::Abort;
use std::sync::Wait;
use std::thread::Threads;
use std::time::Clock;

/// The text that was found is the one that is wanted.
pub fn same<R: Abort>(rt: &R, found: &[u8], wanted: &str) {
    let text = str::from_utf8(found).unwrap_or("bytes that are no text");
    assert!(rt; text == wanted, "{text}");
}

// The scene comes out as it is written, and its backends were asked these orders; no orders are
// named where nobody can know them.
fn plays<B: Backend + Send, R: Threads + Wait + Clock + Abort + Copy + Send + Sync + Drop>(
    rt: &R,
    alloc: Global,
    left: &mut Option<TestParts<B>>,
    log: &AskedLog,
    scene: &str,
    orders: &str,
) {
    let mut text = Vec::new(alloc);
    play_scene(rt, alloc, left, scene, &mut text);
    same(rt, text.as_slice(), scene);
    if !orders.is_empty() {
        text.clear();
        push_log(rt, log, &mut text).expect(rt, "no memory");
        same(rt, text.as_slice(), orders);
    }
}

// The scene begins with a tree that has made no step, and with so many probes.
fn plays_anew<R: Threads + Wait + Clock + Abort + Copy + Send + Sync + Drop>(
    rt: R,
    alloc: Global,
    lanes: usize,
    scene: &str,
    orders: &str,
) {
    let log = new_log(alloc).ok().expect(&rt, "no log");
    let mut left = new_parts(rt, alloc, lanes, &log).ok();
    plays(&rt, alloc, &mut left, &log, scene, orders);
}

// The same with a tree that has made one step.
fn plays_later<R: Threads + Wait + Clock + Abort + Copy + Send + Sync + Drop>(
    rt: R,
    alloc: Global,
    lanes: usize,
    scene: &str,
) {
    let log = new_log(alloc).ok().expect(&rt, "no log");
    let mut parts = new_parts(rt, alloc, lanes, &log)
        .ok()
        .expect(&rt, "no parts");
    assert!(rt; step_once(&mut parts.tree), "no memory");
    plays(&rt, alloc, &mut Some(parts), &log, scene, "0");
}

#[test]
fn opening_refuses_no_actors_and_five_lanes(rt: HostRuntime) {
    plays_later(rt, rt.alloc(), 1, ONE_LANE);
    plays_later(
        rt,
        rt.alloc(),
        0,
        "> open 1\nLanes, tree of 1, 0 backends\n",
    );
    plays_later(rt, rt.alloc(), 5, FIVE_LANES);
}

/// No office has no actors, or 17.
const ONE_LANE: &str = "> open 0
Actors, tree of 1, 1 backends
> open 17
Actors, tree of 1, 1 backends
";

/// No office has five lanes; the actors are looked at first.
const FIVE_LANES: &str = "> open 0
Actors, tree of 1, 5 backends
> open 16
Lanes, tree of 1, 5 backends
";

#[test]
fn lane_without_room_blocks_at_changed_limits(rt: HostRuntime) {
    plays_anew(rt, rt.alloc(), 1, BLOCKED, "3781, run 1 1 of web, another");
}

/// 60 commands of 63 signals each. A step may give 768 orders, and a lane holds 4,096: after 53
/// commands it has room for 756.
const BLOCKED: &str = "> open 1
> submit 1 0 0 scan web
> submit 1 0 0 started 1 1 500
> submit 60 0 0 svc web ttttttttttttttttttttttttttttttttttttttttttttttttttttttttttttttt
> finish
> drive 62
Driven { steps: 55, stop: Blocked(0) }
> carry 0 12
Asked
> drive 62
Driven { steps: 1, stop: Blocked(0) }
> close
Left
> carry 0 4096
Idle
> drive 62
Driven { steps: 6, stop: Idle }
> carry 0 4096
Idle
> close
62 steps, tree of 62, 1 backends
";

#[test]
fn effects_by_number(rt: HostRuntime) {
    plays_anew(rt, rt.alloc(), 1, EFFECTS, "1, run 1 1 of web");
}

/// A scan, the start of what it found, and its status: three steps, each with its own effect.
const EFFECTS: &str = "> open 1
> submit 1 0 0 scan web
> submit 1 0 0 started 1 1 500
> submit 1 0 0 status web
> drive 10
Driven { steps: 3, stop: Idle }
> effect 0
none
> effect 1
1 scanned +1:web
e 1 s
o run 1 1
> effect 2
2 done
e 1 u
> effect 3
3 row 1 web true true true false false 500 -1 -1 0 -1
> effect 4
none
> carry 0 10
Idle
";

#[test]
fn two_seats_make_one_run(rt: HostRuntime) {
    plays_anew(rt, rt.alloc(), 1, TWO_SEATS, "0");
}

/// Two seats submit 32 ticks each, in threads of their own. Then all is done in one drive, and the
/// run is closed.
const TWO_SEATS: &str = "> open 2
> beside 32
32 32
> drive 64
Driven { steps: 64, stop: Count }
> drive 64
Driven { steps: 0, stop: Idle }
> read
64
> done 32
64
> answered 33
64
> effect 1
1 done
> effect 65
none
> check
Legal(64)
> finish
> close
Missing
> finish
> close
64 steps, tree of 64, 1 backends
";

#[test]
fn boxed_backend_gives_a_death_twice(rt: HostRuntime) {
    let alloc = rt.alloc();
    let log = new_log(alloc).ok().expect(&rt, "no log");
    let reports = reports_of(alloc).ok().expect(&rt, "no reports");
    let probe = new_probe(rt, alloc, reports, &log)
        .ok()
        .expect(&rt, "no probe");
    let boxed: Box<dyn Backend + Send> = Box::new(alloc, probe).ok().expect(&rt, "no box");
    let mut backends = Vec::new(alloc);
    backends.push(boxed).ok().expect(&rt, "no room");
    let tree = new_tree(alloc).ok().expect(&rt, "no tree");
    let mut left = Some(TestParts { tree, backends });
    plays(&rt, alloc, &mut left, &log, REPORTS, "1, run 1 1 of web");
}

// A start, and its death twice.
fn reports_of(alloc: Global) -> Result<Vec<Report>, NoMemory> {
    let mut reports = Vec::new(alloc);
    reports.push(Report::Started(Sid(1), 1, 500))?;
    for _ in 0..2 {
        reports.push(Report::Death(Sid(1), 1, Exit::Code(0)))?;
    }
    Ok(reports)
}

/// What the backend reports is handed in. The second death is that of a run that has ended.
const REPORTS: &str = "> open 1
> submit 1 0 0 scan web
> drive 1
Driven { steps: 1, stop: Count }
> carry 0 10
Idle
> report
Started(Sid(1), 1, 500)
> drive 1
Driven { steps: 1, stop: Count }
> report
Death(Sid(1), 1, Code(0))
> drive 1
Driven { steps: 1, stop: Count }
> report
Death(Sid(1), 1, Code(0))
> drive 1
Driven { steps: 1, stop: Count }
> report
none
> reply 0 3
done
> reply 0 4
refused Stale
> check
Legal(4)
";

#[test]
fn fifteen_seats_make_one_run(rt: HostRuntime) {
    plays_anew(rt, rt.alloc(), 2, STORM, "");
}

/// Fifteen seats submit 2,000 acts each. Each is answered, and is answered the same by one thread.
const STORM: &str = "> open 15
> storm
> answered 2000
30000
> answered 2001
30000
> replayed 30000
true
";

#[test]
fn run_without_steps_is_closed(rt: HostRuntime) {
    plays_anew(rt, rt.alloc(), 4, NO_STEPS, "0");
}

/// No act is submitted.
const NO_STEPS: &str = "> open 1
> record 1
s6-script 2
0 steps
> finish
> close
0 steps, tree of 0, 4 backends
";

#[test]
fn waiter_is_held_over(rt: HostRuntime) {
    plays_anew(
        rt,
        rt.alloc(),
        1,
        WAITER,
        "2, run 1 1 of first, run 2 1 of second",
    );
}

/// A waiter waits in one run, and is released in the next.
const WAITER: &str = "> open 1
> submit 1 0 0 scan first second
> drive 1
Driven { steps: 1, stop: Count }
> reply 0 1
scanned +1:first +2:second
> submit 1 0 0 wait u o 0 first
> drive 1
Driven { steps: 1, stop: Count }
> reply 0 2
wait 1
> effect 1
1 scanned +1:first +2:second
e 1 s
e 2 s
o run 1 1
o run 2 1
> effect 2
2 wait 1
> carry 0 64
Idle
> record 1
s6-script 2
0 0 scan first second
= scanned +1:first +2:second
0 0 wait u o 0 first
= wait 1
2 steps
> finish
> close
2 steps, tree of 2, 1 backends
> open 1
> submit 1 0 0 started 1 1 500
> drive 1
Driven { steps: 1, stop: Count }
> reply 0 1
done
> effect 1
1 done
e 1 u
r 1 held
> carry 0 64
Idle
> record 0
0 0 started 1 1 500
= done
1 steps
> finish
> close
1 steps, tree of 3, 1 backends
";

#[test]
fn repeated_death_is_stale(rt: HostRuntime) {
    plays_anew(
        rt,
        rt.alloc(),
        1,
        DEATH,
        "2, run 1 1 of first, run 2 1 of second",
    );
}

/// A service dies in one run, and once more in the next.
const DEATH: &str = "> open 1
> submit 1 0 0 scan first second
> drive 1
Driven { steps: 1, stop: Count }
> reply 0 1
scanned +1:first +2:second
> effect 1
1 scanned +1:first +2:second
e 1 s
e 2 s
o run 1 1
o run 2 1
> submit 1 0 0 started 1 1 500
> drive 1
Driven { steps: 1, stop: Count }
> reply 0 2
done
> effect 2
2 done
e 1 u
> submit 1 0 0 death 1 1 code 0
> drive 1
Driven { steps: 1, stop: Count }
> reply 0 3
done
> effect 3
3 done
e 1 d
e 1 D
> carry 0 64
Idle
> record 1
s6-script 2
0 0 scan first second
= scanned +1:first +2:second
0 0 started 1 1 500
= done
0 0 death 1 1 code 0
= done
3 steps
> finish
> close
3 steps, tree of 3, 1 backends
> open 1
> submit 1 0 0 death 1 1 code 0
> drive 1
Driven { steps: 1, stop: Count }
> reply 0 1
refused Stale
> effect 1
1 refused Stale
> carry 0 64
Idle
> record 0
0 0 death 1 1 code 0
= refused Stale
1 steps
> finish
> close
1 steps, tree of 4, 1 backends
";

#[test]
fn desks_keep_their_order(rt: HostRuntime) {
    plays_anew(
        rt,
        rt.alloc(),
        2,
        DESKS,
        "2, run 2 1 of second, run 1 1 of first",
    );
}

/// The close of an office of two lanes is refused three times. Each puts the desks back behind
/// their locks.
const DESKS: &str = "> open 1
> submit 1 0 0 scan first second
> drive 1
Driven { steps: 1, stop: Count }
> close
Missing
> carry 0 64
Idle
> close
Missing
> carry 1 64
Idle
> close
Missing
> finish
> close
1 steps, tree of 1, 2 backends
";

#[test]
fn close_needs_every_finish(rt: HostRuntime) {
    plays_anew(
        rt,
        rt.alloc(),
        2,
        CLOSES,
        "2, run 2 1 of second, run 1 1 of first",
    );
}

/// Two seats submit an act each. The close is tried before the finishes are there, before the steps
/// are made and before the orders are asked, and at last the office is closed.
const CLOSES: &str = "> open 2
> submit 1 0 0 scan first second
> submit 1 0 1 tick
> sizes
2 lanes, 0 steps, 0 finishes
> close
Missing
> sizes
2 lanes, 0 steps, 0 finishes
> finish
> close
Missing
> sizes
2 lanes, 0 steps, 1 finishes
> finish
> close
Left
> sizes
2 lanes, 0 steps, 2 finishes
> drive 9
Driven { steps: 2, stop: Idle }
> close
Left
> sizes
2 lanes, 2 steps, 2 finishes
> carry 0 64
Idle
> carry 1 64
Idle
> close
2 steps, tree of 2, 2 backends
";
