//! Stories: what a script is told as, in words. The expected lines were written by hand, from
//! docs/STORY.md and docs/MACHINE.md.
use super::cases::Case;
use super::tool::CommandWords;
use super::{holds, same};
use replay_tool::run_tool;
use std::alloc::Global;
use std::process::Abort;

// A service that dies, and is started again once its pause is over.
const RESTART: &str = "s6-script 1
0 1 scan web
0 1 started 1 1 500
300 1 death 1 1 code 1
1299 1 tick
1300 1 tick
";

// Scripts, each with the status and its story.
const ROWS: &str = "restart-after-pause
s6-script 1
0 1 scan web
0 1 started 1 1 500
300 1 death 1 1 code 1
1299 1 tick
1300 1 tick
> 0
0.000 web added
0.000 web supervised
0.000 web to be started
0.000 web up, process 500
0.300 web died, code 1
0.300 web down
1.300 web to be started
# finish-of-125-is-permanent-failure
s6-script 1
0 1 scan web:finish
0 1 started 1 1 500
10 1 death 1 1 signal 9
20 1 finished 1 1 code 125
30 1 svc web u
> 0
0.000 web added
0.000 web supervised
0.000 web to be started
0.000 web up, process 500
0.010 web died, signal KILL
0.010 web finish to be started
0.020 web FAILED FOR GOOD
0.020 web finish ended, code 125
0.030 letters u to web
0.030 web to be started
# all-services-must-hold-at-one-moment
s6-script 1
0 1 scan a:notify=3 b:notify=3
0 1 started 1 1 7
0 1 started 2 1 8
0 1 wait U a 0 a b
10 1 notify 1 1 0a
20 1 death 1 1 code 0
30 1 notify 2 1 0a
1020 1 started 1 2 9
1030 1 notify 1 2 0a
> 0
0.000 a added
0.000 b added
0.000 a supervised
0.000 b supervised
0.000 a to be started
0.000 b to be started
0.000 a up, process 7
0.000 b up, process 8
0.000 wait 1: all of a, b ready
0.010 a ready
0.020 a died, code 0
0.020 a down
0.030 b ready
1.020 a up, process 9
1.020 a to be started
1.030 a ready
1.030 wait 1 released: as wanted
# closing
s6-script 1
0 1 scan a! b
0 1 scanctl t
0 1 scan c
5 1 startfailed 1 1
> 0
0.000 a not read
0.000 b added
0.000 b supervised
0.000 b to be started
0.000 end of all
0.000 scan refused: closing
0.005 failed start of b
0.005 b supervised no more
# killed-after-its-timeout
s6-script 1
0 1 scan web:kill=500
0 1 started 1 1 500
100 1 svc web d
599 1 tick
600 1 tick
605 1 death 1 1 signal 9
700 1 status web
> 0
0.000 web added
0.000 web supervised
0.000 web to be started
0.000 web up, process 500
0.100 letters d to web
0.100 signal TERM to web
0.100 signal CONT to web
0.600 signal KILL to web
0.605 web died, signal KILL
0.605 web down
# a recorded run, with a subscription, a waiter that is late, and what is refused
s6-script 2
5 1 scan web
= scanned +1:web
5 1 subscribe svc web repeat d.
= sub 1
5 1 wait d o 1500 web
= wait 1
5 1 svc db u
= refused NoService
5 1 subscribe dir q once a b
= refused NoSuch
5 1 mkdir q
= done
5 1 send dir q abc
= done
5 1 started 1 1 500
= done
1505 1 tick
= done
1505 1 cancel 1
= done
61234 1 death 1 1 signal 64
= done
61234 1 death 1 1 code 0
= refused Stale
> 0
0.005 web added
0.005 web supervised
0.005 web to be started
0.005 subscription 1: web, d.
0.005 wait 1: one of web down, for 1.500
0.005 wait 1 released: as wanted
0.005 letters u to db refused: unknown
0.005 subscription to directory q, a b refused: missing
0.005 directory q
0.005 message abc to directory q
0.005 web up, process 500
1.505 end of wait 1
61.234 web died, signal 64
61.234 web down
61.234 subscription 1 matched D
61.234 report of web refused: late
# a name that is dropped, and comes again as another service
s6-script 1
0 1 scan a
0 1 scan b
0 1 scanctl n
1 1 started 1 1 7
2 1 death 1 1 signal 15
3 1 scan b
3 1 scan a b
> 0
0.000 a added
0.000 a supervised
0.000 a to be started
0.000 b added
0.000 b supervised
0.000 b to be started
0.000 end of all that is not listed
0.001 a up, process 7
0.001 signal TERM to a
0.001 signal CONT to a
0.002 a died, signal TERM
0.002 a down
0.002 a supervised no more
0.003 a dropped
0.003 a added
0.003 a supervised
0.003 a to be started
# a line that is no input
s6-script 1
0 1 scan web
0 1 stopped 1
0 1 tick
> 100 replay: line 3
0.000 web added
0.000 web supervised
0.000 web to be started
# a reply that is owed
s6-script 2
0 1 tick
= done
0 1 mkdir q
> 100 replay: truncated
# no head line
s6-script 3
> 100 replay: no head line
";

// What is told of how the tool ended: its status, and its line on standard error behind a space.
fn is_ended(status: u8, errors: &[u8], answer: &str) -> bool {
    if status == 0 {
        return answer == "0" && errors.is_empty();
    }
    let line = match answer.as_bytes().strip_prefix(b"100 ") {
        Some(line) => line,
        None => return false,
    };
    status == 100 && errors.strip_suffix(b"\n") == Some(line)
}

// Tells the story of a script, and compares it with what is expected.
fn check_story(rt: &impl Abort, alloc: Global, case: &Case) {
    let mut output = Vec::new(alloc);
    let mut errors = Vec::new(alloc);
    let words = CommandWords(&[b"replay", b"--story"]);
    let input = case.script.as_bytes();
    let status = run_tool(&words, alloc, alloc, input, &mut output, &mut errors);
    same(rt, case.name, output.as_slice(), case.written.as_bytes());
    holds(
        rt,
        case.name,
        is_ended(status, errors.as_slice(), case.answer),
    );
}

#[test]
fn what_happened_in_words(rt: HostRuntime) {
    for row in ROWS.split("# ") {
        check_story(&rt, rt.alloc(), &Case::read(row));
    }
}

// The first of the scripts, by times of day: a second after midnight it is to be started again.
const DATED: &str = "2026-11-27T23:59:58.750Z web added
2026-11-27T23:59:58.750Z web supervised
2026-11-27T23:59:58.750Z web to be started
2026-11-27T23:59:58.750Z web up, process 500
2026-11-27T23:59:59.050Z web died, code 1
2026-11-27T23:59:59.050Z web down
2026-11-28T00:00:00.050Z web to be started
";

#[test]
fn what_happened_by_times_of_day(rt: HostRuntime) {
    let mut output = Vec::new(rt.alloc());
    let mut errors = Vec::new(rt.alloc());
    let words = CommandWords(&[
        b"replay",
        b"--story",
        b"--since",
        b"2026-11-28T00:59:58.75+01:00",
    ]);
    let input = RESTART.as_bytes();
    let status = run_tool(
        &words,
        rt.alloc(),
        rt.alloc(),
        input,
        &mut output,
        &mut errors,
    );
    same(&rt, "times of day", output.as_slice(), DATED.as_bytes());
    assert!(rt; status == 0 && errors.is_empty());
}
