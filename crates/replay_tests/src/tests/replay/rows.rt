//! The worked rows: scripts with what a replay answers and the whole transcript. A line of a script
//! is an input: its moment in milliseconds, its actor and its act, such as `death 1 1 code 1`: the
//! first run of service 1 died with exit code 1. `>` is what the replay answers. Then comes the
//! transcript: a line that begins with a number is the reply of that step, `e` a mark and `o` an
//! order.
use super::{Case, check_replayed, replay_in_memory};
use std::alloc::Global;
use std::process::Abort;
use std::test::Fail;

// Scripts that are read to their end.
pub const ROWS: &str = "restart-after-pause
s6-script 1
0 1 scan web
0 1 started 1 1 500
300 1 death 1 1 code 1
1299 1 tick
1300 1 tick
> 5 inputs, 4 events, 2 orders
1 scanned +1:web
e 1 s
o run 1 1
2 done
e 1 u
3 done
e 1 d
e 1 D
4 done
5 done
o run 1 2
# each-timer-at-its-own-moment
s6-script 1
0 1 scan b a
0 1 started 1 1 10
0 1 started 2 1 20
100 1 death 2 1 code 0
200 1 death 1 1 code 0
1100 1 tick
1150 1 svc a d
1300 1 tick
1300 1 svc a u
1300 1 started 2 2 21
1350 1 started 1 2 11
1400 1 death 2 2 code 0
1450 1 death 1 2 code 0
2500 1 tick
> 14 inputs, 14 events, 6 orders
1 scanned +1:a +2:b
e 1 s
e 2 s
o run 1 1
o run 2 1
2 done
e 1 u
3 done
e 2 u
4 done
e 2 d
e 2 D
5 done
e 1 d
e 1 D
6 done
o run 2 2
7 done
8 done
9 done
o run 1 2
10 done
e 2 u
11 done
e 1 u
12 done
e 2 d
e 2 D
13 done
e 1 d
e 1 D
14 done
o run 1 3
o run 2 3
# free-directory-and-its-refusals
s6-script 1
0 1 mkdir q
0 1 subscribe dir q once b$
0 1 send dir q abc
0 1 send svc q u
0 1 mkdir q
> 5 inputs, 0 events, 0 orders
1 done
2 sub 1
3 done
m 1 b
4 refused Reserved
5 refused Exists
# repeating-pattern-begins-a-new-text
s6-script 1
0 1 scan web
0 1 subscribe svc web repeat u.*u
0 1 started 1 1 5
10 1 death 1 1 code 0
1010 1 started 1 2 5
1020 1 death 1 2 code 0
2020 1 started 1 3 5
2030 1 death 1 3 code 0
3030 1 started 1 4 5
> 9 inputs, 11 events, 4 orders
1 scanned +1:web
e 1 s
o run 1 1
2 sub 1
3 done
e 1 u
4 done
e 1 d
e 1 D
5 done
e 1 u
o run 1 2
m 1 u
6 done
e 1 d
e 1 D
7 done
e 1 u
o run 1 3
8 done
e 1 d
e 1 D
9 done
e 1 u
o run 1 4
m 1 u
# two-subscriptions-over-one-text-until-one-ends
s6-script 1
0 1 mkdir q
0 1 subscribe dir q repeat ab
0 1 send dir q a
0 1 subscribe dir q repeat b
0 1 send dir q bab
0 1 unsubscribe 1
0 1 unsubscribe 1
0 1 send dir q b
> 8 inputs, 0 events, 0 orders
1 done
2 sub 1
3 done
4 sub 2
5 done
m 1 b
m 2 b
m 1 b
m 2 b
6 done
7 refused NoSuch
8 done
m 2 b
# timer-past-the-greatest-moment
s6-script 1
0 1 scan web
0 1 started 1 1 500
999999999999500 1 death 1 1 code 0
1000000000000000 1 tick
1000000000000000 1 svc web u
> 5 inputs, 4 events, 2 orders
1 scanned +1:web
e 1 s
o run 1 1
2 done
e 1 u
3 done
e 1 d
e 1 D
4 done
5 done
o run 1 2
# names-in-the-order-of-their-bytes
s6-script 1
5 1 scan b a b
5 1 scan b a B
4 1 scan a
6 1 death 9 1 code 0
6 1 death 1 1 code 0
> 5 inputs, 3 events, 3 orders
1 refused Repeated
2 scanned +1:B +2:a +3:b
e 1 s
e 2 s
e 3 s
o run 1 1
o run 2 1
o run 3 1
3 scanned
4 refused NoService
5 refused Stale
# next-supervisor-reads-the-new-configuration
s6-script 1
0 1 scan web:down
1 1 scan web
2 1 svc web x
1001 1 tick
1002 1 tick
> 5 inputs, 3 events, 1 orders
1 scanned +1:web
e 1 s
2 scanned
3 done
e 1 x
4 done
5 done
e 1 s
o run 1 1
# finish-that-was-added-later
s6-script 1
0 1 scan web
0 1 started 1 1 500
1 1 scan web:finish
2 1 death 1 1 code 1
> 4 inputs, 3 events, 2 orders
1 scanned +1:web
e 1 s
o run 1 1
2 done
e 1 u
3 scanned
4 done
e 1 d
o finish 1 1 1 0
# head-line-alone
s6-script 1
> 0 inputs, 0 events, 0 orders
# greatest-moment
s6-script 1
1000000000000000 1 tick
> 1 inputs, 0 events, 0 orders
1 done
# ready-service-restarts-at-once
s6-script 1
0 1 scan web:notify=3
0 1 started 1 1 500
100 1 notify 1 1 610a0a
1101 1 death 1 1 code 0
> 4 inputs, 5 events, 2 orders
1 scanned +1:web
e 1 s
o run 1 1 fd 3
2 done
e 1 u
3 done
e 1 U
4 done
e 1 d
e 1 D
o run 1 2 fd 3
# exit-while-down-and-a-new-supervisor
s6-script 1
0 1 scan web:down
5 1 svc web x
6 1 svc web u
1005 1 tick
> 4 inputs, 3 events, 0 orders
1 scanned +1:web
e 1 s
2 done
e 1 x
3 refused Ended
4 done
e 1 s
# once-letters-and-row-after-death
s6-script 1
0 1 scan web:down
1 1 svc web uO
2 1 started 1 1 500
5000 1 death 1 1 code 0
9000 1 status web
> 5 inputs, 4 events, 1 orders
1 scanned +1:web
e 1 s
2 done
o run 1 1
3 done
e 1 u
4 done
e 1 d
e 1 D
5 row 1 web false false false true false -1 0 -1 4 4
# report-of-an-old-life-is-stale
s6-script 1
0 1 scan web
0 1 started 1 1 500
300 1 death 1 1 code 1
1299 1 tick
1300 1 tick
1350 1 started 1 2 501
1400 1 death 1 1 code 1
> 7 inputs, 5 events, 2 orders
1 scanned +1:web
e 1 s
o run 1 1
2 done
e 1 u
3 done
e 1 d
e 1 D
4 done
5 done
o run 1 2
6 done
e 1 u
7 refused Stale
# down-before-the-spawn-waits-for-it
s6-script 1
0 1 scan web
5 1 svc web d
8 1 started 1 1 500
> 3 inputs, 2 events, 3 orders
1 scanned +1:web
e 1 s
o run 1 1
2 done
3 done
e 1 u
o signal 1 1 15
o signal 1 1 18
# failed-spawn-is-tried-after-a-minute
s6-script 1
0 1 scan web
0 1 startfailed 1 1
59999 1 tick
60000 1 tick
> 4 inputs, 1 events, 2 orders
1 scanned +1:web
e 1 s
o run 1 1
2 done
3 done
4 done
o run 1 2
# reports of no service, of no generation and of no finish
s6-script 1
0 1 scan web
0 1 finished 1 1 code 125
0 1 finished 2 1 signal 9
0 1 startfailed 2 1
0 1 startfailed 1 2
0 1 notify 2 1 0a
0 1 notify 1 2 0a
0 1 death 2 1 code 0
0 1 death 1 2 code 0
0 1 started 2 1 5
0 1 started 1 2 5
> 11 inputs, 1 events, 1 orders
1 scanned +1:web
e 1 s
o run 1 1
2 refused Stale
3 refused NoService
4 refused NoService
5 refused Stale
6 refused NoService
7 refused Stale
8 refused NoService
9 refused Stale
10 refused NoService
11 refused Stale
# unread-entry-and-closing
s6-script 1
0 1 scan a! b
0 1 scanctl t
0 1 scan c
5 1 startfailed 1 1
> 4 inputs, 2 events, 1 orders
1 scanned unread:a +1:b
e 1 s
o run 1 1
2 done
3 refused Closing
4 done
e 1 x
";

// Scripts with a fault.
pub const FAULTY_ROWS: &str = "empty-script
> no head line
# last-line-without-newline
s6-script 1
0 1 tick
0 1 tick> the last line is not whole
1 done
# head-line-with-a-space-after-it
s6-script 1\x20
> no head line
# empty-line
s6-script 1

> line 2 is no input
# actor-over-fifteen
s6-script 1
0 16 tick
> line 2 is no input
# actor-with-a-leading-zero
s6-script 1
0 1 tick
0 01 tick
> line 3 is no input
1 done
# moment-over-the-greatest
s6-script 1
1000000000000001 1 tick
> line 2 is no input
# signal-over-sixty-four
s6-script 1
0 1 death 1 1 signal 65
> line 2 is no input
# letter-o-in-a-script
s6-script 1
0 1 svc web o
> line 2 is no input
# upper-case-hex
s6-script 1
0 1 notify 1 1 0A
> line 2 is no input
# option-at-its-default
s6-script 1
0 1 scan web:kill=0
> line 2 is no input
# option-with-leading-zeros
s6-script 1
0 1 scan web:kill=007
> line 2 is no input
# options-out-of-order
s6-script 1
0 1 scan web:finish,down
> line 2 is no input
# notify-on-descriptor-two
s6-script 1
0 1 scan web:notify=2
> line 2 is no input
# pattern-that-does-not-build
s6-script 1
0 1 subscribe dir q once (
> the pattern in line 2 does not build
# line with a byte zero
s6-script 1
0 1 tick
0 1 ti\0ck
> line 3 is no input
1 done
";

/// A replay of the script gives the answer and the transcript.
pub fn check_case(rt: &impl Abort, alloc: Global, case: &Case) -> Result<(), Fail> {
    let found = replay_in_memory(alloc, case.script.as_bytes());
    check_replayed(rt, alloc, &found, case)
}

fn check_rows(rt: &impl Abort, alloc: Global, rows: &str) -> Result<(), Fail> {
    for row in rows.split("# ") {
        check_case(rt, alloc, &Case::read(row))?;
    }
    Ok(())
}

#[test]
fn the_worked_rows(rt: HostRuntime) -> Result<(), Fail> {
    check_rows(&rt, rt.alloc(), ROWS)?;
    check_rows(&rt, rt.alloc(), FAULTY_ROWS)
}
