//! Worked rows of which only the end of the transcript is known.
use super::{Case, holds, replay_in_memory};
use std::alloc::Global;
use std::process::Abort;

// Scripts without fault, each with the last lines of its transcript.
const ENDS: &str = "overlong-text-ends-a-subscription
s6-script 1
0 1 mkdir q
0 1 subscribe dir q once z
0 1 send dir q aaaaaaaaaaaaaaaaaaaaaaaaaaaaaaaaaaaaaaaaaaaaaaaaaaaaaaaaaaaaaaaa
0 1 send dir q aaaaaaaaaaaaaaaaaaaaaaaaaaaaaaaaaaaaaaaaaaaaaaaaaaaaaaaaaaaaaaaa
0 1 send dir q aaaaaaaaaaaaaaaaaaaaaaaaaaaaaaaaaaaaaaaaaaaaaaaaaaaaaaaaaaaaaaaa
0 1 send dir q aaaaaaaaaaaaaaaaaaaaaaaaaaaaaaaaaaaaaaaaaaaaaaaaaaaaaaaaaaaaaaaa
0 1 send dir q aaaaaaaaaaaaaaaaaaaaaaaaaaaaaaaaaaaaaaaaaaaaaaaaaaaaaaaaaaaaaaaa
0 1 send dir q aaaaaaaaaaaaaaaaaaaaaaaaaaaaaaaaaaaaaaaaaaaaaaaaaaaaaaaaaaaaaaaa
0 1 send dir q aaaaaaaaaaaaaaaaaaaaaaaaaaaaaaaaaaaaaaaaaaaaaaaaaaaaaaaaaaaaaaaa
0 1 send dir q aaaaaaaaaaaaaaaaaaaaaaaaaaaaaaaaaaaaaaaaaaaaaaaaaaaaaaaaaaaaaaaa
0 1 send dir q aaaaaaaaaaaaaaaaaaaaaaaaaaaaaaaaaaaaaaaaaaaaaaaaaaaaaaaaaaaaaaaa
0 1 send dir q aaaaaaaaaaaaaaaaaaaaaaaaaaaaaaaaaaaaaaaaaaaaaaaaaaaaaaaaaaaaaaaa
0 1 send dir q aaaaaaaaaaaaaaaaaaaaaaaaaaaaaaaaaaaaaaaaaaaaaaaaaaaaaaaaaaaaaaaa
0 1 send dir q aaaaaaaaaaaaaaaaaaaaaaaaaaaaaaaaaaaaaaaaaaaaaaaaaaaaaaaaaaaaaaaa
0 1 send dir q aaaaaaaaaaaaaaaaaaaaaaaaaaaaaaaaaaaaaaaaaaaaaaaaaaaaaaaaaaaaaaaa
0 1 send dir q aaaaaaaaaaaaaaaaaaaaaaaaaaaaaaaaaaaaaaaaaaaaaaaaaaaaaaaaaaaaaaaa
0 1 send dir q aaaaaaaaaaaaaaaaaaaaaaaaaaaaaaaaaaaaaaaaaaaaaaaaaaaaaaaaaaaaaaaa
0 1 send dir q aaaaaaaaaaaaaaaaaaaaaaaaaaaaaaaaaaaaaaaaaaaaaaaaaaaaaaaaaaaaaaaa
0 1 send dir q z
> no fault, and at the end
18 done
19 done
m 1 overlong
# ready-for-exactly-a-second-pauses
s6-script 1
0 1 scan web:notify=3
0 1 started 1 1 500
100 1 notify 1 1 610a0a
1100 1 death 1 1 code 0
2099 1 tick
2100 1 tick
> no fault, and at the end
4 done
e 1 d
e 1 D
5 done
6 done
o run 1 2 fd 3
# finish-of-125-is-permanent-failure
s6-script 1
0 1 scan web:finish
0 1 started 1 1 500
10 1 death 1 1 signal 9
20 1 finished 1 1 code 125
30 1 svc web u
> no fault, and at the end
3 done
e 1 d
o finish 1 1 256 9
4 done
e 1 O
e 1 D
5 done
o run 1 2
# kill-timer-is-not-set-later
s6-script 1
0 1 scan web:kill=500
0 1 started 1 1 500
100 1 svc web d
300 1 svc web d
599 1 tick
600 1 tick
> no fault, and at the end
3 done
o signal 1 1 15
o signal 1 1 18
4 done
o signal 1 1 15
o signal 1 1 18
5 done
6 done
o signal 1 1 9
# finish-is-killed-at-its-timeout
s6-script 1
0 1 scan web:finish
0 1 started 1 1 5
10 1 death 1 1 code 0
5009 1 tick
5010 1 tick
5011 1 finished 1 1 signal 9
> no fault, and at the end
4 done
5 done
o killfinish 1 1
6 done
e 1 D
o run 1 2
# dropped-name-comes-again-as-a-new-service
s6-script 1
0 1 scan a b
0 1 started 1 1 7
0 1 started 2 1 8
5 1 scan a
6 1 scanctl n
9 1 death 2 1 signal 15
10 1 scan a
11 1 scan a b
> no fault, and at the end
4 scanned
5 done
o signal 2 1 15
o signal 2 1 18
6 done
e 2 d
e 2 D
e 2 x
7 scanned -2
8 scanned +3:b
e 3 s
o run 3 1
# status-of-a-running-service
s6-script 1
100 1 scan web
50 1 started 1 1 7
1100 1 status web
> no fault, and at the end
3 row 1 web true true true false false 7 -1 -1 1 -1
# tally-forgets-the-oldest
s6-script 1
0 1 scan web:tally=3
0 1 started 1 1 5
100 1 death 1 1 code 1
1100 1 started 1 2 5
1200 1 death 1 2 code 1
2200 1 started 1 3 5
2300 1 death 1 3 code 1
3300 1 started 1 4 5
3400 1 death 1 4 code 1
4400 1 started 1 5 5
4500 1 death 1 5 code 1
4500 1 tally web
4500 1 permafailon web 60 4 1
4500 1 permafailon web 60 3 1-2
> no fault, and at the end
12 tally 2300:c1 3400:c1 4500:c1
13 permafail 0
14 permafail 125
# tally-of-size-zero
s6-script 1
0 1 scan web:tally=0
0 1 started 1 1 5
9 1 death 1 1 signal 11
9 1 tally web
9 1 permafailon web 1 0 SIGSEGV
9 1 permafailon web 1 1 SIGSEGV
> no fault, and at the end
4 tally
5 permafail 125
6 permafail 0
# a stale death is not tallied, and a later scan brings no other size
s6-script 1
0 1 scan web:tally=1
0 1 started 1 1 5
9 1 death 1 1 signal 11
9 1 death 1 1 code 1
10 1 scan web:tally=0
10 1 tally web
10 1 tally log
10 1 permafailon log 1 0 1
1009 1 permafailon web 1 1 1,SIGSEGV
1010 1 permafailon web 1 1 SIGSEGV
> no fault, and at the end
6 tally 9:s11
7 refused NoService
8 refused NoService
9 permafail 125
o run 1 2
10 permafail 0
# all-services-must-hold-at-one-moment
s6-script 1
0 1 scan a:notify=3 b:notify=3
0 1 started 1 1 7
0 1 started 2 1 8
0 1 wait U a 0 a b
10 1 notify 1 1 0a
20 1 death 1 1 code 0
30 1 notify 2 1 0a
1020 1 started 1 2 9
1030 1 notify 1 2 0a
> no fault, and at the end
4 wait 1
5 done
e 1 U
6 done
e 1 d
e 1 D
7 done
e 2 U
8 done
e 1 u
o run 1 2 fd 3
9 done
e 1 U
r 1 held
# deadline-comes-before-its-steps-letters
s6-script 1
0 1 scan web
0 1 started 1 1 5
0 1 wait D a 500 web
500 1 death 1 1 code 0
> no fault, and at the end
3 wait 1
4 done
e 1 d
e 1 D
r 1 timedout
# waiter-held-at-once-and-refused-waits
s6-script 1
0 1 scan web
0 1 started 1 1 5
0 1 wait u a 0 web
0 1 wait u a 0
0 1 wait u a 0 web web
> no fault, and at the end
3 wait 1
r 1 held
4 refused Empty
5 refused Repeated
# ended-supervisor-fails-a-waiter-and-returns
s6-script 1
0 1 scan web:finish
0 1 started 1 1 5
0 1 wait d a 0 web
10 1 svc web x
20 1 death 1 1 code 0
20 1 wait u a 0 web
30 1 finished 1 1 code 0
1029 1 tick
1030 1 tick
> no fault, and at the end
3 wait 1
4 done
5 done
e 1 d
o finish 1 1 0 0
r 1 held
6 wait 2
7 done
e 1 D
e 1 x
r 2 gone
8 done
9 done
e 1 s
o run 1 2
# permanent-failure-fails-a-ready-waiter
s6-script 1
0 1 scan web:finish,notify=3
0 1 started 1 1 5
0 1 wait U a 0 web
10 1 death 1 1 code 1
20 1 finished 1 1 code 125
> no fault, and at the end
4 done
e 1 d
o finish 1 1 1 0
5 done
e 1 O
e 1 D
r 1 failed
# cancelled-waiter-is-gone
s6-script 1
0 1 scan a b:notify=3
0 1 started 1 1 7
0 1 started 2 1 8
0 1 wait U o 0 a b
1 1 cancel 1
2 1 notify 2 1 0a
3 1 cancel 1
3 1 wait U o 0 a b
> no fault, and at the end
4 wait 1
5 done
6 done
e 2 U
7 refused NoSuch
8 wait 2
r 2 held
# restart-waiter-needs-a-new-start
s6-script 1
0 1 scan web
0 1 started 1 1 5
0 1 wait r a 0 web
10 1 death 1 1 code 0
1010 1 tick
1011 1 started 1 2 6
> no fault, and at the end
3 wait 1
4 done
e 1 d
e 1 D
5 done
o run 1 2
6 done
e 1 u
r 1 held
# waiter-made-after-the-supervisor-ended
s6-script 1
0 1 scan web:down
5 1 svc web x
6 1 wait u a 0 web
> no fault, and at the end
2 done
e 1 x
3 wait 1
r 1 gone
# waiter-and-status-after-the-history-was-cut
s6-script 1
0 1 scan web
0 1 started 1 1 5
10 1 tick
20 1 tick
20 1 wait u a 0 web
20 1 status web
> no fault, and at the end
5 wait 1
r 1 held
6 row 1 web true true true false false 5 -1 -1 0 -1
";

// The text has these lines at its end, and others before.
fn has_end(text: &[u8], end: &[u8]) -> bool {
    match text.strip_suffix(end) {
        Some(before) => before.ends_with(b"\n"),
        None => false,
    }
}

// A replay of the script has no fault, and its transcript ends so.
fn check_end(rt: &impl Abort, alloc: Global, case: &Case) {
    let found = replay_in_memory(alloc, case.script.as_bytes());
    let ends = has_end(found.written.as_slice(), case.written.as_bytes());
    holds(rt, case.name, ends && found.answer.is_ok());
}

#[test]
fn the_ends_of_worked_rows(rt: HostRuntime) {
    for row in ENDS.split("# ") {
        check_end(&rt, rt.alloc(), &Case::read(row));
    }
}
