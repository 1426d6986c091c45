//! Restarts, arguments of `finish` and its verdict, by their public calls.
use crate::shared::at;
use finish_core::{Verdict125, finish_args, restart_due, verdict};
use s6_events::Exit;
use std::process::Abort;

// A service that was ready since then and died then may be started again at this moment.
fn wants_due<R: Abort>(rt: &R, since: Option<u64>, death: u64, now: u64, due: u64) {
    let since = match since {
        Some(millis) => Some(at(rt, millis)),
        None => None,
    };
    assert_eq!(rt; restart_due(since, at(rt, death), at(rt, now)), due);
}

#[test]
fn pauses_a_second_unless_it_was_ready_for_longer(rt: HostRuntime) {
    // ready since, death, now, due
    wants_due(&rt, None, 300, 300, 1300);
    wants_due(&rt, None, 300, 1300, 1300);
    wants_due(&rt, None, 300, 1301, 1301);
    wants_due(&rt, Some(100), 1100, 1100, 2100);
    wants_due(&rt, Some(100), 1101, 1101, 1101);
    wants_due(&rt, Some(0), 5, 20, 1005);
}

#[test]
fn tells_finish_the_code_or_the_signal(rt: HostRuntime) {
    let found = [
        finish_args(Exit::Code(7)),
        finish_args(Exit::Code(0)),
        finish_args(Exit::Killed(9)),
        finish_args(Exit::Killed(0)),
    ];
    assert_eq!(rt; found, [(7, 0), (0, 0), (256, 9), (256, 0)]);
}

#[test]
fn takes_the_code_125_for_a_permanent_failure(rt: HostRuntime) {
    let found = [
        verdict(Exit::Code(125)),
        verdict(Exit::Code(124)),
        verdict(Exit::Code(0)),
        verdict(Exit::Killed(125)),
    ];
    let ordinary = Verdict125::Ordinary;
    assert_eq!(rt;
        found,
        [Verdict125::Permanent, ordinary, ordinary, ordinary]
    );
}
