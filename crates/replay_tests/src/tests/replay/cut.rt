//! A script cut at each byte, and with a reader or a writer that fails at each byte.
use super::fakes::{FailingReader, FailingWriter};
use super::{Replayed, count_blocks, replay_in_memory};
use s6_replay::{ReplayFault, run};
use std::alloc::Global;
use std::io::BufReader;
use std::process::Abort;
use std::test::Fail;

// The worked row `restart-after-pause`.
const SCRIPT: &str = "s6-script 1
0 1 scan web
0 1 started 1 1 500
300 1 death 1 1 code 1
1299 1 tick
1300 1 tick
";

const TRANSCRIPT: &str = "1 scanned +1:web
e 1 s
o run 1 1
2 done
e 1 u
3 done
e 1 d
e 1 D
4 done
5 done
o run 1 2
";

// How many input lines there are whole, behind the head line.
fn whole_lines(part: &[u8]) -> usize {
    let lines = part.iter().filter(|b| **b == b'\n').count();
    lines.saturating_sub(1)
}

// Where a script that is cut stops.
fn fault_of(part: &[u8]) -> Option<ReplayFault> {
    if !part.contains(&b'\n') {
        Some(ReplayFault::Head)
    } else if part.ends_with(b"\n") {
        None
    } else {
        Some(ReplayFault::Truncated)
    }
}

// A replay of so many bytes of the script stopped with this fault, or with none, behind the blocks
// of the lines in these bytes.
fn check_stopped(rt: &impl Abort, found: &Replayed, bytes: usize, wanted: Option<ReplayFault>) {
    let blocks = count_blocks(TRANSCRIPT, found.written.as_slice());
    let lines = whole_lines(SCRIPT.as_bytes().get(..bytes).unwrap_or(&[]));
    let good = blocks == Some(lines) && found.answer.err() == wanted;
    assert!(rt; good, "at {bytes}");
}

#[test]
fn a_script_that_is_cut_at_each_byte(rt: HostRuntime) {
    for cut in 0..SCRIPT.len() + 1 {
        let part = &SCRIPT.as_bytes()[..cut];
        let found = replay_in_memory(rt.alloc(), part);
        check_stopped(&rt, &found, cut, fault_of(part));
    }
}

// A replay whose reader gives so many bytes before it fails.
fn replay_of_failing_reader(alloc: Global, good: usize) -> Result<Replayed, Fail> {
    let bytes = SCRIPT.as_bytes();
    let mut reader = BufReader::new(alloc, FailingReader { bytes, good })?;
    let mut written = Vec::new(alloc);
    let answer = run(alloc, alloc, &mut reader, &mut written);
    Ok(Replayed { answer, written })
}

// The last call finds the end of the script.
#[test]
fn each_read_fails_in_turn(rt: HostRuntime) -> Result<(), Fail> {
    for good in 0..SCRIPT.len() + 1 {
        let found = replay_of_failing_reader(rt.alloc(), good)?;
        check_stopped(&rt, &found, good, Some(ReplayFault::Read));
    }
    let found = replay_of_failing_reader(rt.alloc(), SCRIPT.len() + 1)?;
    check_stopped(&rt, &found, SCRIPT.len(), None);
    Ok(())
}

// A replay into a writer that takes so many bytes, and then fails or takes none.
fn replay_into_failing_writer(alloc: Global, room: usize, fails: bool) -> Replayed {
    let taken = Vec::new(alloc);
    let mut reader = SCRIPT.as_bytes();
    let mut writer = FailingWriter { taken, room, fails };
    let answer = run(alloc, alloc, &mut reader, &mut writer);
    Replayed {
        answer,
        written: writer.taken,
    }
}

// Such a replay ends so, and has written so many bytes of the transcript.
fn check_writer(
    rt: &impl Abort,
    alloc: Global,
    room: usize,
    fails: bool,
    wanted: Option<ReplayFault>,
) {
    let found = replay_into_failing_writer(alloc, room, fails);
    let taken = found.written.as_slice();
    let is_front = taken.len() == room && TRANSCRIPT.as_bytes().starts_with(taken);
    assert!(rt; is_front && found.answer.err() == wanted, "at {room}");
}

#[test]
fn each_write_fails_in_turn(rt: HostRuntime) {
    let all: usize = 89;
    for room in 0..all {
        check_writer(&rt, rt.alloc(), room, true, Some(ReplayFault::Write));
        check_writer(&rt, rt.alloc(), room, false, Some(ReplayFault::Write));
    }
    check_writer(&rt, rt.alloc(), all, true, None);
}
