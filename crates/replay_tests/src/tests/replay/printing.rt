//! The block of an effect with lines of each kind.
use super::fakes::FailingWriter;
use super::same;
use s6_events::{Letter, Mark, Name, Order, Sid, SubId, WaitId};
use s6_replay::write_effect;
use s6_script::WriteFault;
use std::alloc::{Allocator, Global};
use std::process::Abort;
use std::test::Fail;
use tree_core::{Effect, Event, Hit, Match, Refusal, Release, Reply, Verdict};

const TEXT: &str = "12 done
e 1 s
e 2 O
o run 1 1
o run 1 2 fd 3
o finish 1 2 256 15
o signal 1 2 18
o killfinish 1 2
m 1 D
m 2 overlong
r 1 held
r 2 failed
r 3 gone
r 4 timedout
";

fn events() -> [Event; 2] {
    [
        Event {
            sid: Sid(1),
            mark: Mark::SupervisorStarted,
        },
        Event {
            sid: Sid(2),
            mark: Mark::PermanentFailure,
        },
    ]
}

fn release(waiter: u64, verdict: Verdict) -> Release {
    Release {
        waiter: WaitId(waiter),
        verdict,
    }
}

// A release of each kind.
fn releases() -> [Release; 4] {
    [
        release(1, Verdict::Held),
        release(2, Verdict::Failed),
        release(3, Verdict::Gone),
        release(4, Verdict::TimedOut),
    ]
}

// Orders of each kind.
fn orders() -> Option<[Order; 5]> {
    let web = Name::new(b"web")?;
    Some([
        Order::Run(Sid(1), 1, web, None),
        Order::Run(Sid(1), 2, web, Some(3)),
        Order::Finish(Sid(1), 2, web, 256, 15),
        Order::Signal(Sid(1), 2, 18),
        Order::KillFinish(Sid(1), 2),
    ])
}

// A match of each kind.
fn matches() -> Option<[Match; 2]> {
    let letter = Letter::new(b'D')?;
    Some([
        Match {
            subscription: SubId(1),
            hit: Hit::Matched(letter),
        },
        Match {
            subscription: SubId(2),
            hit: Hit::Overlong,
        },
    ])
}

// Gives an effect lines of each kind.
fn fill(made: &mut Effect<Global>) -> Result<(), Fail> {
    for order in &orders().ok_or("a name")? {
        made.orders.try_push(*order).ok().ok_or("a place")?;
    }
    made.events.extend_from_slice(&events())?;
    made.matched
        .extend_from_slice(&matches().ok_or("a letter")?)?;
    made.released.extend_from_slice(&releases())?;
    Ok(())
}

// An effect with lines of each kind.
fn effect(alloc: Global) -> Result<Effect<Global>, Fail> {
    let mut made = Effect::new(alloc);
    fill(&mut made)?;
    Ok(made)
}

// The block of the effect under this number is this text.
fn check_block(
    rt: &impl Abort,
    alloc: Global,
    number: u64,
    effect: &Effect<Global>,
    text: &str,
) -> Result<(), Fail> {
    let mut written = Vec::new(alloc);
    write_effect(alloc, number, effect, &mut written)?;
    same(rt, "a block", written.as_slice(), text.as_bytes());
    Ok(())
}

#[test]
fn a_block_has_lines_of_each_kind(rt: HostRuntime) -> Result<(), Fail> {
    let made = effect(rt.alloc())?;
    check_block(&rt, rt.alloc(), 12, &made, TEXT)
}

// Whether so many bytes of the block are written, and then the writer fails.
fn is_cut_at(alloc: Global, effect: &Effect<Global>, room: usize) -> bool {
    let mut writer = FailingWriter {
        taken: Vec::new(alloc),
        room,
        fails: true,
    };
    let answer = write_effect(alloc, 12, effect, &mut writer);
    let taken = writer.taken.as_slice();
    let is_front = taken.len() == room && TEXT.as_bytes().starts_with(taken);
    is_front && answer == Err(WriteFault::Write)
}

// Each byte of the block is the last that is written in turn.
fn check_cuts(rt: &impl Abort, alloc: Global, effect: &Effect<Global>) {
    for room in 0..TEXT.len() {
        let is_cut = is_cut_at(alloc, effect, room);
        assert!(rt; is_cut, "at {room}");
    }
}

#[test]
fn a_block_that_is_not_written_whole(rt: HostRuntime) -> Result<(), Fail> {
    let made = effect(rt.alloc())?;
    check_cuts(&rt, rt.alloc(), &made);
    Ok(())
}

const REFUSALS: &[(Refusal, &str)] = &[
    (Refusal::NoService, "1 refused NoService\n"),
    (Refusal::Stale, "1 refused Stale\n"),
    (Refusal::Reserved, "1 refused Reserved\n"),
    (Refusal::TooMany, "1 refused TooMany\n"),
    (Refusal::NoSuch, "1 refused NoSuch\n"),
    (Refusal::Closing, "1 refused Closing\n"),
    (Refusal::Repeated, "1 refused Repeated\n"),
    (Refusal::Empty, "1 refused Empty\n"),
    (Refusal::Exists, "1 refused Exists\n"),
    (Refusal::Ended, "1 refused Ended\n"),
    (Refusal::Spent, "1 refused Spent\n"),
];

/// An effect that is this reply alone.
pub fn reply_alone<A: Allocator + Copy>(alloc: A, reply: Reply<A>) -> Effect<A> {
    let mut made = Effect::new(alloc);
    made.reply = reply;
    made
}

// The block of a reply alone is this text.
fn check_reply(
    rt: &impl Abort,
    alloc: Global,
    number: u64,
    reply: Reply<Global>,
    text: &str,
) -> Result<(), Fail> {
    let made = reply_alone(alloc, reply);
    check_block(rt, alloc, number, &made, text)
}

#[test]
fn replies_have_their_words(rt: HostRuntime) -> Result<(), Fail> {
    for (refusal, text) in REFUSALS {
        check_reply(&rt, rt.alloc(), 1, Reply::Refused(*refusal), *text)?;
    }
    check_reply(
        &rt,
        rt.alloc(),
        3,
        Reply::Subscription(SubId(7)),
        "3 sub 7\n",
    )
}
