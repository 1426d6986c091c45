//! Waiters by their public calls: releases, refusals, plans and refused memory.
ghost use Rattle.std.specs.Prelude.{◌≡◌, ◌<◌, ◌+◌, ◌≤◌, ◌^◌, length};

use crate::shared::{TrialCounts, at, new_heap};
use s6_events::{At, Condition, Mark, Mode, Moment, NoMemory, Sid, WaitId};
use std::alloc::{Allocator, Global};
use std::process::Abort;
use wait_conditions::{AddFault, Verdict, WaitAnswer, WaitChange, WaitState, Waits};

// The mark of this letter.
fn mark_of(byte: u8) -> Mark {
    match byte {
        b's' => Mark::SupervisorStarted,
        b'u' => Mark::Spawned,
        b'U' => Mark::Ready,
        b'd' => Mark::Died,
        b'D' => Mark::FinishDone,
        b'O' => Mark::PermanentFailure,
        _ => Mark::SupervisorEnded,
    }
}

fn add<R: Abort>(rt: &R, moments: &mut Vec<Moment>, moment: Moment) {
    let added = moments.push(moment).is_ok();
    assert!(rt; added);
}

// The marks by their letters, of service 1 or, after a 2, of service 2 until a 1; a dot is a clock
// reading 100 ms later, and a dash nothing.
fn moments_of<R: Abort>(rt: &R, alloc: Global, text: &str) -> Vec<Moment> {
    let mut moments = Vec::new(alloc);
    let mut sid = Sid(1);
    let mut millis = 0u64;
    for byte in text.bytes() {
        match byte {
            b'-' => {}
            b'1' => sid = Sid(1),
            b'2' => sid = Sid(2),
            b'.' => {
                millis = millis.saturating_add(100);
                add(rt, &mut moments, Moment::Clock(at(rt, millis)));
            }
            _ => add(rt, &mut moments, Moment::Event(sid, mark_of(byte))),
        }
    }
    moments
}

fn hand_in<R: Abort>(rt: &R, waits: &mut Waits<Global>, moments: &[Moment])
    ensures { waits.new.next ≡ waits.old.next }
{
    for moment in moments {
        let released = waits.moment(moment);
        assert!(rt; released.is_ok());
    }
}

fn add_some<R: Abort>(rt: &R, waits: &mut Waits<Global>, count: u32)
    requires { waits.old.next ≡ 1 }
    ensures { waits.new.next ≤ count + 1 }
{
    for _ in 0..count {
        let added = waits.add(Condition::Up, Mode::All, &[Sid(1)], 0, At::zero());
        assert!(rt; added.is_ok());
    }
}

// With what verdict this waiter is released at this moment.
fn verdict_at<R: Abort>(
    rt: &R,
    waits: &mut Waits<Global>,
    id: WaitId,
    moment: &Moment,
) -> Option<Verdict> {
    let released = waits.moment(moment).expect(rt, "memory");
    for (other, verdict) in &released {
        if *other == id && waits.result(id) == Some(WaitState::Released(*verdict)) {
            return Some(*verdict);
        }
    }
    None
}

// After how many of these moments it is released, and with what verdict.
fn first_release<R: Abort>(
    rt: &R,
    waits: &mut Waits<Global>,
    id: WaitId,
    moments: &[Moment],
) -> Option<(usize, Verdict)> {
    let mut count = 0usize;
    for moment in moments {
        count = count.saturating_add(1);
        if let Some(verdict) = verdict_at(rt, waits, id, moment) {
            return Some((count, verdict));
        }
    }
    None
}

// A waiter for some services, with the marks before it and since.
#[derive(Clone, Copy)]
struct WaiterCase<'a> {
    condition: Condition,
    mode: Mode,
    sids: &'a [Sid],
    past: &'a [Moment],
    since: &'a [Moment],
}

// It is made at 0 with a timeout of 500: after how many moments since it is released, and with what
// verdict.
fn released_after<R: Abort>(
    rt: &R,
    waits: &mut Waits<Global>,
    waiter: &WaiterCase,
) -> Option<(usize, Verdict)>
    requires { waits.old.next ≡ 1 }
{
    hand_in(rt, waits, waiter.past);
    let added = waits.add(waiter.condition, waiter.mode, waiter.sids, 500, At::zero());
    match added.expect(rt, "a waiter") {
        (_, Some(verdict)) => Some((0, verdict)),
        (id, None) => first_release(rt, waits, id, waiter.since),
    }
}

// A row each: the letters of a condition and of a mode, the services, the marks before the waiter
// and since; after how many moments it is released, and how.
const RELEASES: &str = "u a 1 su - 0:Held
u a 1 s u 1:Held
U a 1 su dDuU 4:Held
d a 1 suU d 1:Held
D a 1 su dD 2:Held
D a 1 - - 0:Held
r a 1 su dDu 3:Held
R a 1 suU dDuU 4:Held
U a 12 1su2su 1U1dD2U1uU 6:Held
U o 12 1su2su 2U 1:Held
U a 1 su dOD 2:Failed
u a 1 sudOD u 1:Held
u o 12 1s2s 1O2x 2:Failed
u a 12 1su2s 2x 1:Gone
u a 1 sudDx - 0:Gone
D a 1 su .....dD 5:TimedOut
D a 1 su .... never";

fn condition_of(letter: &str) -> Condition {
    match letter {
        "u" => Condition::Up,
        "U" => Condition::Ready,
        "d" => Condition::Down,
        "D" => Condition::Finished,
        "r" => Condition::Restarted,
        _ => Condition::RestartedReady,
    }
}

fn mode_of(letter: &str) -> Mode {
    if letter == "a" { Mode::All } else { Mode::One }
}

// The services 1, 2, 3 and so on.
fn numbered<R: Abort>(rt: &R, alloc: Global, count: u64) -> Vec<Sid> {
    let mut sids = Vec::new(alloc);
    for n in 0..count {
        sids.push(Sid(n + 1)).expect(rt, "memory");
    }
    sids
}

// What is found of a release, as a row has it.
fn word_of<R: Abort>(rt: &R, alloc: Global, found: Option<(usize, Verdict)>) -> String {
    let text = match found {
        Some((count, verdict)) => format!(in alloc; "{count}:{verdict:?}"),
        None => format!(in alloc; "never"),
    };
    text.expect(rt, "memory")
}

// The waiter of these words is released so.
fn wants_release<R: Abort>(rt: &R, alloc: Global, words: &[&str]) {
    assert!(rt; words.len() == 6);
    let past = moments_of(rt, alloc, words[3]);
    let since = moments_of(rt, alloc, words[4]);
    let sids = numbered(rt, alloc, words[2].len() as u64);
    let waiter = WaiterCase {
        condition: condition_of(words[0]),
        mode: mode_of(words[1]),
        sids: sids.as_slice(),
        past: past.as_slice(),
        since: since.as_slice(),
    };
    let found = released_after(rt, &mut Waits::new(alloc), &waiter);
    let found = word_of(rt, alloc, found);
    wants_word(rt, words, words[5], &found);
}

// What was found is what these words want.
fn wants_word<R: Abort>(rt: &R, words: &[&str], wanted: &str, found: &str) {
    assert!(rt; found == wanted, "{words:?}: {found}");
}

#[test]
fn releases_at_the_first_moment_that_decides(rt: HostRuntime) {
    for row in RELEASES.split('\n') {
        let words: Vec<&str> = row.split(' ').collect(rt.alloc()).expect(&rt, "memory");
        wants_release(&rt, rt.alloc(), &words);
    }
}

// Where so many waiters stand, one for these services has this fault.
fn wants_fault<R: Abort>(
    rt: &R,
    alloc: Global,
    standing: u32,
    sids: &[Sid],
    wanted: Option<AddFault>,
) {
    let mut waits = Waits::new(alloc);
    add_some(rt, &mut waits, standing);
    let fault = waits
        .add(Condition::Up, Mode::All, sids, 0, At::zero())
        .err();
    assert_eq!(rt; fault, wanted);
}

#[test]
fn refuses_in_the_order_of_the_faults(rt: HostRuntime) {
    let alloc = rt.alloc();
    let many = numbered(&rt, alloc, 17);
    let most = numbered(&rt, alloc, 16);
    wants_fault(&rt, alloc, 0, &[], Some(AddFault::Empty));
    wants_fault(
        &rt,
        alloc,
        1024,
        &[Sid(1), Sid(2), Sid(1)],
        Some(AddFault::Repeated),
    );
    wants_fault(&rt, alloc, 1024, &many, Some(AddFault::TooManyServices));
    wants_fault(&rt, alloc, 1024, &most, Some(AddFault::TooMany));
    wants_fault(&rt, alloc, 1023, &most, None);
}

// A waiter for service 1 is made under this number, and isn't released.
fn wants_waiting<R: Abort>(rt: &R, waits: &mut Waits<Global>, id: WaitId)
    requires { waits.old.next < 2 ^ 63 }
    ensures { waits.new.next ≤ waits.old.next + 1 }
{
    let added = waits.add(Condition::Up, Mode::All, &[Sid(1)], 0, At::zero());
    assert!(rt; added == Ok((id, None)));
}

// Service 1 is up: the second waiter is held, and no other.
fn release_second<R: Abort>(rt: &R, waits: &mut Waits<Global>) {
    let released = waits
        .moment(&Moment::Event(Sid(1), Mark::Spawned))
        .expect(rt, "memory");
    assert!(rt; released.as_slice() == [(WaitId(2), Verdict::Held)].as_slice());
}

#[test]
fn a_cancelled_waiter_is_gone(rt: HostRuntime) {
    let mut waits = Waits::new(rt.alloc());
    wants_waiting(&rt, &mut waits, WaitId(1));
    wants_waiting(&rt, &mut waits, WaitId(2));
    assert!(rt; waits.cancel(WaitId(1)));
    assert!(rt; !waits.cancel(WaitId(1)));
    release_second(&rt, &mut waits);
    let held = Some(WaitState::Released(Verdict::Held));
    assert!(rt; stands(&waits) == [None, held, None]);
}

// A waiter for these services to be up.
fn add_waiter<A: Allocator + Copy>(
    waits: &mut Waits<A>,
    mode: Mode,
    sids: &[Sid],
) -> Result<bool, NoMemory>
    requires { waits.old.next < 2 ^ 63 }
    ensures { waits.new.next ≤ waits.old.next + 1 }
{
    match waits.add(Condition::Up, mode, sids, 0, At::zero()) {
        Ok(_) => Ok(true),
        Err(AddFault::NoMemory) => Err(NoMemory),
        Err(_) => Ok(false),
    }
}

// Makes two waiters and releases them, as far as memory goes.
fn are_released<A: Allocator + Copy>(waits: &mut Waits<A>) -> Result<bool, NoMemory>
    requires { waits.old.next ≡ 1 }
{
    let is_first = add_waiter(waits, Mode::All, &[Sid(1)])?;
    let is_second = add_waiter(waits, Mode::One, &[Sid(1), Sid(2)])?;
    let released = waits.moment(&Moment::Event(Sid(1), Mark::Spawned))?;
    Ok(is_first && is_second && released.len() == 2)
}

// On heaps of a growing size each growth is the first one refused.
#[test]
fn a_refused_growth_is_told(rt: HostRuntime) {
    let mut counts = TrialCounts::new();
    for step in 0..100usize {
        let heap = new_heap(&rt, rt.alloc(), 64 * step);
        counts.add(&rt, are_released(&mut Waits::new(&heap)));
    }
    counts.wants_more_than(&rt, 2);
}

// Where the waiters 1, 2 and 3 stand.
fn stands<A: Allocator + Copy>(waits: &Waits<A>) -> [Option<WaitState>; 3] {
    [
        waits.result(WaitId(1)),
        waits.result(WaitId(2)),
        waits.result(WaitId(3)),
    ]
}

// A step: its moments by their letters and its change, then what it releases, answers and leaves.
type StepRow<'a> = (
    &'a str,
    WaitChange<'a>,
    &'a [(WaitId, Verdict)],
    WaitAnswer,
    [Option<WaitState>; 3],
);

// The step of these moments is prepared, which shows nothing, and made: whether it gives what the
// row says.
fn is_step_as<R: Abort>(
    rt: &R,
    waits: &mut Waits<Global>,
    moments: &[Moment],
    row: &StepRow,
) -> bool
    requires { waits.old.next < 2 ^ 63 }
    ensures { waits.new.next ≤ waits.old.next + 1 }
{
    let (_, change, released, answer, after) = row;
    let before = stands(waits);
    let plan = waits.prepare(moments, change).expect(rt, "memory");
    let is_released = plan.released() == *released;
    let is_answered = plan.answer() == *answer;
    let is_hidden = stands(waits) == before;
    waits.commit(plan);
    is_released && is_answered && is_hidden && stands(waits) == *after
}

fn takes_step<R: Abort>(rt: &R, alloc: Global, waits: &mut Waits<Global>, row: &StepRow)
    requires { waits.old.next < 2 ^ 63 }
    ensures { waits.new.next ≤ waits.old.next + 1 }
{
    let moments = moments_of(rt, alloc, row.0);
    let is_right = is_step_as(rt, waits, &moments, row);
    assert!(rt; is_right, "{} {:?}", row.0, row.3);
}

fn take_steps<R: Abort>(rt: &R, alloc: Global, waits: &mut Waits<Global>, rows: &[StepRow])
    requires few { length rows.now < 1000 }
    requires next { waits.old.next ≡ 1 }
{
    for row in rows {
        takes_step(rt, alloc, waits, row);
    }
}

#[test]
fn a_step_is_prepared_and_made(rt: HostRuntime) {
    let waiting = Some(WaitState::Waiting);
    let held = Some(WaitState::Released(Verdict::Held));
    let start = At::zero();
    let one: &[Sid] = &[Sid(1)];
    let two: &[Sid] = &[Sid(2)];
    // In the third step service 1 is up for one moment.
    let rows: &[StepRow] = &[
        (
            "1s2s",
            WaitChange::Add(Condition::Ready, Mode::All, two, 0, start),
            &[],
            WaitAnswer::Added(WaitId(1), None),
            [waiting, None, None],
        ),
        (
            "",
            WaitChange::Add(Condition::Up, Mode::All, one, 0, start),
            &[],
            WaitAnswer::Added(WaitId(2), None),
            [waiting, waiting, None],
        ),
        (
            "1ud2U",
            WaitChange::Nothing,
            &[(WaitId(2), Verdict::Held), (WaitId(1), Verdict::Held)],
            WaitAnswer::Nothing,
            [held, held, None],
        ),
        (
            "1D",
            WaitChange::Cancel(WaitId(1)),
            &[],
            WaitAnswer::Cancelled(true),
            [None, held, None],
        ),
        (
            "2d",
            WaitChange::Add(Condition::Down, Mode::All, two, 0, start),
            &[],
            WaitAnswer::Added(WaitId(3), Some(Verdict::Held)),
            [None, held, held],
        ),
        (
            "",
            WaitChange::Add(Condition::Up, Mode::All, &[], 0, start),
            &[],
            WaitAnswer::Refused(AddFault::Empty),
            [None, held, held],
        ),
    ];
    take_steps(&rt, rt.alloc(), &mut Waits::new(rt.alloc()), rows);
}

// How a step ends that releases a waiter and makes another, where memory may be wanting.
#[derive(Clone, Copy)]
enum StepEnding {
    Unmade,
    Refused,
    Made,
    Other,
}

// This ending, where all was right.
fn ending_if(is_right: bool, ending: StepEnding) -> StepEnding {
    if is_right { ending } else { StepEnding::Other }
}

// Prepares the step, which shows nothing, and makes it.
fn make_step<A: Allocator + Copy>(waits: &mut Waits<A>) -> StepEnding
    requires { waits.old.next < 2 ^ 63 }
{
    let before = stands(waits);
    let moments: &[Moment] = &[Moment::Event(Sid(1), Mark::Spawned)];
    let change = WaitChange::Add(Condition::Up, Mode::All, &[Sid(1)], 0, At::zero());
    let plan = waits.prepare(moments, &change);
    let is_hidden = stands(waits) == before;
    match plan {
        Ok(plan) => {
            let released = plan.released().len();
            waits.commit(plan);
            ending_if(is_hidden && released == 1, StepEnding::Made)
        }
        Err(_) => ending_if(is_hidden, StepEnding::Refused),
    }
}

// The same where a waiter for service 1 stands.
fn ending_of<A: Allocator + Copy>(waits: &mut Waits<A>) -> StepEnding
    requires { waits.old.next ≡ 1 }
{
    match add_waiter(waits, Mode::All, &[Sid(1)]) {
        Ok(_) => make_step(waits),
        Err(NoMemory) => StepEnding::Unmade,
    }
}

// On heaps of a growing size each growth of the step is the first one refused.
#[test]
fn a_refused_step_leaves_what_is_shown(rt: HostRuntime) {
    let mut counts = TrialCounts::new();
    for step in 0..100usize {
        let heap = new_heap(&rt, rt.alloc(), 64 * step);
        match ending_of(&mut Waits::new(&heap)) {
            StepEnding::Unmade => {}
            StepEnding::Refused => counts.add(&rt, Err(NoMemory)),
            StepEnding::Made => counts.add(&rt, Ok(true)),
            StepEnding::Other => counts.add(&rt, Ok(false)),
        }
    }
    counts.wants_more_than(&rt, 2);
}
