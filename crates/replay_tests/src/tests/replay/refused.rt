//! Growths that are refused: the same work on heaps of a growing size, each of which refuses the
//! first growth that it has no place for.
use super::printing::reply_alone;
use super::recorded::MIGRATIONS;
use super::{Case, count_blocks, holds, words_of};
use linked_list_allocator::LocalHeap;
use s6_replay::{Checked, Counts, ReplayFault, check, migrate, run, write_effect};
use s6_script::{LineFault, SpellFault, WriteFault, parse_line, write_input};
use std::alloc::{Allocator, Global};
use std::process::Abort;
use std::test::Fail;
use tree_core::{Effect, Input, Refusal, Reply};

// Scripts with what a replay answers and the transcript.
const SCRIPTS: &str = "restart-after-pause
s6-script 1
0 1 scan web
0 1 started 1 1 500
300 1 death 1 1 code 1
1299 1 tick
1300 1 tick
> 5 inputs, 4 events, 2 orders
1 scanned +1:web
e 1 s
o run 1 1
2 done
e 1 u
3 done
e 1 d
e 1 D
4 done
5 done
o run 1 2
# once-letters-and-row-after-death
s6-script 1
0 1 scan web:down
1 1 svc web uO
2 1 started 1 1 500
5000 1 death 1 1 code 0
9000 1 status web
> 5 inputs, 4 events, 1 orders
1 scanned +1:web
e 1 s
2 done
o run 1 1
3 done
e 1 u
4 done
e 1 d
e 1 D
5 row 1 web false false false true false -1 0 -1 4 4
# finish-of-125-is-permanent-failure, with a readiness report that no descriptor is there for
s6-script 1
0 1 scan web:finish
0 1 started 1 1 500
5 1 notify 1 1 0a
10 1 death 1 1 signal 9
20 1 finished 1 1 code 125
> 5 inputs, 5 events, 2 orders
1 scanned +1:web
e 1 s
o run 1 1
2 done
e 1 u
3 done
4 done
e 1 d
o finish 1 1 256 9
5 done
e 1 O
e 1 D
# a death, the tally that has it, and what it means
s6-script 1
0 1 scan web:tally=2
0 1 started 1 1 5
9 1 death 1 1 signal 11
9 1 tally web
9 1 permafailon web 1 1 1,SIGSEGV
> 5 inputs, 4 events, 1 orders
1 scanned +1:web
e 1 s
o run 1 1
2 done
e 1 u
3 done
e 1 d
e 1 D
4 tally 9:s11
5 permafail 125
# a waiter that is made, released and cancelled
s6-script 1
0 1 scan web
0 1 started 1 1 5
0 1 wait D a 500 web
500 1 death 1 1 code 0
500 1 cancel 1
> 5 inputs, 4 events, 1 orders
1 scanned +1:web
e 1 s
o run 1 1
2 done
e 1 u
3 wait 1
4 done
e 1 d
e 1 D
r 1 timedout
5 done
# free-directory-and-its-refusals
s6-script 1
0 1 mkdir q
0 1 subscribe dir q once b$
0 1 send dir q abc
0 1 send svc q u
0 1 mkdir q
> 5 inputs, 0 events, 0 orders
1 done
2 sub 1
3 done
m 1 b
4 refused Reserved
5 refused Exists
# inputs before a pattern that is refused
s6-script 1
0 1 scan web
0 1 started 1 1 5
0 1 wait D a 0 web
5 1 cancel 1
5 1 cancel 1
5 1 subscribe svc web once a (
> the pattern in line 7 does not build
1 scanned +1:web
e 1 s
o run 1 1
2 done
e 1 u
3 wait 1
4 done
5 refused NoSuch
";

const LINES: &str = "0 1 scan web:finish,kill=7 other
0 1 notify 1 1 0a0a
0 1 permafailon web 1 1 1-2,SIGHUP
0 1 wait U o 9 web log
0 1 subscribe dir q repeat u.*u d
0 1 send dir q udududududududududududududududud";

// What is done on a heap.
#[derive(Clone, Copy)]
enum HeapWork<'a> {
    Replay(Case<'a>),
    /// The written script is a recorded one.
    Migrate(Case<'a>),
    /// Of the recorded script, in which each of three replies is the machine's.
    Check(Case<'a>),
    Parse(&'a str),
    /// The input of this line, which is written as the same line.
    Spell(&'a str),
    /// The block of a refusal.
    Print,
}

// How far work came.
#[derive(Clone, Copy)]
enum Reached {
    End,
    /// Memory ran out before anything was written.
    Nothing,
    /// Memory ran out behind a whole part.
    Between,
    Wrong,
}

// How far a replay or a migration came with this answer, behind so many whole parts; all is
// written, or not.
fn reached_by(
    alloc: Global,
    answer: Result<Counts, ReplayFault>,
    parts: Option<usize>,
    is_all: bool,
    case: &Case,
) -> Result<Reached, Fail> {
    match (answer, parts) {
        (Err(ReplayFault::NoMemory), Some(0)) => return Ok(Reached::Nothing),
        (Err(ReplayFault::NoMemory), Some(_)) => return Ok(Reached::Between),
        _ => {}
    }
    let words = words_of(alloc, &answer)?;
    Ok(if is_all && words.as_str() == case.answer {
        Reached::End
    } else {
        Reached::Wrong
    })
}

fn replay_on(heap: &LocalHeap, alloc: Global, case: &Case) -> Result<Reached, Fail> {
    let mut reader = case.script.as_bytes();
    let mut written = Vec::new(alloc);
    let answer = run(heap, alloc, &mut reader, &mut written);
    let text = written.as_slice();
    let blocks = count_blocks(case.written, text);
    reached_by(alloc, answer, blocks, text == case.written.as_bytes(), case)
}

// How many whole steps of a recorded script the text has, each an input line and a reply line, or
// None where it is no such beginning.
fn count_steps(recorded: &str, text: &[u8]) -> Option<usize> {
    if text.is_empty() {
        return Some(0);
    }
    let lines = text.iter().filter(|b| **b == b'\n').count();
    if recorded.as_bytes().starts_with(text) && text.ends_with(b"\n") && lines % 2 == 1 {
        Some(lines / 2)
    } else {
        None
    }
}

fn migrate_on(heap: &LocalHeap, alloc: Global, case: &Case) -> Result<Reached, Fail> {
    let mut reader = case.script.as_bytes();
    let mut written = Vec::new(alloc);
    let answer = migrate(heap, alloc, &mut reader, &mut written);
    let text = written.as_slice();
    let steps = count_steps(case.written, text);
    reached_by(alloc, answer, steps, text == case.written.as_bytes(), case)
}

fn check_on(heap: &LocalHeap, alloc: Global, case: &Case) -> Reached {
    let mut reader = case.written.as_bytes();
    match check(heap, alloc, &mut reader) {
        Ok(Checked::Legal(3)) => Reached::End,
        Err(ReplayFault::NoMemory) => Reached::Nothing,
        _ => Reached::Wrong,
    }
}

fn parse_on(heap: &LocalHeap, alloc: Global, line: &str) -> Reached {
    match parse_line(heap, alloc, line.as_bytes()).err() {
        None => Reached::End,
        Some(LineFault::NoMemory) => Reached::Nothing,
        Some(_) => Reached::Wrong,
    }
}

// How far it comes to write this text: nothing of it may be written before memory runs out.
fn written_to(written: &[u8], text: &str, is_done: bool, is_refused: bool) -> Reached {
    if is_done && written == text.as_bytes() {
        Reached::End
    } else if is_refused && written.is_empty() {
        Reached::Nothing
    } else {
        Reached::Wrong
    }
}

// How far it comes to write the input as this line.
fn write_on<A: Allocator + Copy>(heap: A, alloc: Global, input: &Input<A>, line: &str) -> Reached {
    let Ok(plain) = input.plain(heap) else {
        return Reached::Between;
    };
    let mut written = Vec::new(alloc);
    let fault = write_input(heap, &plain, &mut written).err();
    let is_refused = fault == Some(SpellFault::NoMemory);
    written_to(written.as_slice(), line, fault.is_none(), is_refused)
}

fn spell_on(heap: &LocalHeap, alloc: Global, line: &str) -> Reached {
    match parse_line(heap, alloc, line.as_bytes()) {
        Ok(input) => write_on(heap, alloc, &input, line),
        Err(_) => Reached::Between,
    }
}

// How far it comes to write the block of a refusal.
fn write_block<A: Allocator + Copy>(heap: A, alloc: Global, effect: &Effect<A>) -> Reached {
    let mut written = Vec::new(alloc);
    let fault = write_effect(heap, 12, effect, &mut written).err();
    let is_refused = fault == Some(WriteFault::NoMemory);
    let text = "12 refused NoService\n";
    written_to(written.as_slice(), text, fault.is_none(), is_refused)
}

fn print_on(heap: &LocalHeap, alloc: Global) -> Reached {
    let effect = reply_alone(heap, Reply::Refused(Refusal::NoService));
    write_block(heap, alloc, &effect)
}

// How far the work comes on a heap of so many bytes.
fn do_work(alloc: Global, work: &HeapWork, bytes: usize) -> Result<Reached, Fail> {
    let heap = LocalHeap::new(alloc, bytes)?;
    match work {
        HeapWork::Replay(case) => replay_on(&heap, alloc, case),
        HeapWork::Migrate(case) => migrate_on(&heap, alloc, case),
        HeapWork::Check(case) => Ok(check_on(&heap, alloc, case)),
        HeapWork::Parse(line) => Ok(parse_on(&heap, alloc, *line)),
        HeapWork::Spell(line) => Ok(spell_on(&heap, alloc, *line)),
        HeapWork::Print => Ok(print_on(&heap, alloc)),
    }
}

// On heaps of a growing size each growth is the first one refused, up to 40 heaps on which the work
// comes to its end. On so many others, or more, it comes nowhere.
fn refuse_in_turn(
    rt: &impl Abort,
    alloc: Global,
    row: &str,
    work: &HeapWork,
    least: u32,
) -> Result<(), Fail> {
    let mut ended = 0u32;
    let mut refused = 0u32;
    for step in 0..1000usize {
        match do_work(alloc, work, 16 * step)? {
            Reached::End => ended = ended.saturating_add(1),
            Reached::Nothing => refused = refused.saturating_add(1),
            Reached::Between => {}
            Reached::Wrong => return Err("neither whole nor refused".into()),
        }
        if ended == 40 {
            break;
        }
    }
    holds(rt, row, ended == 40 && refused >= least);
    Ok(())
}

#[test]
fn each_growth_of_a_replay_is_refused_in_turn(rt: HostRuntime) -> Result<(), Fail> {
    for text in SCRIPTS.split("# ") {
        let case = Case::read(text);
        refuse_in_turn(&rt, rt.alloc(), case.name, &HeapWork::Replay(case), 3)?;
    }
    Ok(())
}

#[test]
fn each_growth_of_recording_is_refused_in_turn(rt: HostRuntime) -> Result<(), Fail> {
    let text = MIGRATIONS.split("# ").next().ok_or("a migration")?;
    let case = Case::read(text);
    refuse_in_turn(&rt, rt.alloc(), "a migration", &HeapWork::Migrate(case), 3)?;
    refuse_in_turn(&rt, rt.alloc(), "a check", &HeapWork::Check(case), 3)
}

#[test]
fn each_growth_of_a_line_is_refused_in_turn(rt: HostRuntime) -> Result<(), Fail> {
    for line in LINES.split('\n') {
        refuse_in_turn(&rt, rt.alloc(), line, &HeapWork::Parse(line), 3)?;
    }
    let line = "5 3 notify 7 2 0a0b";
    refuse_in_turn(&rt, rt.alloc(), line, &HeapWork::Spell(line), 1)?;
    refuse_in_turn(&rt, rt.alloc(), "a block", &HeapWork::Print, 3)
}
