//! What no clause says: that every act succeeds with ample memory, on a table of 64 and with the
//! longest lists, and that each growth of a step may be refused. What a step gives is its clauses'
//! matter; the worked rows run as scripts in `replay`.
use super::templates::{make_text, push_template};
use super::{holds, same};
use linked_list_allocator::LocalHeap;
use s6_events::{Letter, Name, NoMemory, SubId, WaitId};
use s6_script::parse_line;
use std::alloc::{AllocError, Allocator, Global};
use std::process::Abort;
use std::test::Fail;
use tree_core::{Act, Effect, Input, State, Tree, WaitState};

// What each of 64 services in turn is told, in a template, and how many events, orders, matches and
// releases that gives in all. `&` stands for the names of 64 services, and of a directory that
// couldn't be read. Each waits for the first service and the last.
const ROUNDS: &str = "0 1 scan& > 64 64 0 0
0 1 started # 1 500 > 64 0 0 0
0 1 notify # 1 6161616161616161616161616161616161616161616161616161616161616161616161616161616161616161616161616161616161616161616161616161610a > 64 0 0 0
0 1 svc s~ hhhhhhhhhhhhhhhhhhhhhhhhhhhhhhhhhhhhhhhhhhhhhhhhhhhhhhhhhhhhhhh > 0 4032 0 0
4 1 subscribe svc s~ repeat d.* > 0 0 0 0
5 1 death # 1 signal 9 > 64 64 64 0
5 1 wait D a 0 s01 s64 > 0 0 0 0
6 1 finished # 1 code 0 > 64 0 0 64
6 1 cancel # > 0 0 0 0
6 1 unsubscribe # > 0 0 0 0
6 1 mkdir s~ > 0 0 0 0
6 1 subscribe dir s~ once b$ > 0 0 0 0
6 1 send dir s~ abc > 0 0 64 0
7 1 status s~ > 0 0 0 0
7 1 tally s~ > 0 0 0 0
7 1 permafailon s~ 1 1 1,SIGKILL > 0 0 0 0
1005 1 tick > 0 64 0 0
1006 1 startfailed # 2 > 0 0 0 0
1008 1 scan > 0 0 0 0
1009 1 scanctl n > 64 0 0 0
1010 1 scan > 0 0 0 0
1011 1 status s~ > 0 0 0 0
1012 1 scan& > 64 64 0 0
1013 1 scanctl t > 0 0 0 0
1014 1 scan& > 0 0 0 0";

// How much the tree gave.
#[derive(Clone, Copy)]
struct GivenCounts {
    events: usize,
    orders: usize,
    matched: usize,
    released: usize,
}

impl GivenCounts {
    fn add(&mut self, effect: &Effect<Global>) {
        self.events = self.events.saturating_add(effect.events.len());
        self.orders = self.orders.saturating_add(effect.orders.len());
        self.matched = self.matched.saturating_add(effect.matched.len());
        self.released = self.released.saturating_add(effect.released.len());
    }
}

// The line of a service. Each has a `finish` and a notification descriptor.
fn line_of(alloc: Global, template: &str, serial: u32) -> Result<String, AllocError> {
    if let Some((scan, _)) = template.split_once('&') {
        let names = [(64, " s~:finish,notify=3"), (1, " s65!")];
        return make_text(alloc, scan, &names);
    }
    let mut line = String::new(alloc);
    push_template(&mut line, template, serial)?;
    Ok(line)
}

// The tree takes the input of this line, with ample memory.
fn take(
    alloc: Global,
    tree: &mut Tree<Global>,
    line: &str,
    given: &mut GivenCounts,
) -> Result<(), Fail> {
    let input = parse_line(alloc, alloc, line.as_bytes())?;
    let effect = tree.apply(input).ok().ok_or("memory")?;
    given.add(&effect);
    Ok(())
}

// All 64 services are told this: how much that gives.
fn tell_all(alloc: Global, tree: &mut Tree<Global>, template: &str) -> Result<GivenCounts, Fail> {
    let mut given = GivenCounts {
        events: 0,
        orders: 0,
        matched: 0,
        released: 0,
    };
    for serial in 1..65u32 {
        let line = line_of(alloc, template, serial)?;
        take(alloc, tree, line.as_str(), &mut given)?;
    }
    Ok(given)
}

fn written(alloc: Global, given: GivenCounts) -> Result<String, Fail> {
    let GivenCounts {
        events,
        orders,
        matched,
        released,
    } = given;
    Ok(format!(in alloc; "{events} {orders} {matched} {released}")?)
}

fn check_round(
    rt: &impl Abort,
    alloc: Global,
    tree: &mut Tree<Global>,
    round: &str,
) -> Result<(), Fail> {
    let (template, wanted) = round.split_once(" > ").unwrap_or((round, ""));
    let given = tell_all(alloc, tree, template)?;
    let found = written(alloc, given)?;
    same(rt, template, found.as_bytes(), wanted.as_bytes());
    Ok(())
}

// The clock, the steps, the number of rows, and whether the services of two names have one.
fn shown(alloc: Global, tree: &Tree<Global>) -> Result<String, Fail> {
    let (now, steps, rows) = (tree.now().millis(), tree.steps(), tree.rows().len());
    let last = tree.row(Name::new(b"s64").ok_or("a name")?).is_some();
    let unread = tree.row(Name::new(b"s65").ok_or("a name")?).is_some();
    Ok(format!(in alloc; "{now} {steps} {rows} {last} {unread}")?)
}

// The last free directory's subscription, made after 64 others, has heard its letter.
fn has_heard(tree: &Tree<Global>) -> Option<bool> {
    let heard = tree.list(SubId(128))?;
    let letters = [Letter::new(b'b')?];
    Some(heard.letters == letters.as_slice() && heard.state == State::Done)
}

// A new tree takes the rounds, and stands so behind them.
fn take_rounds(rt: &impl Abort, alloc: Global, tree: &mut Tree<Global>) -> Result<(), Fail> {
    for round in ROUNDS.split('\n') {
        check_round(rt, alloc, tree, round)?;
    }
    let found = shown(alloc, tree)?;
    same(rt, "the tree", found.as_bytes(), b"1014 1600 64 true false");
    holds(rt, "the subscription", has_heard(tree) == Some(true));
    Ok(())
}

#[test]
fn every_act_succeeds_with_ample_memory(rt: HostRuntime) -> Result<(), Fail> {
    let mut tree = Box::new(rt.alloc(), Tree::new(rt.alloc()))?;
    take_rounds(&rt, rt.alloc(), &mut tree)
}

// Every act, to the first service or all: each makes something grow, but for the permafailon and
// the last two. One wait has more names than it may.
const LINES: &str = "0 1 scan s01:finish,notify=3 s02:finish,notify=3 s03:finish,notify=3
0 1 started 1 1 500
0 1 wait u a 0 s01
0 1 wait D a 4 s01
1 1 notify 1 1 6161610a
2 1 svc s01 tt
5 1 death 1 1 code 1
6 1 finished 1 1 code 0
6 1 wait u a 0 s01 s02 s03 s04 s05 s06 s07 s08 s09 s10 s11 s12 s13 s14 s15 s16 s17
6 1 cancel 1
6 1 tally s01
6 1 permafailon s01 1 1 1,SIGKILL
6 1 subscribe svc s01 repeat x
6 1 mkdir s01
6 1 subscribe dir s01 once b
6 1 send dir s01 aab
6 1 unsubscribe 1
1005 1 tick
1006 1 startfailed 1 2
1007 1 svc s01 x
1008 1 scan
1008 1 scanctl n
1008 1 scanctl t
1008 1 status s01
1008 1 tick";

// What a refused input may not change: of the input its moment, and the number of names that it
// waits for or of bytes of its pattern; of the tree the clock, the steps, the number of rows, where
// the first two waiters stand, and how many letters the second subscription has heard.
#[derive(PartialEq, Drop)]
struct Before {
    moment: u64,
    size: usize,
    now: u64,
    steps: u64,
    rows: usize,
    first: Option<WaitState>,
    second: Option<WaitState>,
    heard: Option<usize>,
}

fn size_of<A: Allocator + Copy>(input: &Input<A>) -> usize {
    match &input.act {
        Act::Wait(_, _, _, names) => names.names().len(),
        Act::Subscribe(_, pattern, _) => pattern.text().len(),
        _ => 0,
    }
}

fn seen_in<A: Allocator + Copy>(tree: &Tree<A>, input: &Input<A>) -> Before {
    Before {
        moment: input.at.millis(),
        size: size_of(input),
        now: tree.now().millis(),
        steps: tree.steps(),
        rows: tree.rows().len(),
        first: tree.result(WaitId(1)),
        second: tree.result(WaitId(2)),
        heard: tree.list(SubId(2)).map(|view| view.letters.len()),
    }
}

// The tree takes the input, at once or, where a growth was refused, once more without the filler;
// whether one was refused.
fn applies_at_last<A: Allocator + Copy>(
    tree: &mut Tree<A>,
    input: Input<A>,
    filler: Option<Vec<u8, A>>,
) -> Result<bool, Fail> {
    let before = seen_in(tree, &input);
    match tree.apply(input) {
        Ok(_) => Ok(false),
        Err((back, NoMemory)) => {
            drop(filler);
            if seen_in(tree, &back) != before {
                return Err("a refused step changes nothing".into());
            }
            tree.apply(back).ok().ok_or("memory")?;
            Ok(true)
        }
    }
}

// One line on a heap that has so many bytes left until a refusal gives it ample ones: whether there
// was one.
fn apply_line<'a>(
    heap: &'a LocalHeap,
    patterns: Global,
    tree: &mut Tree<&'a LocalHeap>,
    left: usize,
    line: &str,
) -> Result<bool, Fail> {
    let input = parse_line(heap, patterns, line.as_bytes())?;
    let free = 65_536usize.saturating_sub(heap.used());
    let filler = Vec::<u8, _>::with_capacity(heap, free.saturating_sub(left)).ok();
    applies_at_last(tree, input, filler)
}

// The lines on such a heap: how many refusals there were, and the steps.
fn apply_lines<'a>(
    heap: &'a LocalHeap,
    patterns: Global,
    tree: &mut Tree<&'a LocalHeap>,
    left: usize,
) -> Result<(u32, u64), Fail> {
    let mut refused = 0u32;
    for line in LINES.split('\n') {
        if apply_line(heap, patterns, tree, left, line)? {
            refused = refused.saturating_add(1);
        }
    }
    Ok((refused, tree.steps()))
}

// The same on a new tree.
fn apply_to_new_tree(heap: &LocalHeap, patterns: Global, left: usize) -> Result<(u32, u64), Fail> {
    let mut tree = Box::new(patterns, Tree::new(heap))?;
    apply_lines(heap, patterns, &mut tree, left)
}

fn apply_on_new_heap(alloc: Global, left: usize) -> Result<(u32, u64), Fail> {
    let heap = LocalHeap::new(alloc, 65_536)?;
    apply_to_new_tree(&heap, alloc, left)
}

#[test]
fn a_refused_step_hands_its_input_back_and_can_be_taken_again(rt: HostRuntime) -> Result<(), Fail> {
    let (mut refusals, mut without, mut all_steps) = (0u32, 0u32, 0u64);
    for step in 0..150usize {
        let (refused, steps) = apply_on_new_heap(rt.alloc(), 256 * step)?;
        refusals = refusals.saturating_add(refused);
        all_steps = all_steps.saturating_add(steps);
        if refused == 0 {
            without = without.saturating_add(1);
        }
    }
    assert!(&rt;
        refusals > 50 && without > 5 && all_steps == 3750,
        "{refusals} refusals, {without} runs with none, {all_steps} steps"
    );
    Ok(())
}
