//! Worked rows, input by input: one that is refused changes nothing, and is handed back.
use crate::attempts::{Attempts, Text};
use crate::office_steps::tell_rows;
use arrayvec::ArrayVec;
use s6_events::{NoMemory, SubId, WaitId};
use s6_replay::write_effect;
use s6_script::parse_line;
use std::alloc::Global;
use std::io::Write;
use supervise_core::Row;
use tree_core::{Effect, Input, SERVICE_LIMIT, Tree, WaitState};

/// The rows, each behind a line with its name.
const ROWS: &str = "# tally forgets the oldest
0 1 scan web:tally=3
0 1 started 1 1 5
100 1 death 1 1 code 1
1100 1 started 1 2 5
1200 1 death 1 2 code 1
2200 1 started 1 3 5
2300 1 death 1 3 code 1
3300 1 started 1 4 5
3400 1 death 1 4 code 1
4400 1 started 1 5 5
4500 1 death 1 5 code 1
4500 1 tally web
4500 1 permafailon web 60 4 1
4500 1 permafailon web 60 3 1-2
# all services must hold at one moment
0 1 scan a:notify=3 b:notify=3
0 1 started 1 1 7
0 1 started 2 1 8
0 1 wait U a 0 a b
10 1 notify 1 1 0a
20 1 death 1 1 code 0
30 1 notify 2 1 0a
1020 1 started 1 2 9
1030 1 notify 1 2 0a
# repeating pattern begins a new text
0 1 scan web
0 1 subscribe svc web repeat u.*u
0 1 started 1 1 5
10 1 death 1 1 code 0
1010 1 started 1 2 5
1020 1 death 1 2 code 0
2020 1 started 1 3 5
2030 1 death 1 3 code 0
3030 1 started 1 4 5
# ended supervisor fails a waiter and returns
0 1 scan web:finish
0 1 started 1 1 5
0 1 wait d a 0 web
10 1 svc web x
20 1 death 1 1 code 0
20 1 wait u a 0 web
30 1 finished 1 1 code 0
1029 1 tick
1030 1 tick
# scan beyond sixty four services
0 1 scan n01 n02 n03 n04 n05 n06 n07 n08 n09 n10 n11 n12 n13 n14 n15 n16 n17 n18 n19 n20 n21 n22 n23 n24 n25 n26 n27 n28 n29 n30 n31 n32 n33 n34 n35 n36 n37 n38 n39 n40 n41 n42 n43 n44 n45 n46 n47 n48 n49 n50 n51 n52 n53 n54 n55 n56 n57 n58 n59 n60 n61 n62 n63 n64 n65
# free directory and its refusals
0 1 mkdir q
0 1 subscribe dir q once b$
0 1 send dir q abc
0 1 send svc q u
0 1 mkdir q";

/// The most letters that the first subscription hears in a row.
const HEARD_LIMIT: usize = 64;

// What a refused input may not change: the clock, the steps, the rows, where the first two waiters
// stand, and what the first subscription has heard.
#[derive(PartialEq, Drop)]
struct ShownState {
    now: u64,
    steps: u64,
    rows: ArrayVec<Row, SERVICE_LIMIT>,
    first: Option<WaitState>,
    second: Option<WaitState>,
    heard: ArrayVec<u8, HEARD_LIMIT>,
}

fn state_of(tree: &Tree<Global>) -> ShownState {
    let mut heard = ArrayVec::new();
    if let Some(view) = tree.list(SubId(1)) {
        for letter in view.letters {
            let _ = heard.try_push(letter.byte());
        }
    }
    ShownState {
        now: tree.now().millis(),
        steps: tree.steps(),
        rows: tree.rows(),
        first: tree.result(WaitId(1)),
        second: tree.result(WaitId(2)),
        heard,
    }
}

// Tells what a tree shows at last.
fn tell_shown(alloc: Global, tree: &Tree<Global>, text: &mut Text) -> Result<(), NoMemory> {
    let shown = state_of(tree);
    let _ = writeln!(text, "at {}: {} steps", shown.now, shown.steps);
    tell_rows(alloc, shown.rows.as_slice(), text)?;
    let _ = writeln!(text, "waiters {:?}, {:?}", shown.first, shown.second);
    let _ = text.try_extend_from_slice(b"heard ");
    let _ = text.try_extend_from_slice(shown.heard.as_slice());
    let _ = text.try_push(b'\n');
    Ok(())
}

/// Plays each row on a tree of its own, and prints what each input gave.
pub fn play_all(alloc: Global, attempts: &mut Attempts) {
    for row in ROWS.split("# ") {
        if let Some((name, lines)) = row.split_once('\n') {
            attempts.begin(name);
            if play(alloc, lines, attempts).is_none() {
                attempts.add(b"not played\n");
            }
        }
    }
}

// Plays a row; None where something was refused twice.
fn play(alloc: Global, lines: &str, attempts: &mut Attempts) -> Option<()> {
    let mut tree = new_tree(alloc, attempts)?;
    for line in lines.split('\n') {
        if !line.is_empty() {
            let input = input_of(alloc, line, attempts)?;
            let effect = apply(&mut tree, input, attempts)?;
            let number = tree.steps();
            attempts.again(|text| match write_effect(alloc, number, &effect, text) {
                Ok(()) => Ok(()),
                Err(_) => Err(NoMemory),
            });
        }
    }
    attempts.again(|text| tell_shown(alloc, &tree, text));
    Some(())
}

fn new_tree(alloc: Global, attempts: &mut Attempts) -> Option<Box<Tree<Global>>> {
    match Box::new(alloc, Tree::new(alloc)) {
        Ok(tree) => Some(tree),
        Err(_) => {
            attempts.refuse();
            Box::new(alloc, Tree::new(alloc)).ok()
        }
    }
}

fn input_of(alloc: Global, line: &str, attempts: &mut Attempts) -> Option<Input<Global>> {
    match parse_line(alloc, alloc, line.as_bytes()) {
        Ok(input) => Some(input),
        Err(_) => {
            attempts.refuse();
            parse_line(alloc, alloc, line.as_bytes()).ok()
        }
    }
}

// The tree takes the input, at once or when it is handed in again.
fn apply(
    tree: &mut Tree<Global>,
    input: Input<Global>,
    attempts: &mut Attempts,
) -> Option<Effect<Global>> {
    let before = state_of(tree);
    match tree.apply(input) {
        Ok(effect) => Some(effect),
        Err((back, NoMemory)) => {
            attempts.refuse();
            if state_of(tree) != before {
                attempts.add(b"another state\n");
            }
            tree.apply(back).ok()
        }
    }
}
