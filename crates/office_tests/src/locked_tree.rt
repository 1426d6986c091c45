//! Two threads lock one tree, and each hands in all inputs of its actor.
use crate::acts::input_of;
use crate::parts::new_tree;
use crate::replaying::{is_same_reply, make_step};
use locked_services::new_effect;
use s6_events::{Actor, NoMemory};
use std::alloc::Global;
use std::process::Abort;
use std::sync::{Mutex, Wait};
use std::thread;
use std::thread::Threads;
use tree_core::{Effect, Input, Reply, Tree};

/// How many inputs each of the two actors hands in.
const INPUTS: u32 = 1_000;

/// What was noted while a thread held the lock: which step its input was, and what that was
/// answered.
#[derive(Drop)]
struct Note {
    step: u64,
    reply: Reply<Global>,
}

// A tree behind a lock.
fn new_locked(alloc: Global) -> Result<Box<Mutex<Tree<Global>>>, NoMemory> {
    Ok(Box::new(alloc, Mutex::new(Tree::new(alloc)))?)
}

// One input, under the lock.
fn step_one<R: Wait>(rt: &R, tree: &Mutex<Tree<Global>>, input: Input<Global>) -> Option<Note> {
    let mut guard = tree.lock(rt);
    let reply = guard.apply(input).ok()?.reply;
    let step = guard.steps();
    Some(Note { step, reply })
}

// The input of this number of an actor, under the lock. Its note is added.
fn step_numbered<R: Wait>(
    rt: &R,
    tree: &Mutex<Tree<Global>>,
    alloc: Global,
    number: u32,
    actor: Actor,
    notes: &mut Vec<Note>,
) -> Option<()> {
    let input = input_of(alloc, actor, number)?;
    let note = step_one(rt, tree, input)?;
    notes.push(note).ok()
}

// All inputs of an actor. Their notes are added.
fn step_each<R: Wait + Abort>(
    rt: &R,
    tree: &Mutex<Tree<Global>>,
    alloc: Global,
    actor: u8,
    notes: &mut Vec<Note>,
) {
    let actor = Actor::new(actor).expect(rt, "no actor");
    for number in 0..INPUTS {
        step_numbered(rt, tree, alloc, number, actor, notes).expect(rt, "a step was refused");
    }
}

// All inputs of an actor, and their notes.
fn step_all<R: Wait + Abort>(
    rt: &R,
    tree: &Mutex<Tree<Global>>,
    alloc: Global,
    actor: u8,
) -> Vec<Note> {
    let mut notes = Vec::new(alloc);
    step_each(rt, tree, alloc, actor, &mut notes);
    notes
}

// Each actor's inputs, in a thread of its own.
fn step_in_two_threads<R: Threads + Wait + Abort + Sync>(
    rt: &R,
    tree: &Mutex<Tree<Global>>,
    alloc: Global,
) -> (Vec<Note>, Vec<Note>) {
    thread::join(
        rt,
        move || step_all(rt, tree, alloc, 0),
        move || step_all(rt, tree, alloc, 1),
    )
}

// Whether the step is that of an actor's next input, and is answered as was noted. How many of them
// were replayed is counted.
fn replay_one(
    alloc: Global,
    tree: &mut Tree<Global>,
    effect: &mut Effect<Global>,
    notes: &[Note],
    actor: Option<Actor>,
    replayed: &mut u32,
    step: u64,
) -> bool {
    let number = *replayed;
    match (actor, notes.get(number as usize)) {
        (Some(actor), Some(note)) if note.step == step => {
            *replayed = number.saturating_add(1);
            make_step(alloc, tree, effect, actor, number)
                && is_same_reply(alloc, &effect.reply, &note.reply) == Some(true)
        }
        _ => false,
    }
}

// Whether each step is that of one of the two actors, and is answered as was noted.
fn replay_all(
    alloc: Global,
    tree: &mut Tree<Global>,
    effect: &mut Effect<Global>,
    first: &[Note],
    second: &[Note],
) -> bool {
    let (mut firsts, mut seconds) = (0, 0);
    let mut is_same = true;
    for step in 1..=2 * u64::from(INPUTS) {
        is_same = is_same
            && (replay_one(alloc, tree, effect, first, Actor::new(0), &mut firsts, step)
                || replay_one(
                    alloc,
                    tree,
                    effect,
                    second,
                    Actor::new(1),
                    &mut seconds,
                    step,
                ));
    }
    is_same
}

// There is a note of each input, and a single thread is answered the same.
fn look_at<R: Abort>(rt: &R, alloc: Global, first: &[Note], second: &[Note]) {
    assert_eq!(rt; (first.len(), second.len()), (1_000, 1_000));
    let mut tree = new_tree(alloc).ok().expect(rt, "no memory");
    let mut effect = new_effect(alloc).ok().expect(rt, "no memory");
    let is_replayed = replay_all(alloc, &mut tree, &mut effect, first, second);
    assert!(rt; is_replayed);
}

// Each input became a step.
fn look_at_steps<R: Wait + Abort>(rt: &R, tree: &Mutex<Tree<Global>>) {
    let steps = tree.lock(rt).steps();
    assert_eq!(rt; steps, 2_000);
}

#[test]
fn two_threads_make_one_run(rt: HostRuntime) {
    let alloc = rt.alloc();
    let tree = new_locked(alloc).ok().expect(&rt, "no memory");
    let notes = step_in_two_threads(&rt, &tree, alloc);
    look_at_steps(&rt, &tree);
    look_at(&rt, alloc, &notes.0, &notes.1);
}
