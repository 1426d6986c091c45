//! The same inputs once more, in the order of the records, by one thread.
use crate::acts::input_of;
use crate::parts::new_tree;
use channel_names::Channels;
use inbox::Ticket;
use locked_services::new_effect;
use office::Office;
use order_lanes::{Backend, Lanes};
use run_history::KnownHistory;
use s6_events::Actor;
use s6_script::push_reply;
use status_board::Board;
use std::alloc::Global;
use std::sync::Wait;
use tree_core::{Effect, Reply, Tree};

/// Whether both replies are the same; None where there is no memory.
pub fn is_same_reply(alloc: Global, one: &Reply<Global>, other: &Reply<Global>) -> Option<bool> {
    let (mut first, mut second) = (Vec::new(alloc), Vec::new(alloc));
    push_reply(&mut first, one).ok()?;
    push_reply(&mut second, other).ok()?;
    Some(first.as_slice() == second.as_slice())
}

/// Makes the step of an actor's input of this number.
pub fn make_step(
    alloc: Global,
    tree: &mut Tree<Global>,
    effect: &mut Effect<Global>,
    actor: Actor,
    number: u32,
) -> bool {
    match input_of(alloc, actor, number) {
        Some(input) => tree.apply_into(input, effect).is_ok(),
        None => false,
    }
}

// How many inputs of this actor were counted before; this one is counted too.
fn count_one(numbers: &mut [u32], actor: Actor) -> Option<u32> {
    let count = numbers.get_mut(usize::from(actor.number()))?;
    let number = *count;
    *count = number.saturating_add(1);
    Some(number)
}

// Whether the reply that is recorded for a ticket is this one.
fn has_reply<C: Channels + Lanes, D: Board<C>, B: Backend, R: Wait>(
    rt: &R,
    alloc: Global,
    office: &Office<C, D, B>,
    known: &mut KnownHistory<C>,
    ticket: Ticket,
    reply: &Reply<Global>,
) -> Option<bool> {
    match office.reply(rt, known, ticket) {
        Ok(Some(recorded)) => is_same_reply(alloc, &recorded, reply),
        _ => None,
    }
}

// Whether the step of this number gives the reply of the records.
fn gives_same<C: Channels + Lanes, D: Board<C>, B: Backend, R: Wait>(
    rt: &R,
    alloc: Global,
    office: &Office<C, D, B>,
    known: &mut KnownHistory<C>,
    tree: &mut Tree<Global>,
    effect: &mut Effect<Global>,
    numbers: &mut [u32],
    step: u64,
) -> Option<bool> {
    let (actor, _) = office.step(rt, known, step, effect).ok()??;
    let number = count_one(numbers, actor)?;
    if !make_step(alloc, tree, effect, actor, number) {
        return None;
    }
    let number = u64::from(number) + 1;
    has_reply(
        rt,
        alloc,
        office,
        known,
        Ticket { actor, number },
        &effect.reply,
    )
}

// Whether each of so many steps gives the reply of the records.
fn gives_each<C: Channels + Lanes, D: Board<C>, B: Backend, R: Wait>(
    rt: &R,
    alloc: Global,
    office: &Office<C, D, B>,
    known: &mut KnownHistory<C>,
    tree: &mut Tree<Global>,
    effect: &mut Effect<Global>,
    steps: u64,
) -> Option<bool> {
    let mut numbers = [0u32; 16];
    let mut is_same = Some(true);
    for step in 0..steps {
        if is_same == Some(true) {
            is_same = gives_same(
                rt,
                alloc,
                office,
                known,
                tree,
                effect,
                &mut numbers,
                step + 1,
            );
        }
    }
    is_same
}

/// Whether a new tree that takes the inputs of so many steps, one after the other, gives the
/// replies of the records; None where there is no memory, and where a step is not there.
pub fn is_replayed<C: Channels + Lanes, D: Board<C>, B: Backend, R: Wait>(
    rt: &R,
    alloc: Global,
    office: &Office<C, D, B>,
    known: &mut KnownHistory<C>,
    steps: u64,
) -> Option<bool> {
    let mut tree = new_tree(alloc).ok()?;
    let mut effect = new_effect(alloc).ok()?;
    gives_each(rt, alloc, office, known, &mut tree, &mut effect, steps)
}
