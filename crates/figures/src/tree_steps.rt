//! Steps of a tree alone.
use crate::fault::Fault;
use crate::rounds::{ROUND, end_of, input_of, scan_of};
use crate::words::Load;
use locked_services::new_effect;
use s6_events::{Actor, NoMemory};
use std::alloc::Global;
use tree_core::{Effect, Input, Tree};

/// A tree that has made no step.
pub fn new_tree(alloc: Global) -> Result<Box<Tree<Global>>, NoMemory> {
    Ok(Box::new(alloc, Tree::new(alloc))?)
}

/// A tree alone takes the scan and then all acts.
pub fn apply_all(alloc: Global, load: Load) -> Result<(), Fault> {
    let scan = scan_of(alloc, load)?;
    let mut tree = new_tree(alloc)?;
    let mut effect = new_effect(alloc)?;
    apply_rounds(&mut tree, &mut effect, scan, load)
}

// Has the tree take the scan, and then round after round of acts.
fn apply_rounds(
    tree: &mut Tree<Global>,
    effect: &mut Effect<Global>,
    scan: Input<Global>,
    load: Load,
) -> Result<(), Fault> {
    apply(tree, effect, scan)?;
    for first in (0..load.count).step_by(ROUND as usize) {
        apply_round(tree, effect, load, first)?;
    }
    Ok(())
}

// Has the tree take the acts of the round that begins with act number `first`, seat by seat.
fn apply_round(
    tree: &mut Tree<Global>,
    effect: &mut Effect<Global>,
    load: Load,
    first: u32,
) -> Result<(), Fault> {
    for seat in 0..load.seats {
        apply_turn(tree, effect, load, seat, first)?;
    }
    Ok(())
}

// Has the tree take the acts of a seat in the round that begins with act number `first`.
fn apply_turn(
    tree: &mut Tree<Global>,
    effect: &mut Effect<Global>,
    load: Load,
    seat: u8,
    first: u32,
) -> Result<(), Fault> {
    let actor = Actor::new(seat).unwrap_or_default();
    for number in first..end_of(load, first) {
        apply(tree, effect, input_of(load, actor, number))?;
    }
    Ok(())
}

// Takes an input.
fn apply(
    tree: &mut Tree<Global>,
    effect: &mut Effect<Global>,
    input: Input<Global>,
) -> Result<(), Fault> {
    match tree.apply_into(input, effect) {
        Ok(()) => Ok(()),
        Err((_, refused)) => Err(Fault::NoMemory(refused)),
    }
}
