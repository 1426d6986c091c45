//! The parts of a run for which memory is taken before it begins.
ghost use Rattle.std.specs.Prelude.{◌≡◌, [], IfOk};

use run_records::Run;
use s6_events::NoMemory;
use std::alloc::Global;
use tree_core::{Effect, Image, Tree};

/// An effect that holds nothing. `NoMemory` where memory is refused. It is not inlined: else its
/// list of 768 orders would lie on the stack of whoever calls it, for as long as that call takes.
#[inline(never)]
pub fn new_effect(alloc: Global) -> Result<Box<Effect<Global>>, NoMemory> {
    Ok(Box::new(alloc, Effect::new(alloc))?)
}

/// What is made before a run begins: the image of its tree, a run with no step, and an effect that
/// each step fills anew.
#[derive(Drop)]
pub struct Beginning {
    pub opening: Image<Global>,
    pub run: Run,
    pub effect: Box<Effect<Global>>,
}

impl Beginning {
    /// What a run of this tree begins with. `NoMemory` where memory is refused.
    pub fn of(alloc: Global, tree: &Tree<Global>) -> Result<Beginning, NoMemory>
        ensures opening { IfOk result (λ b. b.opening ≡ tree.now) }
        ensures steps { IfOk result (λ b. b.run.steps ≡ []) }
    {
        Ok(Beginning {
            // What the tree stores now: contracts tell the run from there on.
            opening: tree.image()?,
            run: Run::new(alloc)?,
            effect: new_effect(alloc)?,
        })
    }
}
