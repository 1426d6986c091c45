//! Calls for whoever embeds a tree: no program of this repository makes them.
ghost use Rattle.std.specs.Prelude.{◌≡◌, IfOk, IfErr, IsOk, option_map};
ghost use Rattle.tree_core.specs.Effect.{outcome_of};
ghost use Rattle.event_directory.specs.Directories.{list_named};
ghost use Rattle.event_directory.specs.Pattern.{finds};
ghost use Rattle.wait_conditions.specs.Watch.{state_named};
ghost use Rattle.tree_core.specs.Machine.{directories_of, watch_of, Machine};
ghost use Rattle.tree_core.specs.Plan.{IsQuiet};
ghost use Rattle.svscan_core.specs.Table.{charts_of};
ghost use Rattle.tree_core.specs.StandsFor.{StandsFor};
ghost use Rattle.tree_core.specs.Run.{after, outcome};
ghost use Rattle.tree_core.specs.Step.{step_limit};

use super::effect::Effect;
use super::input::Input;
use super::tree::Tree;
use event_directory::SubView;
use s6_events::{NoMemory, SubId, WaitId};
use std::alloc::Allocator;
use wait_conditions::WaitState;

impl<A: Allocator + Copy> Tree<A> {
    /// Takes one input as `apply_into` does, and returns a new effect. A refused act is a step like
    /// any other. Where memory is refused the same input comes back with `NoMemory`, and nothing
    /// has changed at all. That never comes from a spent tree, nor for a tick, a status or a
    /// permafailon at a moment that isn't later than the clock, while no timer is due.
    pub fn apply(&mut self, input: Input<A>) -> Result<Effect<A>, (Input<A>, NoMemory)>
        ensures step { IfOk result (λ effect. (m : Machine) → StandsFor self.old m →
            (outcome_of effect ≡ outcome m input) × StandsFor self.new (after m input)) }
        ensures unchanged { IfErr result (λ back. (back.0 ≡ input) × (self.new ≡ self.old)) }
        ensures spent { self.old.steps ≡ step_limit → IsOk result }
        ensures quiet { IsQuiet input self.old.clock (charts_of self.old.services) → IsOk result }
    {
        let mut effect = Effect::new(self.registry.allocator());
        self.apply_into(input, &mut effect)?;
        Ok(effect)
    }

    /// The state of the waiter of this serial; None where there is none. Page `s6-svwait`.
    pub fn result(&self, id: WaitId) -> Option<WaitState>
        ensures { (m : Machine) → StandsFor self.now m → result ≡ state_named (watch_of m) id }
    {
        self.waits.result(id)
    }

    /// What the subscription of this serial has heard, or None where there is none. Page
    /// `s6-ftrig-listen1`.
    pub fn list(&self, id: SubId) -> Option<SubView<'_>>
        ensures { (m : Machine) → StandsFor self.now m
            → option_map (λ v. (v.letters.now, v.state)) result
            ≡ list_named finds id (directories_of m) }
    {
        self.directories.list(id)
    }
}
