//! Lists of states of an automaton, each state once: a search for a match stands in several states
//! at a time.
ghost use Rattle.std.specs.Prelude.{◌≡◌, ◌++◌, ◌∷◌, ◌⊎◌, [], ◌<◌, ◌≤◌, Contains, IfOk, length, slice_index};

use regex_nfa::StateId;
use regex_vm::StateSet;
use std::alloc::{AllocError, Global};
use std::marker::Model;

/// States of an automaton, each once, in the order in which they were added.
#[derive(Drop)]
pub struct StateList {
    // The states that are listed, in their order.
    states: Vec<StateId>,
    // The same states as a set, by which `add` tells whether one is listed.
    marks: StateSet,
}

impl Model for StateList {
    ghost use Rattle.text_matcher.specs.StateLists.{StatesListed, states_listed, IsStateList};

    ghost Value = { StatesListed };

    ghost view = { states_listed };

    ghost invariant = { IsStateList };
}

impl StateList {
    /// A list without states, with room for `count` ones: `states` has them in the order in which
    /// they were added, `marks` as a set.
    pub fn new(alloc: Global, count: usize) -> Result<StateList, AllocError>
        ensures { IfOk result (λ l. l ≡ record { items = []; count = count }) }
    {
        let states = Vec::with_capacity(alloc, count)?;
        let marks = StateSet::new(alloc, count)?;
        Ok(StateList { states, marks })
    }

    /// Empties it.
    pub fn clear(&mut self)
        ensures { self.new ≡ record self.old { items = [] } }
    {
        self.states.clear();
        self.marks.clear();
    }

    /// How many states are listed.
    pub fn len(&self) -> usize
        ensures len { result ≡ length self.now.items }
        ensures within { result ≤ self.now.count }
    {
        self.states.len()
    }

    /// The state at this place.
    pub fn get(&self, place: usize) -> StateId
        requires { place < length self.now.items }
        ensures item { result ≡ slice_index self.now.items place }
        ensures within { result < self.now.count }
    {
        self.states[place]
    }

    /// Adds a state, unless it is listed.
    pub fn add(&mut self, state: StateId)
        requires { state < self.old.count }
        ensures count { self.new.count ≡ self.old.count }
        ensures listed { Contains self.new.items state }
        ensures items { (self.new.items ≡ self.old.items)
            ⊎ (self.new.items ≡ self.old.items ++ state ∷ []) }
    {
        // False where the state is in the set already. The room for all states was made by `new`.
        if self.marks.insert(state) {
            self.states.push_reserved(state);
        }
    }
}
