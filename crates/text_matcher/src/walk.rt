//! How a search for a match walks through an automaton, over a text that comes letter by letter: in
//! which states it stands behind each letter.
ghost use Rattle.std.specs.Prelude.{◌≡◌, ◌++◌, ℕ, ◌+◌, ◌<◌, ◌≤◌, ◌⊎◌, Contains, Some, true, false, length, slice_index, vec_len};
ghost use Rattle.regex_nfa.specs.Paths.{EmptyEdge};
ghost use Rattle.regex_nfa.specs.Run.{state_of};
ghost use Rattle.regex_nfa.specs.States.{next_on};
ghost use Rattle.regex_hir.specs.declared.look.Look.{Look};
ghost use Rattle.regex_nfa.specs.declared.state.State.TheVariants as state;
ghost use Rattle.regex_nfa.specs.declared.state.State.TheVariants.{Match};
ghost use Rattle.text_matcher.specs.StateLists.{Grows};
ghost use Rattle.text_matcher.specs.Walks.{AllStand, HasMatchState, HasNoAssertion, HasWalked, HasStood};

use crate::state_list::StateList;
use regex_nfa::{Nfa, State, StateId, holds};

// Adds to `reached` the states to which edges that read no byte lead from this one. `at` is the
// place in the text, which assertions such as `^` look at. Returns whether this state is one that
// says that there is a match.
#[inline(always)]
fn follow(nfa: &Nfa, bytes: &[u8], at: usize, state: StateId, reached: &mut StateList) -> bool
    requires state { state < vec_len nfa.now.states }
    requires count { reached.old.count ≡ vec_len nfa.now.states }
    ensures count { reached.new.count ≡ reached.old.count }
    ensures grows { Grows reached.old.items reached.new.items }
    ensures all { (r : ℕ) → EmptyEdge nfa.now bytes.now at state r
        → Contains reached.new.items r }
    ensures only { (r : ℕ) → Contains reached.new.items r
        → Contains reached.old.items r ⊎ EmptyEdge nfa.now bytes.now at state r }
    ensures yes { result ≡ true → state_of nfa.now state ≡ Match }
    ensures no { result ≡ false → state_of nfa.now state ≡ Match → ⊥ }
{
    match nfa.state(state) {
        State::Match => return true,
        State::Split { first, second } => {
            reached.add(first);
            reached.add(second);
        }
        // It would note where a group begins or ends: here only that there is a match counts.
        State::Save { next, .. } => reached.add(next),
        State::Look { look, next } => {
            if holds(look, bytes, at) {
                reached.add(next);
            }
        }
        // The other states read a byte, or lead nowhere.
        _ => {}
    }
    false
}

// Adds to `reached`, one after the other, all states to which edges that read no byte lead from
// those in it, at place `at`. Returns whether a match ended before (`has_matched`), or one of all
// these states says that there is one. States that are added are followed in turn.
fn close(nfa: &Nfa, bytes: &[u8], at: usize, reached: &mut StateList, has_matched: bool) -> bool
    requires count { reached.old.count ≡ vec_len nfa.now.states }
    ensures count { reached.new.count ≡ reached.old.count }
    ensures grows { Grows reached.old.items reached.new.items }
    ensures closed { (q r : ℕ) → Contains reached.new.items q
        → EmptyEdge nfa.now bytes.now at q r → Contains reached.new.items r }
    ensures only { AllStand nfa.now bytes.now at reached.old.items
        → AllStand nfa.now bytes.now at reached.new.items }
    ensures found { result ≡ true
        → (has_matched ≡ true) ⊎ HasMatchState nfa.now reached.new.items }
    ensures none { result ≡ false
        → (has_matched ≡ false) × (HasMatchState nfa.now reached.new.items → ⊥) }
{
    let mut is_found = has_matched;
    let mut place = 0;
    while place < reached.len() {
        let state = reached.get(place);
        if follow(nfa, bytes, at, state, reached) {
            is_found = true;
        }
        place += 1;
    }
    is_found
}

// Fills `beside` with the states to which edges that read no byte lead from `states`, at place
// `at`: only those one edge away. Returns whether a match ended before (`has_matched`), or one of
// `states` says that there is one.
fn follow_all(
    nfa: &Nfa,
    bytes: &[u8],
    at: usize,
    states: &StateList,
    beside: &mut StateList,
    has_matched: bool,
) -> bool
    requires states { states.now.count ≡ vec_len nfa.now.states }
    requires beside { beside.old.count ≡ vec_len nfa.now.states }
    ensures count { beside.new.count ≡ beside.old.count }
    ensures all { (q r : ℕ) → Contains states.now.items q
        → EmptyEdge nfa.now bytes.now at q r → Contains beside.new.items r }
    ensures only { AllStand nfa.now bytes.now at states.now.items
        → AllStand nfa.now bytes.now at beside.new.items }
    ensures found { result ≡ true
        → (has_matched ≡ true) ⊎ HasMatchState nfa.now states.now.items }
    ensures none { result ≡ false
        → (has_matched ≡ false) × (HasMatchState nfa.now states.now.items → ⊥) }
{
    let mut is_found = has_matched;
    beside.clear();
    for place in 0..states.len() {
        if follow(nfa, bytes, at, states.get(place), beside) {
            is_found = true;
        }
    }
    is_found
}

/// Fills `beside` with the other states in which a search stands at place `at`, where it comes
/// there in those of `behind`: all to which edges lead that read no byte. `follow_all` goes one
/// edge from `behind`, `close` goes on from there. Returns whether a match ended there or before.
pub fn stand_beside(
    nfa: &Nfa,
    bytes: &[u8],
    at: usize,
    behind: &StateList,
    beside: &mut StateList,
    has_matched: bool,
) -> bool
    requires behind { behind.now.count ≡ vec_len nfa.now.states }
    requires beside { beside.old.count ≡ vec_len nfa.now.states }
    requires walked { HasWalked nfa.now bytes.now at behind.now.items has_matched }
    ensures count { beside.new.count ≡ beside.old.count }
    ensures stood { HasStood nfa.now bytes.now at (behind.now.items ++ beside.new.items) result }
{
    let is_found = follow_all(nfa, bytes, at, behind, beside, has_matched);
    close(nfa, bytes, at, beside, is_found)
}

/// Adds to `states`, in which a search comes to place `at`, all others to which edges that read no
/// byte lead from there; where `is_standing`, they are in it already. Returns whether a match ended
/// there or before (`has_matched`).
pub fn stand_once(
    nfa: &Nfa,
    bytes: &[u8],
    at: usize,
    states: &mut StateList,
    is_standing: bool,
    has_matched: bool,
) -> bool
    requires count { states.old.count ≡ vec_len nfa.now.states }
    requires walked { is_standing ≡ false
        → HasWalked nfa.now bytes.now at states.old.items has_matched }
    requires stood { is_standing ≡ true
        → HasStood nfa.now bytes.now at states.old.items has_matched }
    ensures count { states.new.count ≡ states.old.count }
    ensures stood { HasStood nfa.now bytes.now at states.new.items result }
{
    if is_standing {
        has_matched
    } else {
        close(nfa, bytes, at, states, has_matched)
    }
}

/// Whether a state of the automaton is an assertion, which looks at both sides of a place.
pub fn has_assertion(nfa: &Nfa) -> bool
    ensures yes { result ≡ true
        → (q : ℕ) × (l : Look) × (r : ℕ) × (state_of nfa.now q ≡ state.Look l r) }
    ensures no { result ≡ false → HasNoAssertion nfa.now }
{
    for place in 0..nfa.states.len() {
        if let State::Look { .. } = nfa.states[place] {
            return true;
        }
    }
    false
}

// Adds to `behind` the state to which this byte leads from this one, if any.
fn read_from(nfa: &Nfa, byte: u8, state: StateId, behind: &mut StateList)
    requires state { state < vec_len nfa.now.states }
    requires count { behind.old.count ≡ vec_len nfa.now.states }
    ensures count { behind.new.count ≡ behind.old.count }
    ensures grows { Grows behind.old.items behind.new.items }
    ensures all { (r : ℕ) → next_on nfa.now.transitions.items (state_of nfa.now state) byte ≡ Some r
        → Contains behind.new.items r }
    ensures only { (r : ℕ) → Contains behind.new.items r → Contains behind.old.items r
        ⊎ (next_on nfa.now.transitions.items (state_of nfa.now state) byte ≡ Some r) }
{
    if let Some(next) = nfa.next_on(nfa.state(state), byte) {
        behind.add(next);
    }
}

/// Fills `behind` with the states to which this byte leads from those of `reached`: in these the
/// search comes to the place behind the byte.
pub fn read_over(nfa: &Nfa, byte: u8, reached: &StateList, behind: &mut StateList)
    requires reached { reached.now.count ≡ vec_len nfa.now.states }
    requires behind { behind.old.count ≡ vec_len nfa.now.states }
    ensures count { behind.new.count ≡ behind.old.count }
    ensures all { (q r : ℕ) → Contains reached.now.items q
        → next_on nfa.now.transitions.items (state_of nfa.now q) byte ≡ Some r
        → Contains behind.new.items r }
    ensures only { (r : ℕ) → Contains behind.new.items r → (q : ℕ) × Contains reached.now.items q
        × (next_on nfa.now.transitions.items (state_of nfa.now q) byte ≡ Some r) }
{
    behind.clear();
    for place in 0..reached.len() {
        read_from(nfa, byte, reached.get(place), behind);
    }
}
