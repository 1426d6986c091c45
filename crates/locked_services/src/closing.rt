//! The end of a run: whether it can be closed, by what its seats left when they were finished
//! (`inbox::Finished`).
ghost use Rattle.std.specs.Prelude.{◌≡◌, ◌<◌, ◌⊎◌, ℕ, length, Some, true, false, IfNone, IfSome, IsSome};
ghost use Rattle.locked_services.specs.Submissions.{AreNumbered, taken_from};
ghost use Rattle.locked_services.specs.Closing.{AreComplete, AreKnown, AreSameDrains, AreTaken, AreTold, IsInputLeft, finishes_of};
ghost use Rattle.locked_services.specs.declared.closing.CloseFault.TheVariants.{Missing, Left};

use channel_names::Channels;
use inbox::{Drain, Finished};
use run_records::Run;
use std::alloc::Global;
use tree_core::Tree;

/// Why a run was not closed.
#[derive(Clone, Copy, PartialEq, Eq, Debug)]
pub enum CloseFault {
    /// There isn't just one finish for each seat, or a seat's ring told nothing of the seat's end.
    /// This is looked for first.
    Missing = 1,
    /// An input or an order is still to be done, or the desks aren't just those of the lanes.
    Left = 2,
}

/// What a run leaves: its tree, how many steps it made, these steps, and the backends of its lanes,
/// in the order of the lanes' numbers. To drop a long run takes milliseconds, so another thread may
/// do it.
#[derive(Drop)]
pub struct Closed<B: Drop> {
    pub tree: Box<Tree<Global>>,
    pub steps: u64,
    pub run: Run,
    pub backends: Vec<B>,
}

// How many of the finishes are those of this actor's seat.
fn count_finishes<C: Channels>(finishes: &Vec<Finished<C>>, actor: usize) -> usize
    ensures { result ≡ finishes_of actor finishes.now.items }
{
    let mut count = 0;
    for k in 0..finishes.len() {
        if usize::from(finishes[k].actor().number()) == actor {
            count += 1;
        }
    }
    count
}

// Whether each finish is of a seat with a number below `seats`.
fn are_known<C: Channels>(finishes: &Vec<Finished<C>>, seats: usize) -> bool
    ensures yes { result ≡ true → AreKnown seats finishes.now.items }
    ensures no { result ≡ false → AreKnown seats finishes.now.items → ⊥ }
{
    for k in 0..finishes.len() {
        if usize::from(finishes[k].actor().number()) >= seats {
            return false;
        }
    }
    true
}

// Whether each of so many seats has ended, once, and no other one has. What is left of a seat at
// its end is its finish.
fn has_one_each<C: Channels>(finishes: &Vec<Finished<C>>, seats: usize) -> bool
    ensures known { result ≡ true → AreKnown seats finishes.now.items }
    ensures one { result ≡ true → (actor : ℕ) → actor < seats
        → finishes_of actor finishes.now.items ≡ 1 }
    ensures no { result ≡ false → AreKnown seats finishes.now.items
        → ((actor : ℕ) → actor < seats → finishes_of actor finishes.now.items ≡ 1) → ⊥ }
{
    if !are_known(finishes, seats) {
        return false;
    }
    for actor in 0..seats {
        if count_finishes(finishes, actor) != 1 {
            return false;
        }
    }
    true
}

// Whether all that this seat submitted was taken; None where its ring told nothing of the seat's
// end.
fn is_drained<C: Channels>(drains: &mut Vec<Drain<C>>, finished: &mut Finished<C>) -> Option<bool>
    requires numbered { AreNumbered drains.old.items }
    requires known { finished.old.actor < length drains.old.items }
    ensures same { AreSameDrains drains.old.items drains.new.items }
    ensures finished { finished.new ≡ finished.old }
    ensures yes { result ≡ Some true → finished.old.submitted
        ≡ Some (taken_from finished.old.actor drains.old.items) }
    ensures left { result ≡ Some false → finished.old.submitted
        ≡ Some (taken_from finished.old.actor drains.old.items) → ⊥ }
    ensures none { IfNone result (finished.old.submitted ≡ None) }
    ensures told { IfSome result (λ _. IsSome finished.old.submitted) }
{
    let drain = &mut drains[usize::from(finished.actor().number())];
    drain.is_drained(finished)
}

// Whether both are true; `are_drained` asks it of the seats that it looked at before, and of the
// next one.
fn both(one: bool, other: bool) -> bool
    ensures yes { result ≡ true → (one ≡ true) × (other ≡ true) }
    ensures no { result ≡ false → (one ≡ false) ⊎ (other ≡ false) }
{
    one && other
}

// Whether all that these seats submitted was taken; None where a ring told nothing of its seat's
// end.
fn are_drained<C: Channels>(
    drains: &mut Vec<Drain<C>>,
    finishes: &mut Vec<Finished<C>>,
) -> Option<bool>
    requires numbered { AreNumbered drains.old.items }
    requires known { AreKnown (length drains.old.items) finishes.old.items }
    ensures same { AreSameDrains drains.old.items drains.new.items }
    ensures finishes { finishes.new.items ≡ finishes.old.items }
    ensures yes { result ≡ Some true → AreTaken drains.old.items finishes.old.items }
    ensures left { result ≡ Some false → IsInputLeft drains.old.items finishes.old.items }
    ensures told { IfSome result (λ _. AreTold finishes.old.items) }
    ensures none { IfNone result (AreTold finishes.old.items → ⊥) }
{
    let mut all = true;
    for k in 0..finishes.len() {
        let finished = &mut finishes[k];
        match is_drained(drains, finished) {
            Some(drained) => all = both(all, drained),
            None => return None,
        }
    }
    Some(all)
}

/// Why a run with these rings can't be closed with these finishes, by its inputs alone. `Missing`:
/// there isn't just one finish for each ring, or a ring told nothing of its seat's end. `Left`: an
/// input is still in a ring, or one is held. None where neither is so.
pub fn input_fault<C: Channels>(
    drains: &mut Vec<Drain<C>>,
    finishes: &mut Vec<Finished<C>>,
    is_held: bool,
) -> Option<CloseFault>
    requires { AreNumbered drains.old.items }
    ensures same { AreSameDrains drains.old.items drains.new.items }
    ensures finishes { finishes.new.items ≡ finishes.old.items }
    ensures missing { result ≡ Some Missing
        → AreComplete (length drains.old.items) finishes.old.items → ⊥ }
    ensures left { result ≡ Some Left → AreComplete (length drains.old.items) finishes.old.items
        × ((is_held ≡ true) ⊎ IsInputLeft drains.old.items finishes.old.items) }
    ensures complete { IfNone result
        (AreComplete (length drains.old.items) finishes.old.items) }
    ensures taken { IfNone result (AreTaken drains.old.items finishes.old.items) }
    ensures free { IfNone result (is_held ≡ false) }
{
    if !has_one_each(finishes, drains.len()) {
        return Some(CloseFault::Missing);
    }
    match are_drained(drains, finishes) {
        // A ring told nothing of its seat's end.
        None => return Some(CloseFault::Missing),
        Some(false) => return Some(CloseFault::Left),
        Some(true) => {}
    }
    // An input that was taken from a ring, and whose step was not made.
    if is_held {
        return Some(CloseFault::Left);
    }
    None
}
