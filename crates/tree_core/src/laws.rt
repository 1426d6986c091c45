//! Laws of the written machine. Each is the contract of a function that does nothing, so that its
//! statement is proved; that statement is in the file of `specs/` that the contract cites. The code
//! that keeps them: `restart.rt` of finish_core for the pause before a run; and, in supervise_core,
//! `reports.rt` for no run after a permanent failure, `moves.rt` for marks and generations,
//! `control.rt` for signals.
ghost use Rattle.std.specs.Prelude.{List, ℕ};
ghost use Rattle.svscan_core.specs.Listing.{in_byte_order};
ghost use Rattle.tree_core.specs.ByteOrder.{IsInByteOrder};
ghost use Rattle.tree_core.specs.Closing.{StaysClosed};
ghost use Rattle.tree_core.specs.HistoryGrows.{GrowsHistory};
ghost use Rattle.tree_core.specs.Letters.{FollowsGrammar};
ghost use Rattle.tree_core.specs.Machine.{Machine};
ghost use Rattle.tree_core.specs.OneLife.{HasOneLife};
ghost use Rattle.tree_core.specs.Pause.{PausesAfterDeath};
ghost use Rattle.tree_core.specs.Permanent.{RestsAfterFailure};
ghost use Rattle.tree_core.specs.Signals.{SignalsWhatIsThere};
ghost use Rattle.tree_core.specs.Sleep.{SleepsUntilDue};
ghost use Rattle.tree_core.specs.declared.input.Input.{Input};

use std::alloc::Allocator;

/// A scan takes the names of its listing in the order of their bytes: they rise, and a name is
/// among them just where it is in the listing.
pub fn byte_order()
    ensures { (listing : List (List ℕ)) → IsInByteOrder listing (in_byte_order listing) }
{}

/// After a step the history is the one before, then the clock reading, where the input's moment is
/// later than the clock, and then the marks that the step gives. A spent tree adds nothing.
pub fn history<A: Allocator>()
    ensures { (m : Machine) → (input : Input A) → GrowsHistory m input }
{}

/// After a step in which a terminate was done, no later step starts a run, whatever the inputs are.
/// Page `s6-svscanctl`, `-t`.
pub fn closing<A: Allocator>()
    ensures { (m : Machine) → (input : Input A) → (later : List (Input A))
        → StaysClosed m input later }
{}

/// In each run from the start the letters of each service are the beginning of a word of the event
/// grammar.
pub fn letters<A: Allocator>()
    ensures { (inputs : List (Input A)) → (sid : ℕ) → FollowsGrammar inputs sid }
{}

/// In each run from the start the runs of a service have the generations 1, 2, 3 and so on. Each
/// but the first comes only once it was reported, in that step or before, that the one before it
/// died or could not be started.
pub fn one_life<A: Allocator>()
    ensures { (inputs : List (Input A)) → (input : Input A) → (sid : ℕ)
        → HasOneLife inputs input sid }
{}

/// In each run from the start a signal goes to a run whose start was reported in that step or
/// before, and whose death was not reported before that step.
pub fn signals<A: Allocator>()
    ensures { (inputs : List (Input A)) → (input : Input A) → (sid : ℕ)
        → SignalsWhatIsThere inputs input sid }
{}

/// In each run from the start, after a permanent failure of a service no step starts a run of it,
/// up to a step that tells it a letter u or has an s of it.
pub fn permanent<A: Allocator>()
    ensures { (inputs : List (Input A)) → (input : Input A) → (sid : ℕ)
        → RestsAfterFailure inputs input sid }
{}

/// In each run from the start, where a service has died, a step that starts a run of it and tells
/// it no letter u comes at least a second after its last death, unless it had been ready for more
/// than a second when it died.
pub fn pause<A: Allocator>()
    ensures { (inputs : List (Input A)) → (input : Input A) → (sid : ℕ)
        → PausesAfterDeath inputs input sid }
{}

/// A tick after which the clock is still before the next moment at which something is due gives no
/// event, no order, no match and no release. It changes nothing but the clock, its readings and the
/// number of steps. So who sleeps until that moment misses nothing.
pub fn sleep<A: Allocator>()
    ensures { (m : Machine) → (input : Input A) → SleepsUntilDue m input }
{}
