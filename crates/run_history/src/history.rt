//! For proofs alone: the history of a run, which is all inputs that were done. A `Pass` stands for
//! "I know that these were done". It has no bytes.
ghost use Rattle.std.specs.Prelude.{◌≡◌, []};
ghost use mathlib.Core.List.{IsPrefix};
ghost use Rattle.crossbeam_utils.specs.Seq.{cell_view};
ghost use Rattle.run_history.specs.Views.{knower};

use atomic_table::{Join, Split};
use crossbeam_utils::atomic::seq_cell::{Pass, RuledSeqCell};
use crossbeam_utils::rule::{Outcome, Protocol};
use order_lanes::Lanes;
use std::alloc::{AllocError, Global};
use std::collections::LinkedList;
use std::marker::{Brand, Model, PhantomData};
use std::mem;
use std::sync::Wait;
use tree_core::Input;

/// A type of this trait names a list of inputs, all that a run has done after some more were done.
pub trait Whole {
    ghost use Rattle.std.specs.Prelude.{List};
    ghost use Rattle.std.specs.declared.alloc.Global.{Global};
    ghost use Rattle.tree_core.specs.declared.input.Input.{Input};

    ghost whole: { List (Input Global) };
}

// The list before a run has done anything: no input. A call that adds inputs names the longer list
// in place of this one.
impl Whole for Brand {
    ghost use Rattle.std.specs.Prelude.{[]};

    ghost whole = { [] };
}

/// What a pass tells its holder of the history: the pass of the whole history tells all inputs,
/// that of a `KnownHistory` a beginning of them. No value of this type is made.
pub struct View {
    /// Whether this is the one pass that knows all inputs.
    pub keeps: bool,
    /// All inputs, if it does.
    pub all: LinkedList<Input<Global>>,
    /// What the pass of a known history says was done: a beginning of all inputs.
    pub claim: LinkedList<Input<Global>>,
}

/// The rule that the passes of a history keep, in proofs: at most one knows all inputs, and what
/// each other one claims is a beginning of these.
pub struct Growing;

impl Protocol<[u64; 1], View> for Growing {
    ghost use Rattle.std.specs.Prelude.{[]};
    ghost use Rattle.run_history.specs.Views.{knower, Kept};

    ghost holds = { Kept };

    ghost first = { knower [] };
}

/// The write to the cell that adds inputs, after which all inputs are those that `N` names.
pub struct Extends<N: Whole> {
    // Only its type says which inputs these are.
    of: PhantomData<N>,
}

// What the pass knows after this write: all inputs, those that `N` names. What it claims is as
// before.
impl<N: Whole> Outcome<[u64; 1], View> for Extends<N> {
    ghost use Rattle.run_history.specs.Views.{Extended};

    ghost then = { Extended N.whole };
}

/// The read of the cell by which a claim is compared with all inputs.
pub struct Checks;

// What this read tells: the claim was a beginning of all inputs. Afterwards the pass knows all
// inputs, and claims none.
impl Outcome<[u64; 1], View> for Checks {
    ghost use Rattle.run_history.specs.Views.{Checked};

    ghost then = { Checked };
}

/// How a pass that claims all inputs so far is split from the one that knows them, and how such a
/// claim is handed back to it.
pub struct AllSoFar;

// `left` is the pass that knows all inputs, as it was; `right` is the new one, which claims them.
impl Split<View> for AllSoFar {
    ghost use Rattle.run_history.specs.Views.{claim_of};

    ghost left = { λ v. v };

    ghost right = { claim_of };
}

// `both` is the pass that knows all inputs, with the other's claim; `spent` is what the other one
// knows then: nothing.
impl Join<View> for AllSoFar {
    ghost use Rattle.run_history.specs.Views.{shown, nobody};

    ghost both = { shown };

    ghost spent = { nobody };
}

/// The cell to which the passes of a history belong. Its number is always 0: it is there for the
/// rule `Growing` over its passes, which proofs use.
pub type Cell = RuledSeqCell<[u64; 1], View, Growing, 1>;

/// A pass of a history: what its holder knows of it.
pub type Receipt = Pass<[u64; 1], View>;

/// A history with no input, which no run has named yet. Contracts see it as its name.
#[derive(Drop)]
pub struct NewHistory {
    // The cell to which its passes belong.
    cell: Cell,
    // Its first pass, which knows all inputs.
    pass: Receipt,
}

impl Model for NewHistory {
    ghost use Rattle.std.specs.Prelude.{◌≡◌, []};
    ghost use Rattle.atomic_table.specs.Seated.{TableId};
    ghost use Rattle.crossbeam_utils.specs.Seq.{cell_view};
    ghost use Rattle.run_history.specs.Views.{knower};

    ghost Value = { TableId };

    ghost view = { λ h. h.cell.table.shared.table_id };

    ghost invariant = { λ h. (h.pass.table_id ≡ h.cell.table.shared.table_id)
        × (cell_view h.pass ≡ knower []) };
}

impl NewHistory {
    /// A new history: a cell, to which all its passes belong, and the first of these. `AllocError`
    /// where memory is refused.
    pub fn new(alloc: Global) -> Result<NewHistory, AllocError> {
        // The cell's number is 0 and stays so. The first pass knows all inputs, of which there are
        // none.
        let (cell, pass) = Cell::ruled(alloc, [0])?;
        Ok(NewHistory { cell, pass })
    }
}

/// What a caller knows of a run: all inputs that were done up to some moment, a beginning of the
/// run's one history. It is a token without bytes; no input can be read from it.
#[derive(Drop)]
pub struct KnownHistory<C: Lanes> {
    // What is known: it claims a beginning of all inputs.
    pass: Receipt,
    of: PhantomData<C>,
}

impl<C: Lanes> Model for KnownHistory<C> {
    ghost use Rattle.std.specs.Prelude.{◌≡◌, [], List};
    ghost use Rattle.crossbeam_utils.specs.Seq.{cell_view};
    ghost use Rattle.std.specs.declared.alloc.Global.{Global};
    ghost use Rattle.tree_core.specs.declared.input.Input.{Input};

    ghost Value = { List (Input Global) };

    ghost view = { λ h. (cell_view h.pass).claim };

    ghost invariant = { λ h. (h.pass.table_id ≡ C.history) × (h.pass.me.1 ≡ []) };
}

impl<C: Lanes> KnownHistory<C> {
    // The known history of this pass, a token that tells in proofs what is known. Nothing else is
    // stored.
    fn over(pass: Receipt) -> KnownHistory<C>
        requires cell { pass.table_id ≡ C.history }
        requires free { pass.me.1 ≡ [] }
        ensures { result ≡ (cell_view pass).claim }
    {
        KnownHistory {
            pass,
            of: PhantomData,
        }
    }

    // Its pass, which tells in proofs what is known. Nothing else was stored.
    fn into_pass(self) -> Receipt
        ensures cell { result.table_id ≡ C.history }
        ensures free { result.me.1 ≡ [] }
        ensures claim { (cell_view result).claim ≡ self }
    {
        let KnownHistory { pass, of: _ } = self;
        pass
    }
}

/// The end of a history that knows all inputs that were done, and alone adds to them. It lies under
/// the room's lock.
#[derive(Drop)]
pub struct WholeHistory<C: Lanes> {
    // The cell to which all passes of this history belong.
    cell: Cell,
    // The one pass that knows all inputs.
    pass: Receipt,
    of: PhantomData<C>,
}

impl<C: Lanes> Model for WholeHistory<C> {
    ghost use Rattle.std.specs.Prelude.{◌≡◌, List};
    ghost use Rattle.crossbeam_utils.specs.Seq.{cell_view};
    ghost use Rattle.std.specs.declared.alloc.Global.{Global};
    ghost use Rattle.tree_core.specs.declared.input.Input.{Input};
    ghost use Rattle.run_history.specs.Views.{knower};

    ghost Value = { List (Input Global) };

    ghost view = { λ k. (cell_view k.pass).all };

    ghost invariant = { λ k. (k.cell.table.shared.table_id ≡ C.history)
        × (k.pass.table_id ≡ C.history)
        × (cell_view k.pass ≡ knower (cell_view k.pass).all) };
}

impl<C: Lanes> WholeHistory<C> {
    /// The whole of this new history, of which no input was done yet: the cell, to which all passes
    /// of the history belong, and the pass that knows all inputs. In proofs `C` gives the history
    /// its name.
    pub fn over(new: NewHistory) -> WholeHistory<C>
        requires { new ≡ C.history }
        ensures { result ≡ [] }
    {
        let NewHistory { cell, pass } = new;
        WholeHistory {
            cell,
            pass,
            of: PhantomData,
        }
    }

    /// Adds inputs: from now on all inputs are those that the type `N` names, and those so far are
    /// a beginning of them. It can't be refused.
    pub fn extend<N: Whole, R: Wait>(&mut self, rt: &R)
        requires longer { IsPrefix self.old N.whole }
        ensures { self.new ≡ N.whole }
    {
        // The number in the cell stays 0. In proofs this write makes the inputs of `N` all inputs.
        self.cell.swap_as::<Extends<N>, R>(rt, &mut self.pass, [0]);
    }

    /// A token of all inputs so far, which a caller keeps for its proofs: it is split off
    /// `self.pass`, the pass that knows all inputs.
    pub fn tell(&mut self) -> KnownHistory<C>
        ensures same { self.new ≡ self.old }
        ensures all { result ≡ self.old }
    {
        let pass = self.cell.split_pass::<AllSoFar>(&mut self.pass);
        KnownHistory {
            pass,
            of: PhantomData,
        }
    }

    /// Sets `known`, what a caller knows, to all inputs so far. What it was before is a beginning
    /// of them. `self.pass` is the pass that knows all inputs.
    pub fn show<R: Wait>(&mut self, rt: &R, known: &mut KnownHistory<C>)
        ensures same { self.new ≡ self.old }
        ensures all { known.new ≡ self.old }
        ensures longer { IsPrefix known.old known.new }
    {
        // A new pass, split off the one that knows all inputs: it claims all inputs so far.
        let fresh = self.cell.split_pass::<AllSoFar>(&mut self.pass);
        let all = KnownHistory::over(fresh);
        let pass = mem::replace(known, all).into_pass();
        // The old pass goes back. For the proof: the read, `load_as`, shows that its claim was a
        // beginning of all inputs.
        self.cell.join_pass::<AllSoFar>(&mut self.pass, pass);
        self.cell.load_as::<Checks, R>(rt, &mut self.pass);
    }
}
