//! Which tree a run begins with, and which rings and backends its lanes have.
use std::marker::Brand;

/// For proofs: which tree a run begins with, which ring each of its lanes has, and which orders the
/// lane's backend had taken before. The tree's end of a lane and the lane's desk have such a type
/// as parameter, so a contract knows that they belong together, and to which run. A run picks the
/// type once its rings are made.
pub trait Lanes {
    ghost use Rattle.std.specs.Prelude.{ℕ, List};
    ghost use Rattle.channel_names.specs.RingName.{RingName};
    ghost use Rattle.s6_events.specs.declared.order.Order.{Order};
    ghost use Rattle.atomic_table.specs.Seated.{TableId};
    ghost use Rattle.tree_core.specs.StandsFor.{StoredTree};

    /// What the tree stored when the run began.
    ghost opening: { StoredTree };

    /// The history of the inputs that the run has done.
    ghost history: { TableId };

    /// The ring that goes from the tree to each lane's desk.
    ghost lane_ring: { ℕ → RingName };

    /// What each lane's backend had been asked before the lane was opened.
    ghost asked_before: { ℕ → List Order };
}

// The names before a program made anything: of no tree, no history and no ring. What it makes then
// has names of its own, in place of these.
impl Lanes for Brand {
    ghost use Rattle.std.specs.Prelude.{[]};
    ghost use Rattle.channel_names.specs.Unnamed.{no_ring};
    ghost use Rattle.order_lanes.specs.Opening.{no_inputs, no_tree};

    ghost opening = { no_tree };

    ghost history = { no_inputs };

    ghost lane_ring = { λ lane. no_ring };

    ghost asked_before = { λ lane. [] };
}
