//! An office before it is opened.
ghost use Rattle.std.specs.Prelude.{◌≡◌, IfOk, IfErr, length, None, ◌≤◌};
ghost use Rattle.office.specs.NewOffice.{AreOrdered, is_within, refusal, fault_or};
ghost use Rattle.office.specs.declared.new_office.OpenFault.TheVariants as fault;

use inbox::{Ring, open_rings};
use order_lanes::{LaneRing, open_lane_rings};
use run_history::NewHistory;
use s6_events::NoMemory;
use status_board::NewBoard;
use std::alloc::Global;
use std::marker::Model;
use thiserror::Error;
use tree_core::Tree;

/// The most actors of an office.
pub const ACTOR_LIMIT: usize = 16;

/// The most lanes of an office.
pub const LANE_LIMIT: usize = 4;

/// Why an office was not opened. `Actors` is looked for first, and then `Lanes`.
#[derive(Clone, Copy, PartialEq, Eq, Debug, Error)]
pub enum OpenFault {
    /// There were no actors, or more than 16.
    #[error("there are 1 to 16 actors")]
    Actors = 1,
    /// There were no backends, or more than 4. Each backend gets a lane.
    #[error("there are 1 to 4 lanes")]
    Lanes = 2,
    /// Memory was refused.
    #[error("out of memory")]
    NoMemory = 3,
    /// The board gave no reader.
    #[error("the board has no place for a reader")]
    Board = 4,
}

/// A tree, with new rings for its actors, a new ring for each backend, and new histories for its
/// board and its inputs. A run gives names to these, and then opens the office.
#[derive(Drop)]
pub struct NewOffice<B: Drop> {
    pub(crate) tree: Box<Tree<Global>>,
    pub(crate) rings: Vec<Ring>,
    pub(crate) lane_rings: Vec<LaneRing>,
    pub(crate) board: NewBoard,
    pub(crate) history: NewHistory,
    pub(crate) backends: Vec<B>,
}

impl<B: Drop> Model for NewOffice<B> {
    ghost use Rattle.std.specs.Prelude.{length};
    ghost use Rattle.office.specs.NewOffice.{NewOfficeView, IsSoundNew};

    ghost Value = { NewOfficeView B };

    ghost view = { λ o. record { tree = o.tree.value; rings = o.rings.items; lane_rings = o.lane_rings.items; board = o.board; history = o.history; backends = o.backends.items } };

    ghost invariant = { λ o. IsSoundNew o.rings.items o.lane_rings.items
        (length o.backends.items) };
}

// Whether the number is from 1 to `most`.
fn is_in_limit(number: usize, most: usize) -> bool
    ensures { result ≡ is_within most number }
{
    if number < 1 {
        return false;
    }
    number <= most
}

// Why no office may have so many actors and lanes; None where one may.
fn refuse(actors: usize, lanes: usize) -> Option<OpenFault>
    ensures { result ≡ refusal actors lanes }
{
    if !is_in_limit(actors, ACTOR_LIMIT) {
        return Some(OpenFault::Actors);
    }
    if !is_in_limit(lanes, LANE_LIMIT) {
        return Some(OpenFault::Lanes);
    }
    None
}

// A new ring for each of `actors` actors, in the order of their numbers. `NoMemory` where memory is
// refused.
#[tactic(auto, using(crate::proofs::Numbered::length_rings, crate::proofs::Numbered::ordered_rings))]
fn new_rings(alloc: Global, actors: usize) -> Result<Vec<Ring>, NoMemory>
    requires { (1 ≤ actors) × (actors ≤ 16) }
    ensures count { IfOk result (λ rings. length rings.items ≡ actors) }
    ensures ordered { IfOk result (λ rings. AreOrdered rings.items) }
{
    // There are at most 16 actors.
    let rings = open_rings(alloc, actors as u8)?;
    Ok(rings)
}

impl<B: Drop> NewOffice<B> {
    /// An office of this tree, with `actors` actors, and a lane for each of these backends.
    /// `Actors` or `Lanes` where there are too few or too many, `NoMemory` where memory is refused:
    /// the tree and the backends then come back.
    pub fn new(
        alloc: Global,
        tree: Box<Tree<Global>>,
        actors: usize,
        backends: Vec<B>,
    ) -> Result<NewOffice<B>, (OpenFault, Box<Tree<Global>>, Vec<B>)>
        ensures within { IfOk result (λ o. refusal actors (length backends.items) ≡ None) }
        ensures tree { IfOk result (λ o. o.tree ≡ tree.value) }
        ensures backends { IfOk result (λ o. o.backends ≡ backends.items) }
        ensures actors { IfOk result (λ o. length o.rings ≡ actors) }
        ensures lanes { IfOk result (λ o. length o.lane_rings ≡ length backends.items) }
        ensures fault { IfErr result
            (λ e. e.0 ≡ fault_or fault.NoMemory (refusal actors (length backends.items))) }
        ensures back { IfErr result (λ e. (e.1 ≡ tree) × (e.2 ≡ backends)) }
    {
        if let Some(fault) = refuse(actors, backends.len()) {
            return Err((fault, tree, backends));
        }
        let Ok(rings) = new_rings(alloc, actors) else {
            return Err((OpenFault::NoMemory, tree, backends));
        };
        // A ring of orders for each backend.
        let Ok(lane_rings) = open_lane_rings(alloc, backends.len()) else {
            return Err((OpenFault::NoMemory, tree, backends));
        };
        // For proofs: the history of the inputs that the run will do.
        let Ok(history) = NewHistory::new(alloc) else {
            return Err((OpenFault::NoMemory, tree, backends));
        };
        Ok(NewOffice {
            tree,
            rings,
            lane_rings,
            // The board has no rows before the office is opened.
            board: NewBoard::new(),
            history,
            backends,
        })
    }
}
