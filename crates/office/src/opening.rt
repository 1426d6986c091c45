//! How an office is opened.
ghost use Rattle.std.specs.Prelude.{◌≡◌, ◌⊎◌, ◌∷◌, [], ◌<◌, ◌≤◌, ℕ, true, IfOk, IfErr, Some, length, slice_get, vec_capacity};
ghost use Rattle.tree_core.specs.Machine.{Machine};
ghost use Rattle.tree_core.specs.StandsFor.{StandsFor};
ghost use Rattle.locked_services.specs.Opening.{AreNamed};
ghost use Rattle.locked_services.specs.Shots.{shot_of};
ghost use Rattle.order_lanes.specs.Lane.{sent_in};
ghost use Rattle.locked_services.specs.Submissions.{AreNumbered, taken_from};
ghost use Rattle.office.specs.Names.{ring_of, lane_ring_of, asked_of};
ghost use Rattle.office.specs.Opening.{AreNewSeats, AreUntaken, AreReaders, AreLaneRings, AreAsked};
ghost use Rattle.office.specs.declared.new_office.OpenFault.TheVariants as fault;

use crate::board_ends::board_ends;
use crate::lane_ends::LaneEnds;
use crate::new_office::{NewOffice, OpenFault};
use crate::office::Office;
use crate::spare::Spare;
use channel_names::Channels;
use inbox::{Drain, Ring, Seat};
use locked_services::{Beginning, Room, RunningTree, SeatEnds, seat_ends};
use order_lanes::{Backend, Lane, LaneRing, Lanes};
use run_history::{KnownHistory, NewHistory, WholeHistory};
use status_board::{Board, BoardReader, BoardWriter, NewBoard};
use std::alloc::Global;
use std::sync::Wait;
use tree_core::Tree;

/// An open office, a seat for each actor, as many readers of the board, and what is known of the
/// run, which has done no input yet.
#[derive(Drop)]
pub struct Opened<C: Channels + Lanes, D: Board<C>, B: Backend> {
    pub office: Office<C, D, B>,
    pub seats: Vec<Seat<C>>,
    pub readers: Vec<BoardReader<C>>,
    pub known: KnownHistory<C>,
}

// The parts of an office for which memory is taken. The lists of its lanes and desks are still
// empty.
#[derive(Drop)]
struct OfficeParts<C: Channels + Lanes, D: Board<C>, B: Backend> {
    beginning: Beginning,
    ends: SeatEnds<C>,
    board: D,
    readers: Vec<BoardReader<C>>,
    lanes: LaneEnds<B, C>,
    spare: Spare<B, C>,
}

// Makes the parts for which memory is taken. `C` gives the rings and the board their names.
// `NoMemory` where memory is refused, `Board` where the board gives no reader. `beginning` is what
// the running tree begins with, `ends` has the seats and the tree's ends of their rings, and
// `spare` has lists that the close of the office fills.
fn make_parts<C: Channels + Lanes, R: Wait + Drop, B: Backend>(
    alloc: Global,
    rt: R,
    tree: &Tree<Global>,
    rings: Vec<Ring>,
    board: NewBoard,
    lanes: usize,
) -> Result<OfficeParts<C, BoardWriter<C, R>, B>, OpenFault>
    requires rings { AreNamed C.seat_ring rings.items }
    requires actors { (1 ≤ length rings.items) × (length rings.items ≤ 16) }
    requires board { board ≡ C.board }
    ensures opening { IfOk result (λ p. p.beginning.opening ≡ tree.now) }
    ensures steps { IfOk result (λ p. p.beginning.run.steps ≡ []) }
    ensures drains { IfOk result (λ p. AreUntaken p.ends.drains.items) }
    ensures seats { IfOk result (λ p. AreNewSeats (length rings.items) p.ends.seats.items) }
    ensures first { IfOk result (λ p. (m : Machine) → StandsFor tree.now m
        → p.board ≡ shot_of m ∷ []) }
    ensures known { IfOk result (λ p. AreReaders p.board p.readers.items) }
    ensures readers { IfOk result (λ p. length p.readers.items ≡ length rings.items) }
    ensures empty { IfOk result (λ p. (p.lanes.lanes.items ≡ []) × (p.lanes.desks.items ≡ [])) }
    ensures room { IfOk result (λ p. (lanes ≤ vec_capacity p.lanes.lanes)
        × (lanes ≤ vec_capacity p.lanes.desks)) }
    ensures fault { IfErr result (λ e. (e ≡ fault.NoMemory) ⊎ (e ≡ fault.Board)) }
{
    // The board has a reader for each seat, and a seat has a ring.
    let count = rings.len();
    let Ok(beginning) = Beginning::of(alloc, tree) else {
        return Err(OpenFault::NoMemory);
    };
    let Ok(ends) = seat_ends::<C>(alloc, rings) else {
        return Err(OpenFault::NoMemory);
    };
    let Ok(lanes) = LaneEnds::with_room(alloc, lanes) else {
        return Err(OpenFault::NoMemory);
    };
    let Ok(spare) = Spare::new(alloc) else {
        return Err(OpenFault::NoMemory);
    };
    let (board, readers) = board_ends::<C, R>(alloc, rt, board, tree, count)?;
    Ok(OfficeParts {
        beginning,
        ends,
        board,
        readers,
        lanes,
        spare,
    })
}

// The room of a run that begins with this tree. The tree's first shot is all that was published.
// The running tree keeps `alloc` for its later calls.
fn new_room<C: Channels + Lanes, D: Board<C>>(
    alloc: Global,
    beginning: Beginning,
    tree: Box<Tree<Global>>,
    drains: Vec<Drain<C>>,
    lanes: Vec<Lane<C>>,
    board: D,
    history: NewHistory,
) -> Room<C, D>
    requires history { history ≡ C.history }
    requires tree { tree.value ≡ C.opening }
    requires opening { beginning.opening ≡ tree.value }
    requires steps { beginning.run.steps ≡ [] }
    requires numbered { AreNumbered drains.items }
    requires untaken { (actor : ℕ) → taken_from actor drains.items ≡ [] }
    requires lanes { 0 < length lanes.items }
    requires unsent { (k : ℕ) → sent_in k lanes.items ≡ [] }
    requires first { (m : Machine) → StandsFor tree.value m → D.shots board ≡ shot_of m ∷ [] }
    ensures opening { result.running.opening ≡ tree.value }
    ensures tree { result.running.tree ≡ tree.value }
    ensures steps { result.running.steps ≡ [] }
    ensures shots { result.shots ≡ D.shots board }
    ensures shown { result.is_shown ≡ true }
{
    let running = RunningTree::begin(alloc, beginning, tree, drains, lanes);
    // The history of the inputs that are done is for proofs alone.
    Room::begin(running, board, WholeHistory::over(history))
}

impl<C: Channels + Lanes, D: Board<C>, B: Backend> OfficeParts<C, D, B> {
    // The open office of these parts. It takes no memory: the running tree keeps `alloc` for its
    // later calls.
    fn into_open(
        self,
        alloc: Global,
        tree: Box<Tree<Global>>,
        rings: Vec<LaneRing>,
        history: NewHistory,
        backends: Vec<B>,
    ) -> Opened<C, D, B>
        requires named { (history ≡ C.history) × (tree.value ≡ C.opening) }
        requires opening { (self.beginning.opening ≡ tree.value) × (self.beginning.run.steps ≡ []) }
        requires drains { AreUntaken self.ends.drains.items }
        requires first { (m : Machine) → StandsFor tree.value m →
            D.shots self.board ≡ shot_of m ∷ [] }
        requires empty { (self.lanes.lanes.items ≡ []) × (self.lanes.desks.items ≡ []) }
        requires room { (length rings.items ≤ vec_capacity self.lanes.lanes)
            × (length rings.items ≤ vec_capacity self.lanes.desks) }
        requires some { (0 < length rings.items) × (length rings.items ≤ 4) }
        requires rings { AreLaneRings C.lane_ring 0 rings.items }
        requires backends { length backends.items ≡ length rings.items }
        requires before { AreAsked B.asked C.asked_before 0 backends.items }
        ensures office { result.office ≡ length rings.items }
        ensures ends { (result.seats ≡ self.ends.seats) × (result.readers ≡ self.readers) }
        ensures known { result.known ≡ [] }
    {
        let OfficeParts {
            beginning,
            ends,
            board,
            readers,
            lanes,
            spare,
        } = self;
        // The actors submit at the seats, and the tree takes their inputs out of the drains.
        let SeatEnds { seats, drains } = ends;
        // The tree sends orders into the lanes, and the backends are asked them at the desks.
        let LaneEnds { lanes, desks } = lanes.fill(rings, backends);
        let mut room = new_room(alloc, beginning, tree, drains, lanes, board, history);
        // For proofs alone: that no input is done yet.
        let known = room.history();
        Opened {
            office: Office::over(room, desks, spare),
            seats,
            readers,
            known,
        }
    }
}

impl<B: Backend> NewOffice<B> {
    /// Opens the office, with a seat for each actor, as many readers of the board, and no step
    /// made. `C` gives its rings, board and history their names. `NoMemory` where memory is
    /// refused, and `Board` where the board gives no reader: the tree and the backends then come
    /// back.
    pub fn open<C: Channels + Lanes, R: Wait + Drop>(
        self,
        alloc: Global,
        rt: R,
    ) -> Result<Opened<C, BoardWriter<C, R>, B>, (OpenFault, Box<Tree<Global>>, Vec<B>)>
        requires seats { (k : ℕ) → C.seat_ring k ≡ ring_of (slice_get self.rings k) }
        requires board { C.board ≡ self.board }
        requires tree { C.opening ≡ self.tree }
        requires history { C.history ≡ self.history }
        requires lanes { (k : ℕ) → C.lane_ring k ≡ lane_ring_of (slice_get self.lane_rings k) }
        requires before { (k : ℕ) → C.asked_before k
            ≡ asked_of B.asked (slice_get self.backends k) }
        ensures office { IfOk result (λ o. (o.office ≡ length self.lane_rings) × (o.known ≡ [])) }
        ensures seats { IfOk result (λ o. AreNewSeats (length self.rings) o.seats.items) }
        ensures readers { IfOk result (λ o. length o.readers.items ≡ length self.rings) }
        ensures first { IfOk result (λ o. (m : Machine) → StandsFor self.tree m
            → AreReaders (shot_of m ∷ []) o.readers.items) }
        ensures fault { IfErr result (λ e. (e.0 ≡ fault.NoMemory) ⊎ (e.0 ≡ fault.Board)) }
        ensures back { IfErr result (λ e. (e.1.value ≡ self.tree) × (e.2.items ≡ self.backends)) }
    {
        let NewOffice {
            tree,
            rings,
            lane_rings,
            board,
            history,
            backends,
        } = self;
        let count = lane_rings.len();
        match make_parts::<C, R, B>(alloc, rt, &tree, rings, board, count) {
            Ok(parts) => Ok(parts.into_open(alloc, tree, lane_rings, history, backends)),
            Err(fault) => Err((fault, tree, backends)),
        }
    }
}
