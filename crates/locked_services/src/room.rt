//! What the lock guards: the running tree and its board.
ghost use Rattle.std.specs.Prelude.{◌≡◌, ◌≢◌, ◌≤◌, ◌∷◌, ◌++◌, [], None, IsSome, IsTrue, OnOk, OnErr, IfOk, IfErr, IfSome, IfNone, length, ℕ, true, Some, option_map, vec_capacity};
ghost use Rattle.tree_core.specs.Effect.{outcome_of};
ghost use Rattle.tree_core.specs.Ended.{has_ended};
ghost use Rattle.tree_core.specs.Limits.{order_limit};
ghost use Rattle.tree_core.specs.Machine.{Machine};
ghost use Rattle.tree_core.specs.NextDue.{next_due};
ghost use Rattle.tree_core.specs.StandsFor.{StandsFor};
ghost use mathlib.Core.List.{IsPrefix};
ghost use Rattle.run_records.specs.Runs.{RunStep, end_of, inputs_of, outcome_at, reply_at};
ghost use Rattle.locked_services.specs.Telling.{IsStepOf};
ghost use Rattle.run_records.specs.RunText.{IsWritten, StopsWriting};
ghost use Rattle.locked_services.specs.Closing.{AreComplete, AreDone, AreSameDesks, AreServed, IsClosed, IsFault, IsSameRoom};
ghost use Rattle.locked_services.specs.Rings.{TakeMost, TakesBy, most_taken};
ghost use Rattle.locked_services.specs.Submissions.{NoneSeen};
ghost use Rattle.locked_services.specs.Running.{run_limit};
ghost use Rattle.locked_services.specs.Shots.{shot_of, Grows, IsSoundHistory};
ghost use Rattle.status_board.specs.Board.{last_shot, NeverFalls};
ghost use Rattle.locked_services.specs.declared.stop.Stop.TheVariants.{Done, Idle, RunFull, Blocked};
ghost use Rattle.order_lanes.specs.Lane.{HaveRoom, IsBlocked};
ghost use Rattle.locked_services.specs.declared.stop.DriveStop.TheVariants as ended;

use crate::closing::{CloseFault, Closed};
use crate::running::RunningTree;
use crate::serving::backends_of;
use crate::stop::{DriveStop, Driven, Stop};
use channel_names::Channels;
use inbox::{Finished, Ticket};
use order_lanes::{Backend, Desk, Lanes};
use run_history::{KnownHistory, Whole, WholeHistory};
use run_records::{Run, RunFault};
use s6_events::{Actor, At, NoMemory};
use status_board::{Board, Told};
use std::alloc::Global;
use std::io::Write;
use std::marker::{Brand, Model};
use std::sync::Wait;
use tree_core::{Effect, Reply, Tree};

/// What one lock guards: the running tree, the board on which it is published, whether its present
/// state was published, and, in proofs alone, the history of the inputs that it has done.
#[derive(Drop)]
pub struct Room<C: Channels + Lanes, D: Board<C>> {
    running: RunningTree<C>,
    board: D,
    is_shown: bool,
    history: WholeHistory<C>,
}

// For proofs: adds to the history all inputs that the running tree has done since. The type `N`
// names them all.
fn keep<N: Whole, C: Channels + Lanes, R: Wait>(
    rt: &R,
    history: &mut WholeHistory<C>,
    running: &RunningTree<C>,
)
    requires named { N.whole ≡ inputs_of running.now.steps }
    requires longer { IsPrefix history.old (inputs_of running.now.steps) }
    ensures { history.new ≡ inputs_of running.now.steps }
{
    // For the proof alone: the clause `sound` of `RunningTree::steps` says what holds of the steps.
    let _steps = running.steps();
    history.extend::<N, R>(rt);
}

/// A room that was not closed, why it was not, and all that `close` was given beside it.
#[derive(Drop)]
pub struct NotClosed<C: Channels + Lanes, D: Board<C>, B: Backend> {
    pub room: Room<C, D>,
    pub desks: Vec<Desk<B, C>>,
    pub backends: Vec<B>,
    pub finishes: Vec<Finished<C>>,
    pub fault: CloseFault,
}

impl<C: Channels + Lanes, D: Board<C>> Model for Room<C, D> {
    ghost use Rattle.std.specs.Prelude.{◌≡◌};
    ghost use Rattle.run_records.specs.Runs.{inputs_of};
    ghost use Rattle.locked_services.specs.Shots.{RoomView, IsSoundRoom};

    ghost Value = { RoomView };

    ghost view = { λ r. record { running = r.running; shots = D.shots r.board; is_shown = r.is_shown } };

    ghost invariant = { λ r. IsSoundRoom C.opening
        (record { running = r.running; shots = D.shots r.board; is_shown = r.is_shown })
        × (r.history ≡ inputs_of r.running.steps) };
}

impl<C: Channels + Lanes, D: Board<C>> Room<C, D> {
    /// A room of this running tree, which has made no step. Its present state is the only one that
    /// was published on the board.
    pub fn begin(running: RunningTree<C>, board: D, history: WholeHistory<C>) -> Room<C, D>
        requires history { history ≡ [] }
        requires opening { running.opening ≡ C.opening }
        requires steps { running.steps ≡ [] }
        requires first { (m : Machine) → StandsFor running.opening m →
            D.shots board ≡ shot_of (end_of m running.steps) ∷ [] }
        ensures { result ≡ record { running = running; shots = D.shots board; is_shown = true } }
    {
        // For the proof alone: the clauses of `RunningTree::steps` say that there is a machine for
        // which its tree stands.
        let _steps = running.steps();
        Room {
            running,
            board,
            is_shown: true,
            history,
        }
    }

    /// Sets `known` to all inputs that were done. What it was before is a beginning of them.
    pub fn show<R: Wait>(&mut self, rt: &R, known: &mut KnownHistory<C>)
        ensures same { self.new ≡ self.old }
        ensures all { known.new ≡ inputs_of self.old.running.steps }
        ensures longer { IsPrefix known.old known.new }
    {
        self.history.show(rt, known);
    }

    /// A token of all inputs that were done, for the proofs of a caller that has none yet.
    pub fn history(&mut self) -> KnownHistory<C>
        ensures same { self.new ≡ self.old }
        ensures all { result ≡ inputs_of self.old.running.steps }
    {
        self.history.tell()
    }

    /// Makes one step, of the input that is held or, where none is held, of one that it takes from
    /// the rings.
    pub fn step_one<R: Wait>(&mut self, rt: &R) -> Stop
        ensures opening { self.new.running.opening ≡ self.old.running.opening }
        ensures shots { self.new.shots ≡ self.old.shots }
        ensures done { result ≡ Done → (s : RunStep)
            × (self.new.running.steps ≡ self.old.running.steps ++ s ∷ [])
            × (IsSome self.old.running.held → self.old.running.held ≡ Some s.input) }
        ensures other { result ≢ Done → (self.new.running.steps ≡ self.old.running.steps)
            × (self.new.running.tree ≡ self.old.running.tree) }
        ensures blocked { (k : ℕ) → result ≡ Blocked k
            → IsBlocked order_limit k self.new.running.lanes }
        ensures full { result ≡ RunFull → run_limit ≤ length self.new.running.steps }
        ensures limit { run_limit ≤ length self.old.running.steps → result ≡ RunFull }
        ensures idle { result ≡ Idle → (self.new.running.held ≡ None)
            × NoneSeen self.new.running.drains × HaveRoom order_limit self.new.running.lanes }
        ensures rings { TakesBy result self.old.running self.new.running }
    {
        let stop = self.running.step_one();
        if stop == Stop::Done {
            // The board shows the state before this step.
            self.is_shown = false;
            // For the proof alone: the history takes in what was done.
            keep::<Brand, C, R>(rt, &mut self.history, &self.running);
        }
        stop
    }

    /// Publishes the present state. `NoMemory` where memory is refused: the board is then as it
    /// was.
    pub fn publish(&mut self) -> Result<(), NoMemory>
        ensures running { self.new.running ≡ self.old.running }
        ensures added { OnOk result ((m : Machine) → StandsFor self.old.running.opening m →
            self.new.shots ≡ self.old.shots ++ shot_of (end_of m self.old.running.steps) ∷ []) }
        ensures shown { OnOk result (self.new.is_shown ≡ true) }
        ensures same { OnErr result ((self.new.shots ≡ self.old.shots)
            × (self.new.is_shown ≡ self.old.is_shown)) }
    {
        let rows = self.running.rows()?;
        self.board.publish_rows(rows)?;
        self.is_shown = true;
        Ok(())
    }

    /// All shots that were published so far, for a reader to learn: the first shows the state with
    /// which the run began, and each later one a state that it came to.
    pub fn tell(&self) -> Told<C>
        ensures shots { result ≡ self.now.shots }
        ensures rising { NeverFalls result }
    {
        self.board.tell()
    }

    /// The reply to the input of a ticket; None where its step isn't made yet. `NoMemory` where
    /// memory is refused.
    pub fn reply(&self, ticket: Ticket) -> Result<Option<Reply<Global>>, NoMemory>
        ensures { IfOk result
            (λ reply. reply ≡ reply_at ticket.actor ticket.number self.now.running.steps) }
    {
        self.running.reply(ticket)
    }

    /// All that step `number` gave, counted from 1; None where there is no such step. `NoMemory`
    /// where memory is refused.
    pub fn effect(&self, number: u64) -> Result<Option<Effect<Global>>, NoMemory>
        ensures { IfOk result (λ effect. option_map (λ e. outcome_of e) effect
            ≡ outcome_at number self.now.running.steps) }
    {
        self.running.effect(number)
    }

    /// Fills an effect with all that step `number` gave, counted from 1, and returns whose input it
    /// took and when that was handed in; what the effect held is gone. None where there is no such
    /// step: nothing is filled in. `NoMemory` where memory is refused: the effect may then be
    /// filled in part.
    pub fn step(
        &self,
        number: u64,
        effect: &mut Effect<Global>,
    ) -> Result<Option<(Actor, At)>, NoMemory>
        ensures { IfOk result
            (λ source. IsStepOf source (outcome_of effect.new) number self.now.running.steps) }
    {
        if !self.running.fill(number, effect)? {
            return Ok(None);
        }
        // Each step that can be filled in has both.
        match (self.running.actor(number), self.running.moment(number)) {
            (Some(actor), Some(moment)) => Ok(Some((actor, moment))),
            _ => unreachable!(),
        }
    }

    /// Writes the run as a recorded script: the head line, if `head`, and then for each step the
    /// line of its input and that of its reply. Returns how many steps these are. The writer is not
    /// flushed. Where each run goes on from the one before, and only the first is written with the
    /// head line, their texts in a row are one script (`laws::recording`).
    pub fn write_run<W: Write>(&self, head: bool, writer: &mut W) -> Result<u64, RunFault>
        ensures ok { IfOk result (λ count. IsWritten count head self.now.running.steps
            (W.contents writer.old) (W.contents writer.new)) }
        ensures fault { IfErr result (λ fault. StopsWriting fault head self.now.running.steps
            (W.contents writer.old) (W.contents writer.new)) }
    {
        self.running.write_run(head, writer)
    }

    /// How many steps this run has. Many callers want only its clause `sound`, which says for their
    /// proofs what holds at every moment. The steps are a legal history from each machine for which
    /// the first tree stood, and the tree stands for its end. Each actor's steps, and then the held
    /// input if it is the actor's, are what its ring gave. Each lane was sent its orders. Each shot
    /// shows a state of this history: the first shows the one with which it began, and none is
    /// older than the one before.
    pub fn steps(&self) -> usize
        ensures count { result ≡ length self.now.running.steps }
        ensures sound { IsSoundHistory C.opening self.now }
    {
        self.running.steps()
    }

    // Makes at most `most` steps, and returns how many it made and why it ended.
    fn step_many<R: Wait>(&mut self, rt: &R, most: u64) -> Driven
        ensures opening { self.new.running.opening ≡ self.old.running.opening }
        ensures shots { self.new.shots ≡ self.old.shots }
        ensures steps { Grows result.steps self.old.running.steps self.new.running.steps }
        ensures most { result.steps ≤ most }
        ensures count { result.stop ≡ ended.Count → result.steps ≡ most }
        ensures blocked { (k : ℕ) → result.stop ≡ ended.Blocked k
            → IsBlocked order_limit k self.new.running.lanes }
        ensures full { result.stop ≡ ended.RunFull → run_limit ≤ length self.new.running.steps }
        ensures limit { run_limit ≤ length self.old.running.steps → 1 ≤ most
            → result.stop ≡ ended.RunFull }
        ensures idle { result.stop ≡ ended.Idle → (self.new.running.held ≡ None)
            × NoneSeen self.new.running.drains × HaveRoom order_limit self.new.running.lanes }
        ensures rings { TakeMost (most_taken result.stop result.steps) self.old.running
            self.new.running }
    {
        let driven = self.running.step_many(most);
        if driven.steps > 0 {
            // The board shows the state before these steps.
            self.is_shown = false;
            // For the proof alone: the history takes in what was done.
            keep::<Brand, C, R>(rt, &mut self.history, &self.running);
        }
        driven
    }

    /// Makes at most `most` steps, and then publishes the state, if it made any. Where an earlier
    /// drive could not publish, this one publishes first; if memory for that is refused, it makes
    /// no step. Where the state can't be published, the answer is `NoMemory`, and the steps that
    /// were made stay.
    pub fn drive<R: Wait>(&mut self, rt: &R, most: u64) -> Driven
        ensures opening { self.new.running.opening ≡ self.old.running.opening }
        ensures steps { Grows result.steps self.old.running.steps self.new.running.steps }
        ensures most { result.steps ≤ most }
        ensures count { result.stop ≡ ended.Count → result.steps ≡ most }
        ensures blocked { (k : ℕ) → result.stop ≡ ended.Blocked k
            → IsBlocked order_limit k self.new.running.lanes }
        ensures full { result.stop ≡ ended.RunFull → run_limit ≤ length self.new.running.steps }
        ensures limit { run_limit ≤ length self.old.running.steps → 1 ≤ most
            → result.stop ≢ ended.NoMemory → result.stop ≡ ended.RunFull }
        ensures idle { result.stop ≡ ended.Idle → (self.new.running.held ≡ None)
            × NoneSeen self.new.running.drains × HaveRoom order_limit self.new.running.lanes }
        ensures rings { TakeMost (most_taken result.stop result.steps) self.old.running
            self.new.running }
        ensures shown { result.stop ≢ ended.NoMemory → self.new.is_shown ≡ true }
    {
        // `is_shown`: the present state is the last that was published.
        if !self.is_shown && self.publish().is_err() {
            return Driven {
                steps: 0,
                stop: DriveStop::NoMemory,
            };
        }
        let driven = self.step_many(rt, most);
        if !self.is_shown && self.publish().is_err() {
            return Driven {
                steps: driven.steps,
                stop: DriveStop::NoMemory,
            };
        }
        driven
    }

    /// Whether the present state is the last that was published.
    pub fn is_shown(&self) -> bool
        ensures value { result ≡ self.now.is_shown }
        ensures last { IsTrue result → (m : Machine) → StandsFor self.now.running.opening m
            → last_shot self.now.shots ≡ Some (shot_of (end_of m self.now.running.steps)) }
    {
        self.is_shown
    }

    /// Whether the tree has ended: it is closing, and the supervisor of each service in the tree
    /// has ended.
    pub fn ended(&self) -> bool
        ensures { (m : Machine) → StandsFor self.now.running.opening m
            → result ≡ has_ended (end_of m self.now.running.steps) }
    {
        self.running.ended()
    }

    /// The next moment, in milliseconds, to which a timer or a deadline is set; None where there is
    /// none.
    pub fn next_due(&self) -> Option<u64>
        ensures { (m : Machine) → StandsFor self.now.running.opening m
            → result ≡ next_due (end_of m self.now.running.steps) }
    {
        self.running.next_due()
    }

    // Why the run can't be closed with these desks and finishes; None where it can be.
    fn close_fault<B: Backend>(
        &mut self,
        desks: &mut Vec<Desk<B, C>>,
        finishes: &mut Vec<Finished<C>>,
    ) -> Option<CloseFault>
        ensures same { IsSameRoom self.old self.new }
        ensures desks { AreSameDesks desks.old.items desks.new.items }
        ensures room { vec_capacity desks.new ≡ vec_capacity desks.old }
        ensures finishes { finishes.new.items ≡ finishes.old.items }
        ensures fault { IfSome result (λ fault.
            IsFault C.asked_before self.old.running desks.old.items finishes.old.items fault) }
        ensures complete { IfNone result
            (AreComplete (length self.old.running.drains) finishes.old.items) }
        ensures done { IfNone result (AreDone self.old.running.steps finishes.old.items) }
        ensures served { IfNone result
            (AreServed C.asked_before self.old.running.lanes desks.old.items) }
        ensures each { IfNone result (length desks.old.items ≡ length self.old.running.lanes) }
    {
        self.running.close_fault(desks, finishes)
    }

    // The tree, and the steps.
    fn into_parts(self) -> (Box<Tree<Global>>, Run)
        ensures tree { result.0.value ≡ self.running.tree }
        ensures run { result.1.steps ≡ self.running.steps }
    {
        let Room { running, .. } = self;
        running.into_parts()
    }

    /// Closes the run, where there is just one finish for each seat, all that was submitted was
    /// done, and all orders were asked. `desks` are those of the lanes, in the order of the lanes'
    /// numbers; `backends` is an empty list with room for the desks' backends. At a fault all comes
    /// back as it was, except that more may have been seen of what is in the rings. It takes no
    /// memory.
    pub fn close<B: Backend>(
        self,
        desks: Vec<Desk<B, C>>,
        backends: Vec<B>,
        finishes: Vec<Finished<C>>,
    ) -> Result<Closed<B>, NotClosed<C, D, B>>
        requires empty { backends.items ≡ [] }
        requires fits { length desks.items ≤ vec_capacity backends }
        ensures closed { IfOk result
            (λ closed. IsClosed B.asked C.asked_before self.running finishes.items closed) }
        ensures fault { IfErr result
            (λ e. IsFault C.asked_before self.running desks.items finishes.items e.fault) }
        ensures room { IfErr result (λ e. IsSameRoom self e.room) }
        ensures desks { IfErr result (λ e. AreSameDesks desks.items e.desks.items
            × (vec_capacity e.desks ≡ vec_capacity desks)) }
        ensures backends { IfErr result (λ e. e.backends ≡ backends) }
        ensures finishes { IfErr result (λ e. e.finishes.items ≡ finishes.items) }
    {
        let mut room = self;
        let mut desks = desks;
        let mut finishes = finishes;
        let steps = room.steps() as u64;
        match room.close_fault(&mut desks, &mut finishes) {
            Some(fault) => Err(NotClosed {
                room,
                desks,
                backends,
                finishes,
                fault,
            }),
            None => {
                let (tree, run) = room.into_parts();
                Ok(Closed {
                    tree,
                    steps,
                    run,
                    backends: backends_of(desks, backends),
                })
            }
        }
    }
}
