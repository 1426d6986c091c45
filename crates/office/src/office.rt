//! The office: the room, which has the tree and its steps, behind one lock, and each lane's desk
//! behind its own.
ghost use Rattle.std.specs.Prelude.{◌≡◌, ◌⊎◌, ◌≤◌, ◌<◌, IfOk, IfErr, List, length, not, option_map, position};
ghost use Rattle.std.specs.declared.alloc.Global.{Global};
ghost use Rattle.tree_core.specs.declared.input.Input.{Input};
ghost use Rattle.tree_core.specs.Effect.{outcome_of};
ghost use Rattle.tree_core.specs.Ended.{has_ended};
ghost use Rattle.tree_core.specs.Machine.{Machine};
ghost use Rattle.tree_core.specs.NextDue.{next_due};
ghost use Rattle.tree_core.specs.StandsFor.{StandsFor};
ghost use mathlib.Core.List.{IsPrefix};
ghost use Rattle.run_records.specs.Runs.{end_of, inputs_of, outcome_at, reply_at};
ghost use Rattle.run_records.specs.RunText.{IsWritten, StopsWriting};
ghost use Rattle.locked_services.specs.Closing.{IsClosed, IsFault, IsRunFrom};
ghost use Rattle.locked_services.specs.Shots.{RoomView, IsSoundHistory};
ghost use Rattle.locked_services.specs.Telling.{IsStepOf};
ghost use Rattle.office.specs.Told.{AddsInputs, IsTold, Stops};
ghost use Rattle.order_lanes.specs.Desk.{DeskView};
ghost use Rattle.status_board.specs.Board.{NeverFalls};
ghost use Rattle.locked_services.specs.declared.stop.DriveStop.TheVariants as ended;

use crate::carrying::{carry_in_turns, carry_many};
use crate::closing::{lock_all, unlock_all};
use crate::new_office::LANE_LIMIT;
use crate::spare::Spare;
use channel_names::Channels;
use inbox::{Finished, Ticket};
use locked_services::{CloseFault, Closed, Driven, NotClosed, Room};
use order_lanes::{Backend, Carried, Desk, Lanes, Report};
use run_history::KnownHistory;
use run_records::RunFault;
use s6_events::{Actor, At, NoMemory};
use status_board::{Board, Told};
use std::alloc::Global;
use std::io::Write;
use std::marker::Model;
use std::sync::{Mutex, Wait};
use std::thread;
use std::thread::Threads;
use thiserror::Error;
use tree_core::{Effect, Reply};

/// The thread of this lane could not be made, and perhaps those of lanes with greater numbers.
#[derive(Clone, Copy, PartialEq, Eq, Debug, Error)]
#[error("no thread for lane {lane}")]
pub struct NotStarted {
    pub lane: usize,
}

/// A tree that several threads run. It has a room, which one thread at a time enters, and for each
/// lane a desk behind a lock of its own, so that no backend keeps anybody out of the room. What is
/// promised of a room or of a desk holds whenever its lock is free. Contracts see how many lanes
/// there are.
///
/// A call that tells of the run takes a `KnownHistory`, a token for proofs: the inputs that its
/// caller knows to be done. The call sets it to all inputs that were done: what was known before is
/// a beginning of these. The answer is that of the run that did just these inputs. So all answers
/// to a caller are of one run. Two callers, such as two threads, learn by `compare` that theirs is
/// the same run. The contracts of `Desk` tell what a backend was asked and what it reported.
#[derive(Drop)]
pub struct Office<C: Channels + Lanes, D: Board<C>, B: Backend> {
    room: Mutex<Room<C, D>>,
    pub(crate) desks: Vec<Mutex<Desk<B, C>>>,
    spare: Mutex<Spare<B, C>>,
}

impl<C: Channels + Lanes, D: Board<C>, B: Backend> Model for Office<C, D, B> {
    ghost use Rattle.std.specs.Prelude.{ℕ, ◌≤◌, length};

    ghost Value = { ℕ };

    ghost view = { λ o. length o.desks.items };

    ghost invariant = { λ o. length o.desks.items ≤ 4 };
}

// Two lines of many calls are for the proof alone: by `show` all inputs that were done become
// known, and the clause `sound` of `Room::steps` says that the steps are a legal history.
impl<C: Channels + Lanes, D: Board<C>, B: Backend> Office<C, D, B> {
    /// An office of this room and these desks, with spare lists for its close.
    pub fn over(
        room: Room<C, D>,
        desks: Vec<Mutex<Desk<B, C>>>,
        spare: Spare<B, C>,
    ) -> Office<C, D, B>
        requires { length desks.items ≤ 4 }
        ensures { result ≡ length desks.items }
    {
        Office {
            room: Mutex::new(room),
            desks,
            // Behind a lock, since threads share the office; only `close` takes them.
            spare: Mutex::new(spare),
        }
    }

    /// How many lanes it has.
    pub fn lanes(&self) -> usize
        ensures { result ≡ self.now }
    {
        self.desks.len()
    }

    /// Makes at most `most` steps in the room, and publishes the state, as `Room::drive` does. All
    /// inputs that were done before, and those of these steps, become known.
    pub fn drive<W: Wait>(&self, rt: &W, known: &mut KnownHistory<C>, most: u64) -> Driven
        ensures longer { IsPrefix known.old known.new }
        ensures most { result.steps ≤ most }
        ensures count { result.stop ≡ ended.Count → result.steps ≡ most }
        ensures made { (before : List (Input Global)) × IsPrefix known.old before
            × AddsInputs result.steps before known.new }
        ensures told { IsTold C.opening known.new (λ v. Stops result.stop v.running) }
    {
        let mut room = self.room.lock(rt);
        room.show(rt, known);
        let driven = room.drive(rt, most);
        room.show(rt, known);
        let _steps = room.steps();
        driven
    }

    /// For proofs alone: a token (`KnownHistory`) of all inputs that were done so far, for a caller
    /// that has none yet.
    pub fn history<W: Wait>(&self, rt: &W) -> KnownHistory<C>
        ensures { (v : RoomView) × IsSoundHistory C.opening v
            × (result ≡ inputs_of v.running.steps) }
    {
        let mut room = self.room.lock(rt);
        let _steps = room.steps();
        room.history()
    }

    /// For proofs alone: shows that what two callers know is of one run. Sets both to all inputs
    /// that were done so far; before, one was a beginning of the other.
    pub fn compare<W: Wait>(&self, rt: &W, one: &mut KnownHistory<C>, other: &mut KnownHistory<C>)
        ensures longer { IsPrefix one.old one.new × IsPrefix other.old other.new }
        ensures same { one.new ≡ other.new }
        ensures agree { IsPrefix one.old other.old ⊎ IsPrefix other.old one.old }
    {
        let mut room = self.room.lock(rt);
        room.show(rt, one);
        room.show(rt, other);
    }

    /// All shots that were published so far, for a reader to learn.
    pub fn tell<W: Wait>(&self, rt: &W, known: &mut KnownHistory<C>) -> Told<C>
        ensures longer { IsPrefix known.old known.new }
        ensures shots { IsTold C.opening known.new (λ v. result ≡ v.shots) }
        ensures rising { NeverFalls result }
    {
        let mut room = self.room.lock(rt);
        room.show(rt, known);
        let _steps = room.steps();
        room.tell()
    }

    /// The reply to the input of a ticket; None where its step isn't made yet. `NoMemory` where
    /// memory is refused.
    pub fn reply<W: Wait>(
        &self,
        rt: &W,
        known: &mut KnownHistory<C>,
        ticket: Ticket,
    ) -> Result<Option<Reply<Global>>, NoMemory>
        ensures longer { IsPrefix known.old known.new }
        ensures told { IsTold C.opening known.new (λ v. IfOk result
            (λ reply. reply ≡ reply_at ticket.actor ticket.number v.running.steps)) }
    {
        let mut room = self.room.lock(rt);
        room.show(rt, known);
        let _steps = room.steps();
        room.reply(ticket)
    }

    /// All that step `number` gave, counted from 1; None where there is no such step. `NoMemory`
    /// where memory is refused.
    pub fn effect<W: Wait>(
        &self,
        rt: &W,
        known: &mut KnownHistory<C>,
        number: u64,
    ) -> Result<Option<Effect<Global>>, NoMemory>
        ensures longer { IsPrefix known.old known.new }
        ensures told { IsTold C.opening known.new (λ v. IfOk result
            (λ effect. option_map (λ e. outcome_of e) effect ≡ outcome_at number v.running.steps)) }
    {
        let mut room = self.room.lock(rt);
        room.show(rt, known);
        let _steps = room.steps();
        room.effect(number)
    }

    /// Fills an effect with all that step `number` gave, counted from 1, and returns whose input it
    /// took and when that was handed in; what the effect held is gone. None where there is no such
    /// step: nothing is filled in. `NoMemory` where memory is refused: the effect may then be
    /// filled in part. A caller that reads many steps takes less memory if it fills the same effect
    /// each time.
    pub fn step<W: Wait>(
        &self,
        rt: &W,
        known: &mut KnownHistory<C>,
        number: u64,
        effect: &mut Effect<Global>,
    ) -> Result<Option<(Actor, At)>, NoMemory>
        ensures longer { IsPrefix known.old known.new }
        ensures told { IsTold C.opening known.new (λ v. IfOk result
            (λ source. IsStepOf source (outcome_of effect.new) number v.running.steps)) }
    {
        let mut room = self.room.lock(rt);
        room.show(rt, known);
        let _steps = room.steps();
        room.step(number, effect)
    }

    /// How many steps the run has.
    pub fn steps<W: Wait>(&self, rt: &W, known: &mut KnownHistory<C>) -> usize
        ensures longer { IsPrefix known.old known.new }
        ensures told { IsTold C.opening known.new (λ v. result ≡ length v.running.steps) }
    {
        let mut room = self.room.lock(rt);
        room.show(rt, known);
        room.steps()
    }

    /// Writes the run as a recorded script, as `Room::write_run` does. The room's lock is held
    /// meanwhile.
    pub fn write_run<R: Wait, W: Write>(
        &self,
        rt: &R,
        known: &mut KnownHistory<C>,
        head: bool,
        writer: &mut W,
    ) -> Result<u64, RunFault>
        ensures longer { IsPrefix known.old known.new }
        ensures told { IsTold C.opening known.new (λ v.
            IfOk result (λ count. IsWritten count head v.running.steps
            (W.contents writer.old) (W.contents writer.new))
            × IfErr result (λ fault. StopsWriting fault head v.running.steps
            (W.contents writer.old) (W.contents writer.new))) }
    {
        let mut room = self.room.lock(rt);
        room.show(rt, known);
        let _steps = room.steps();
        room.write_run(head, writer)
    }

    /// Whether the tree has ended: it is closing, and the supervisor of each service in the tree
    /// has ended.
    pub fn ended<W: Wait>(&self, rt: &W, known: &mut KnownHistory<C>) -> bool
        ensures longer { IsPrefix known.old known.new }
        ensures told { IsTold C.opening known.new (λ v. (m : Machine)
            → StandsFor v.running.opening m → result ≡ has_ended (end_of m v.running.steps)) }
    {
        let mut room = self.room.lock(rt);
        room.show(rt, known);
        let _steps = room.steps();
        room.ended()
    }

    /// The next moment, in milliseconds, to which a timer or a deadline is set; None where there is
    /// none.
    pub fn next_due<W: Wait>(&self, rt: &W, known: &mut KnownHistory<C>) -> Option<u64>
        ensures longer { IsPrefix known.old known.new }
        ensures told { IsTold C.opening known.new (λ v. (m : Machine)
            → StandsFor v.running.opening m → result ≡ next_due (end_of m v.running.steps)) }
    {
        let mut room = self.room.lock(rt);
        room.show(rt, known);
        let _steps = room.steps();
        room.next_due()
    }

    /// Asks a lane's backend one order after another, at most `most`, until none is left or the
    /// backend hands one back. Returns what the last `carry_one` did.
    pub fn carry<W: Wait>(&self, rt: &W, lane: usize, most: u64) -> Carried
        requires lane { lane < self.now }
        requires most { 1 ≤ most }
    {
        let mut desk = self.desks[lane].lock(rt);
        carry_many(&mut *desk, most)
    }

    /// The next report of a lane's backend, if it has one.
    pub fn report<W: Wait>(&self, rt: &W, lane: usize) -> Option<Report>
        requires { lane < self.now }
    {
        self.desks[lane].lock(rt).report_one()
    }
}

impl<C: Channels + Lanes, D: Board<C>, B: Backend> Office<C, D, B> {
    /// Closes the run, once each seat has finished and all threads that used the office have
    /// returned; `Room::close` says what else it needs. Ok: the tree, how many steps it made, these
    /// steps, and the backends, in the order of their lanes. Fault: the office and the finishes
    /// come back. All inputs that were done become known. It takes no lock and no memory (`Spare`).
    /// Offices that were each opened on the tree of the one before make one run
    /// (`locked_services::laws::chain`).
    pub fn close<R: Wait>(
        self,
        rt: &R,
        known: &mut KnownHistory<C>,
        finishes: Vec<Finished<C>>,
    ) -> Result<Closed<B>, (Office<C, D, B>, Vec<Finished<C>>, CloseFault)>
        ensures longer { IsPrefix known.old known.new }
        ensures closed { IfOk result (λ closed. IsTold C.opening known.new (λ v.
            IsClosed B.asked C.asked_before v.running finishes.items closed)) }
        ensures run { IfOk result (λ closed. IsRunFrom C.opening closed) }
        ensures fault { IfErr result (λ e. IsTold C.opening known.new (λ v. (desks : List DeskView)
            × IsFault C.asked_before v.running desks finishes.items e.2)) }
        ensures lanes { IfErr result (λ e. e.0 ≡ self) }
        ensures finishes { IfErr result (λ e. e.1.items ≡ finishes.items) }
    {
        let Office { room, desks, spare } = self;
        let Spare {
            desks: spare_desks,
            backends,
        } = spare.into_inner();
        let (locks, desks) = unlock_all(desks, spare_desks);
        let mut room = room.into_inner();
        room.show(rt, known);
        let _steps = room.steps();
        match room.close(desks, backends, finishes) {
            Ok(closed) => Ok(closed),
            Err(
                NotClosed {
                    room,
                    desks,
                    backends,
                    finishes,
                    fault,
                },
            ) => {
                let (desks, emptied) = lock_all(desks, locks);
                let spare = Spare {
                    desks: emptied,
                    backends,
                };
                Err((Office::over(room, desks, spare), finishes, fault))
            }
        }
    }
}

impl<C: Channels + Lanes + Send + Sync, D: Board<C>, B: Backend + Send> Office<C, D, B> {
    /// Serves each lane in a thread of its own, for `turns` turns: in each its backend is asked one
    /// order, if there is one. `NotStarted` names the least lane whose thread could not be made;
    /// each lane whose thread was made was served.
    pub fn serve_lanes<R: Threads + Wait + Sync>(
        &self,
        rt: &R,
        turns: u64,
    ) -> Result<(), NotStarted> {
        let are_served = serve_each(rt, self.desks.as_slice(), turns);
        match first_unserved(are_served.as_slice()) {
            Some(lane) => Err(NotStarted { lane }),
            None => Ok(()),
        }
    }
}

// Serves each desk in a thread of its own. Returns for each lane whether its thread could be made,
// and true where there is no lane.
fn serve_each<B: Backend + Send, L: Lanes + Send + Sync, R: Threads + Wait + Sync>(
    rt: &R,
    desks: &[Mutex<Desk<B, L>>],
    turns: u64,
) -> [bool; LANE_LIMIT] {
    thread::scope(thread::scope_env(), rt, |scope| {
        let mut are_served = [true; LANE_LIMIT];
        for (lane, desk) in desks.iter().enumerate() {
            let is_started = scope.spawn(move || carry_in_turns(rt, desk, turns)).is_ok();
            if let Some(is_served) = are_served.get_mut(lane) {
                *is_served = is_started;
            }
        }
        are_served
    })
}

// The least lane that was not served; None where all were.
fn first_unserved(are_served: &[bool]) -> Option<usize>
    ensures { result ≡ position not are_served.now }
{
    are_served.iter().position(|is_served| !*is_served)
}
