//! A tree with its run, the ends of the rings that it takes from, and the lanes that it sends into.
ghost use Rattle.std.specs.Prelude.{◌≡◌, ◌≢◌, ◌⊎◌, ◌∷◌, ◌++◌, [], ◌≤◌, ◌<◌, ℕ, length, None, IfSome, IfNone, IsSome, IsTrue, IsFalse, OnOk, OnErr, IfOk, IfErr, Some, true, false, option_map, option_to_list, vec_capacity};
ghost use Rattle.tree_core.specs.Effect.{outcome_of};
ghost use Rattle.tree_core.specs.Ended.{has_ended};
ghost use Rattle.tree_core.specs.Limits.{order_limit};
ghost use Rattle.tree_core.specs.Machine.{Machine};
ghost use Rattle.tree_core.specs.NextDue.{next_due};
ghost use Rattle.tree_core.specs.StandsFor.{StandsFor};
ghost use Rattle.run_records.specs.Runs.{RunStep, end_of, actor_at, moment_at, outcome_at, IsFilled, reply_at};
ghost use Rattle.run_records.specs.RunText.{IsWritten, StopsWriting};
ghost use Rattle.locked_services.specs.Rings.{TakeMost, TakesBy, most_taken};
ghost use Rattle.locked_services.specs.Submissions.{AreNumbered, Give, NoneSeen, taken_from};
ghost use Rattle.locked_services.specs.Running.{run_limit, IsSoundRunning};
ghost use Rattle.locked_services.specs.Closing.{AreComplete, AreDone, AreSameDesks, AreServed, IsFault, IsInputLeft, IsOrderLeft, IsSameRunning};
ghost use Rattle.locked_services.specs.declared.closing.CloseFault.TheVariants.{Missing, Left};
ghost use Rattle.locked_services.specs.Shots.{shot_of, Grows};
ghost use Rattle.locked_services.specs.declared.stop.Stop.TheVariants.{Done, Idle, RunFull, Blocked};
ghost use Rattle.locked_services.specs.declared.stop.DriveStop.TheVariants as ended;
ghost use Rattle.order_lanes.specs.Lane.{HaveRoom, IsBlocked, sent_in};

use crate::beginning::Beginning;
use crate::closing::{CloseFault, input_fault};
use crate::next_input::take_next;
use crate::serving::are_served;
use crate::stop::{DriveStop, Driven, Stop};
use channel_names::Channels;
use inbox::{Drain, Finished, Ticket};
use order_lanes::{Backend, Desk, Lane, Lanes, blocked_lane, send_all};
use run_records::{RUN_LIMIT, Run, RunFault};
use s6_events::{Actor, At, NoMemory};
use status_board::StandingRows;
use std::alloc::Global;
use std::io::Write;
use std::marker::Model;
use step_codes::{KeptInput, told_of};
use tree_core::{Effect, Image, Input, ORDER_LIMIT, Reply, Tree};

/// A tree with its run so far, the ends of the rings that it takes inputs from, an input that was
/// taken and isn't done, and the lanes that it sends orders into. Its invariant is what is promised
/// of a run at every moment.
#[derive(Drop)]
pub struct RunningTree<C: Channels + Lanes> {
    // Gives memory to later calls, such as those that read replies or rows.
    alloc: Global,
    // What the tree stored when the run began. Contracts tell the run from there on.
    opening: Image<Global>,
    tree: Box<Tree<Global>>,
    run: Run,
    // Filled anew by each step: its list of orders is large, and to make a new one would cost more
    // than most steps do.
    effect: Box<Effect<Global>>,
    drains: Vec<Drain<C>>,
    held: Option<Input<Global>>,
    lanes: Vec<Lane<C>>,
}

impl<C: Channels + Lanes> Model for RunningTree<C> {
    ghost use Rattle.locked_services.specs.Running.{RunningView, IsSoundRunning};

    ghost Value = { RunningView };

    ghost view = { λ r. record { opening = r.opening; tree = r.tree.value; steps = r.run.steps; drains = r.drains.items; held = r.held; lanes = r.lanes.items } };

    ghost invariant = { λ r. IsSoundRunning
        (record {
          opening = r.opening;
          tree = r.tree.value;
          steps = r.run.steps;
          drains = r.drains.items;
          held = r.held;
          lanes = r.lanes.items;
        }) };
}

impl<C: Channels + Lanes> RunningTree<C> {
    /// A run that begins with this tree: no step is made, and nothing was taken or sent.
    pub fn begin(
        alloc: Global,
        beginning: Beginning,
        tree: Box<Tree<Global>>,
        drains: Vec<Drain<C>>,
        lanes: Vec<Lane<C>>,
    ) -> RunningTree<C>
        requires opening { beginning.opening ≡ tree.value }
        requires steps { beginning.run.steps ≡ [] }
        requires numbered { AreNumbered drains.items }
        requires untaken { (actor : ℕ) → taken_from actor drains.items ≡ [] }
        requires lanes { 0 < length lanes.items }
        requires unsent { (k : ℕ) → sent_in k lanes.items ≡ [] }
        ensures { result ≡ record {
          opening = tree.value;
          tree = tree.value;
          steps = [];
          drains = drains.items;
          held = None;
          lanes = lanes.items;
        } }
    {
        let Beginning {
            opening,
            run,
            effect,
        } = beginning;
        // For the proof alone: the contract of `now` says that there is a machine for which the
        // tree stands.
        let _clock = tree.now();
        RunningTree {
            alloc,
            opening,
            tree,
            run,
            effect,
            drains,
            held: None,
            lanes,
        }
    }

    // Takes an input from the rings into `held`, the input of the next step, if none is there.
    // Returns whether one is there now.
    fn fetch(&mut self) -> bool
        ensures opening { self.new.opening ≡ self.old.opening }
        ensures tree { self.new.tree ≡ self.old.tree }
        ensures steps { self.new.steps ≡ self.old.steps }
        ensures lanes { self.new.lanes ≡ self.old.lanes }
        ensures kept { IsSome self.old.held → (self.new.held ≡ self.old.held)
            × (self.new.drains ≡ self.old.drains) }
        ensures taken { self.old.held ≡ None
            → Give (option_to_list self.new.held) self.old.drains self.new.drains }
        ensures yes { IsTrue result → IsSome self.new.held }
        ensures no { IsFalse result → (self.new.held ≡ None) × NoneSeen self.new.drains }
    {
        if self.held.is_some() {
            return true;
        }
        take_next(&mut self.drains, &mut self.held)
    }

    // The least lane, a ring of orders to a backend, that may have no room for the orders of a
    // step; None where each has room.
    fn blocked(&mut self) -> Option<usize>
        ensures opening { self.new.opening ≡ self.old.opening }
        ensures tree { self.new.tree ≡ self.old.tree }
        ensures steps { self.new.steps ≡ self.old.steps }
        ensures held { self.new.held ≡ self.old.held }
        ensures drains { self.new.drains ≡ self.old.drains }
        ensures blocked { IfSome result (λ k. IsBlocked order_limit k self.new.lanes) }
        ensures room { IfNone result (HaveRoom order_limit self.new.lanes) }
    {
        blocked_lane(&mut self.lanes, ORDER_LIMIT)
    }

    // Makes the step of the input that is held, which a record can keep as `kept`. `NoMemory` where
    // memory is refused: the input is then still held, and the tree and the steps are as they were.
    #[inline(always)]
    fn make_kept<I: KeptInput>(&mut self, kept: I) -> Result<(), NoMemory>
        requires held { self.old.held ≡ Some (I.input kept) }
        requires few { length self.old.steps < run_limit }
        requires room { HaveRoom order_limit self.old.lanes }
        ensures opening { self.new.opening ≡ self.old.opening }
        ensures drains { self.new.drains ≡ self.old.drains }
        ensures made { OnOk result ((self.new.held ≡ None)
            × ((s : RunStep) × (self.old.held ≡ Some s.input)
            × (self.new.steps ≡ self.old.steps ++ s ∷ []))) }
        ensures refused { OnErr result ((self.new.held ≡ self.old.held)
            × (self.new.tree ≡ self.old.tree) × (self.new.steps ≡ self.old.steps)) }
    {
        // An input is held: the clause `held` asks for it.
        let Some(input) = &mut self.held else {
            unreachable!()
        };
        // Room for the step is made first: nothing may be refused once the tree has made it.
        self.run.reserve(kept.actor())?;
        let effect = &mut *self.effect;
        // The tree makes the step, and fills `effect` with all that it gave.
        self.tree.apply_in_place(input, effect)?;
        // The input is done.
        self.held = None;
        // For the proof alone: the contract of `len` says that there are at most `ORDER_LIMIT`
        // orders, for which each lane has room.
        let _count = effect.orders.len();
        send_all(&mut self.lanes, effect.orders.as_slice());
        self.run.add(kept, effect);
        Ok(())
    }

    // Makes the step of the input that is held, of any kind. It is not inlined, since most inputs
    // are ticks and reports.
    #[inline(never)]
    fn make_any(&mut self) -> Result<(), NoMemory>
        requires held { IsSome self.old.held }
        requires few { length self.old.steps < run_limit }
        requires room { HaveRoom order_limit self.old.lanes }
        ensures opening { self.new.opening ≡ self.old.opening }
        ensures drains { self.new.drains ≡ self.old.drains }
        ensures made { OnOk result ((self.new.held ≡ None)
            × ((s : RunStep) × (self.old.held ≡ Some s.input)
            × (self.new.steps ≡ self.old.steps ++ s ∷ []))) }
        ensures refused { OnErr result ((self.new.held ≡ self.old.held)
            × (self.new.tree ≡ self.old.tree) × (self.new.steps ≡ self.old.steps)) }
    {
        // An input is held: the clause `held` asks for it.
        let Some(input) = &self.held else {
            unreachable!()
        };
        // A copy for the record, since the tree takes the input itself.
        let plain = input.plain(self.alloc)?;
        self.make_kept(plain)
    }

    // Makes the step of the input that is held. `NoMemory` where memory is refused: the input is
    // then still held, and the tree and the steps are as they were.
    #[inline(always)]
    fn make_step(&mut self) -> Result<(), NoMemory>
        requires held { IsSome self.old.held }
        requires few { length self.old.steps < run_limit }
        requires room { HaveRoom order_limit self.old.lanes }
        ensures opening { self.new.opening ≡ self.old.opening }
        ensures drains { self.new.drains ≡ self.old.drains }
        ensures made { OnOk result ((self.new.held ≡ None)
            × ((s : RunStep) × (self.old.held ≡ Some s.input)
            × (self.new.steps ≡ self.old.steps ++ s ∷ []))) }
        ensures refused { OnErr result ((self.new.held ≡ self.old.held)
            × (self.new.tree ≡ self.old.tree) × (self.new.steps ≡ self.old.steps)) }
    {
        // An input is held: the clause `held` asks for it.
        let Some(input) = &self.held else {
            unreachable!()
        };
        // Ticks and most reports are kept in a few words, all other inputs as a plain copy.
        match told_of(input) {
            Some(told) => self.make_kept(told),
            None => self.make_any(),
        }
    }

    /// Makes one step, of the input that is held or, where none is held, of one that it takes from
    /// the rings. Before that it looks for what prevents a step, in this order: a full run, a lane
    /// that may have no room, no input.
    pub fn step_one(&mut self) -> Stop
        ensures opening { self.new.opening ≡ self.old.opening }
        ensures done { result ≡ Done → (s : RunStep) × (self.new.steps ≡ self.old.steps ++ s ∷ [])
            × (IsSome self.old.held → self.old.held ≡ Some s.input) }
        ensures other { result ≢ Done → (self.new.steps ≡ self.old.steps)
            × (self.new.tree ≡ self.old.tree) }
        ensures blocked { (k : ℕ) → result ≡ Blocked k → IsBlocked order_limit k self.new.lanes }
        ensures full { result ≡ RunFull → run_limit ≤ length self.new.steps }
        ensures limit { run_limit ≤ length self.old.steps → result ≡ RunFull }
        ensures idle { result ≡ Idle → (self.new.held ≡ None) × NoneSeen self.new.drains
            × HaveRoom order_limit self.new.lanes }
        ensures rings { TakesBy result self.old self.new }
    {
        if self.run.len() >= RUN_LIMIT {
            return Stop::RunFull;
        }
        // Asked before an input is taken, so that no input is left half done.
        if let Some(lane) = self.blocked() {
            return Stop::Blocked(lane);
        }
        if !self.fetch() {
            return Stop::Idle;
        }
        match self.make_step() {
            Ok(()) => Stop::Done,
            Err(NoMemory) => Stop::NoMemory,
        }
    }

    /// Makes at most `most` steps, and returns how many it made and why it ended.
    pub fn step_many(&mut self, most: u64) -> Driven
        ensures opening { self.new.opening ≡ self.old.opening }
        ensures steps { Grows result.steps self.old.steps self.new.steps }
        ensures most { result.steps ≤ most }
        ensures count { result.stop ≡ ended.Count → result.steps ≡ most }
        ensures blocked { (k : ℕ) → result.stop ≡ ended.Blocked k
            → IsBlocked order_limit k self.new.lanes }
        ensures full { result.stop ≡ ended.RunFull → run_limit ≤ length self.new.steps }
        ensures limit { run_limit ≤ length self.old.steps → 1 ≤ most
            → result.stop ≡ ended.RunFull }
        ensures idle { result.stop ≡ ended.Idle → (self.new.held ≡ None)
            × NoneSeen self.new.drains × HaveRoom order_limit self.new.lanes }
        ensures rings { TakeMost (most_taken result.stop result.steps) self.old self.new }
    {
        for steps in 0..most {
            let stop = match self.step_one() {
                Stop::Done => continue,
                Stop::Idle => DriveStop::Idle,
                Stop::Blocked(lane) => DriveStop::Blocked(lane),
                Stop::RunFull => DriveStop::RunFull,
                Stop::NoMemory => DriveStop::NoMemory,
            };
            return Driven { steps, stop };
        }
        Driven {
            steps: most,
            stop: DriveStop::Count,
        }
    }

    /// How many steps were made. The clause `sound` is what is promised of a run at every moment.
    pub fn steps(&self) -> usize
        ensures count { result ≡ length self.now.steps }
        ensures sound { IsSoundRunning self.now }
    {
        self.run.len()
    }

    /// The present state, to be published: the rows of all services, and how many steps the tree
    /// has made. `NoMemory` where memory is refused.
    pub fn rows(&self) -> Result<StandingRows<Global>, NoMemory>
        ensures begins { (m : Machine) × StandsFor self.now.opening m }
        ensures rows { IfOk result (λ rows. (m : Machine) → StandsFor self.now.opening m →
            rows ≡ shot_of (end_of m self.now.steps)) }
    {
        let tree = &*self.tree;
        // Rows are published with the number of the step that they show.
        let at = tree.steps();
        let mut rows = Vec::new(self.alloc);
        tree.fill_rows(&mut rows)?;
        Ok(StandingRows::new(at, rows))
    }

    /// The reply to the input of a ticket; None where its step isn't made yet. `NoMemory` where
    /// memory is refused.
    pub fn reply(&self, ticket: Ticket) -> Result<Option<Reply<Global>>, NoMemory>
        ensures { IfOk result
            (λ reply. reply ≡ reply_at ticket.actor ticket.number self.now.steps) }
    {
        self.run.reply(self.alloc, ticket.actor, ticket.number)
    }

    /// All that step `number` gave, counted from 1; None where there is no such step. `NoMemory`
    /// where memory is refused.
    pub fn effect(&self, number: u64) -> Result<Option<Effect<Global>>, NoMemory>
        ensures { IfOk result
            (λ effect. option_map (λ e. outcome_of e) effect ≡ outcome_at number self.now.steps) }
    {
        self.run.effect(self.alloc, number)
    }

    /// Fills an effect with all that step `number` gave, as `Run::fill` does.
    pub fn fill(&self, number: u64, effect: &mut Effect<Global>) -> Result<bool, NoMemory>
        ensures { IfOk result
            (λ is_there. IsFilled is_there (outcome_of effect.new) number self.now.steps) }
    {
        self.run.fill(number, effect)
    }

    /// Whose input step `number` took, counted from 1; None where there is no such step.
    pub fn actor(&self, number: u64) -> Option<Actor>
        ensures { result ≡ actor_at number self.now.steps }
    {
        self.run.actor(number)
    }

    /// The moment at which the input of step `number` was handed in, counted from 1; None where
    /// there is no such step.
    pub fn moment(&self, number: u64) -> Option<At>
        ensures { result ≡ moment_at number self.now.steps }
    {
        self.run.moment(number)
    }

    /// Writes the steps as a recorded script, as `Run::write` does.
    pub fn write_run<W: Write>(&self, head: bool, writer: &mut W) -> Result<u64, RunFault>
        ensures ok { IfOk result (λ count. IsWritten count head self.now.steps
            (W.contents writer.old) (W.contents writer.new)) }
        ensures fault { IfErr result (λ fault. StopsWriting fault head self.now.steps
            (W.contents writer.old) (W.contents writer.new)) }
    {
        self.run.write(self.alloc, head, writer)
    }

    // Why the run can't be closed with these finishes, by its inputs alone; None where these allow
    // it.
    fn input_fault(&mut self, finishes: &mut Vec<Finished<C>>) -> Option<CloseFault>
        ensures same { IsSameRunning self.old self.new }
        ensures lanes { self.new.lanes ≡ self.old.lanes }
        ensures finishes { finishes.new.items ≡ finishes.old.items }
        ensures missing { result ≡ Some Missing
            → AreComplete (length self.old.drains) finishes.old.items → ⊥ }
        ensures left { result ≡ Some Left
            → AreComplete (length self.old.drains) finishes.old.items
            × (IsSome self.old.held ⊎ IsInputLeft self.old.drains finishes.old.items) }
        ensures complete { IfNone result
            (AreComplete (length self.old.drains) finishes.old.items) }
        ensures done { IfNone result (AreDone self.old.steps finishes.old.items) }
    {
        let is_held = self.held.is_some();
        input_fault(&mut self.drains, finishes, is_held)
    }

    // Whether the desks are just those of the lanes, in the order of their numbers, and each
    // backend was asked all orders of its lane.
    fn is_served<B: Backend>(&mut self, desks: &mut Vec<Desk<B, C>>) -> bool
        ensures same { IsSameRunning self.old self.new }
        ensures desks { AreSameDesks desks.old.items desks.new.items }
        ensures room { vec_capacity desks.new ≡ vec_capacity desks.old }
        ensures yes { result ≡ true → AreServed C.asked_before self.old.lanes desks.old.items }
        ensures each { result ≡ true → length desks.old.items ≡ length self.old.lanes }
        ensures no { result ≡ false → IsOrderLeft C.asked_before self.old.lanes desks.old.items }
    {
        are_served(&mut self.lanes, desks)
    }

    /// Why the run can't be closed with these desks and finishes; None where it can be. Missing
    /// finishes are looked for first.
    pub fn close_fault<B: Backend>(
        &mut self,
        desks: &mut Vec<Desk<B, C>>,
        finishes: &mut Vec<Finished<C>>,
    ) -> Option<CloseFault>
        ensures same { IsSameRunning self.old self.new }
        ensures desks { AreSameDesks desks.old.items desks.new.items }
        ensures room { vec_capacity desks.new ≡ vec_capacity desks.old }
        ensures finishes { finishes.new.items ≡ finishes.old.items }
        ensures fault { IfSome result
            (λ fault. IsFault C.asked_before self.old desks.old.items finishes.old.items fault) }
        ensures complete { IfNone result
            (AreComplete (length self.old.drains) finishes.old.items) }
        ensures done { IfNone result (AreDone self.old.steps finishes.old.items) }
        ensures served { IfNone result
            (AreServed C.asked_before self.old.lanes desks.old.items) }
        ensures each { IfNone result (length desks.old.items ≡ length self.old.lanes) }
    {
        if let Some(fault) = self.input_fault(finishes) {
            return Some(fault);
        }
        if !self.is_served(desks) {
            return Some(CloseFault::Left);
        }
        None
    }

    /// The tree, and its run, which has the steps. The ends of the rings and the lanes are dropped.
    pub fn into_parts(self) -> (Box<Tree<Global>>, Run)
        ensures tree { result.0.value ≡ self.tree }
        ensures run { result.1.steps ≡ self.steps }
    {
        let RunningTree { tree, run, .. } = self;
        (tree, run)
    }

    /// Whether the tree has ended: it is closing, and the supervisor of each service in the tree
    /// has ended.
    pub fn ended(&self) -> bool
        ensures { (m : Machine) → StandsFor self.now.opening m
            → result ≡ has_ended (end_of m self.now.steps) }
    {
        self.tree.ended()
    }

    /// The next moment, in milliseconds, to which a timer or a deadline is set; None where there is
    /// none.
    pub fn next_due(&self) -> Option<u64>
        ensures { (m : Machine) → StandsFor self.now.opening m
            → result ≡ next_due (end_of m self.now.steps) }
    {
        self.tree.next_due()
    }
}
