//! The tree: one input is one step, which `step.rt` works out and which is then made here. Where
//! memory is refused, the whole input is handed back.
ghost use Rattle.std.specs.Prelude.{◌≡◌, ◌≤◌, IfOk, OnErr, OnOk, IfErr, IsOk, length, true, option_map};
ghost use Rattle.tree_core.specs.Acts.{offer_of};
ghost use Rattle.tree_core.specs.Effect.{outcome_of};
ghost use Rattle.tree_core.specs.Ended.{has_ended};
ghost use Rattle.tree_core.specs.Machine.{new_machine, Machine};
ghost use Rattle.tree_core.specs.NextDue.{next_due};
ghost use Rattle.tree_core.specs.Replies.{is_subscribed};
ghost use Rattle.tree_core.specs.Plan.{IsQuiet};
ghost use Rattle.tree_core.specs.Rows.{row_named, all_rows};
ghost use Rattle.svscan_core.specs.Table.{charts_of};
ghost use Rattle.tree_core.specs.StandsFor.{StandsFor};
ghost use Rattle.tree_core.specs.Run.{after, outcome};
ghost use Rattle.tree_core.specs.Step.{step_limit};

use super::effect::Effect;
use super::image::Image;
use super::input::{Act, Input};
use super::limits::{SERVICE_LIMIT, is_spent};
use super::next_due::{are_gone, next_timer};
use super::reply::{Refusal, Reply};
use super::rows::{fill_rows, row_of, rows_of};
use super::step::plan_step;
use arrayvec::ArrayVec;
use deadlines::Deadlines;
use event_directory::{Directories, DirectoryAnswer, Pattern};
use s6_events::{At, History, Moment, Name, NoMemory};
use std::alloc::Allocator;
use std::marker::Model;
use supervise_core::Row;
use svscan_core::Registry;
use wait_conditions::{Waits, earlier_of};

/// All services, waiters and event directories, with their clock and their history, of which the
/// moments are forgotten that no waiter needs any more. A tree keeps the allocator that it was made
/// with.
#[derive(Drop)]
pub struct Tree<A: Allocator> {
    pub(crate) clock: At,
    // How many inputs it has taken, at most 2^48.
    pub(crate) steps: u64,
    // Whether a terminate was done.
    pub(crate) closing: bool,
    pub(crate) registry: Registry<A>,
    pub(crate) deadlines: Deadlines<A>,
    pub(crate) history: History<A>,
    pub(crate) waits: Waits<A>,
    pub(crate) directories: Directories<Pattern, A>,
}

impl<A: Allocator> Model for Tree<A> {
    ghost use Rattle.tree_core.specs.StandsFor.{StoredTree};

    ghost Value = { StoredTree };

    ghost use Rattle.tree_core.specs.TreeFields.{tree_view, TreeInvariant};

    ghost view = { tree_view };

    ghost invariant = { TreeInvariant };
}

impl<A: Allocator + Copy> Tree<A> {
    /// A tree with no service, at the moment 0.
    pub fn new(alloc: A) -> Tree<A>
        ensures { StandsFor result new_machine }
    {
        Tree {
            clock: At::zero(),
            steps: 0,
            closing: false,
            registry: Registry::new(alloc),
            deadlines: Deadlines::new(alloc),
            history: History::new(alloc),
            waits: Waits::new(alloc),
            directories: Directories::new(alloc),
        }
    }

    /// Takes one input as `apply_into` does, but works on the caller's, so that it isn't moved.
    /// After Ok its contents are unspecified. At `NoMemory` the input is as it was, and only the
    /// effect has changed. A tree that has taken 2^48 steps is spent, and refuses every input. Else
    /// the step is planned, and then each part commits its share of the plan; last, the history
    /// forgets the moments that no waiter needs.
    pub fn apply_in_place(
        &mut self,
        input: &mut Input<A>,
        effect: &mut Effect<A>,
    ) -> Result<(), NoMemory>
        ensures step { OnOk result ((m : Machine) → StandsFor self.old m →
            (outcome_of effect.new ≡ outcome m input.old)
            × StandsFor self.new (after m input.old)) }
        ensures unchanged { OnErr result ((input.new ≡ input.old) × (self.new ≡ self.old)) }
        ensures spent { self.old.steps ≡ step_limit → IsOk result }
        ensures quiet { IsQuiet input.old self.old.clock (charts_of self.old.services)
            → IsOk result }
    {
        if is_spent(self.steps) {
            effect.clear();
            effect.reply = Reply::Refused(Refusal::Spent);
            return Ok(());
        }
        let planned = plan_step(
            &mut self.registry,
            &mut self.deadlines,
            &mut self.history,
            &mut self.waits,
            &mut self.directories,
            self.clock,
            self.closing,
            input,
            effect,
        );
        let plan = match planned {
            Ok(plan) => plan,
            Err(refused) => return Err(refused),
        };
        // From here on nothing can be refused, so that the pattern of a new subscription (`offer`)
        // may leave the input.
        let offer = take_offer(&mut input.act, &plan.letters.answer);
        self.clock = plan.now;
        self.steps += 1;
        self.closing = plan.closing;
        self.registry.commit(plan.services);
        self.deadlines.commit(plan.timers);
        self.history.commit(plan.history);
        self.waits.commit(plan.waiters);
        self.directories.commit(plan.letters, offer);
        self.history.forget(self.waits.needed_from());
        Ok(())
    }

    /// Takes one input, whole: the clock first, then the due timers, then the act; and fills the
    /// effect with all that the step gives. What was in the effect is gone, but its memory is used
    /// again: a caller that makes many steps keeps one effect, and a step then costs only what it
    /// gives. Where memory is refused the same input comes back with `NoMemory`, and only the
    /// effect has changed.
    pub fn apply_into(
        &mut self,
        mut input: Input<A>,
        effect: &mut Effect<A>,
    ) -> Result<(), (Input<A>, NoMemory)>
        ensures step { OnOk result ((m : Machine) → StandsFor self.old m →
            (outcome_of effect.new ≡ outcome m input) × StandsFor self.new (after m input)) }
        ensures unchanged { IfErr result (λ back. (back.0 ≡ input) × (self.new ≡ self.old)) }
        ensures spent { self.old.steps ≡ step_limit → IsOk result }
        ensures quiet { IsQuiet input self.old.clock (charts_of self.old.services) → IsOk result }
    {
        match self.apply_in_place(&mut input, effect) {
            Ok(()) => Ok(()),
            Err(refused) => Err((input, refused)),
        }
    }

    /// The clock: the greatest moment of all inputs so far, without those that a spent tree
    /// refused; or 0.
    pub fn now(&self) -> At
        ensures clock { (m : Machine) → StandsFor self.now m → result ≡ m.clock }
        ensures there { (m : Machine) × StandsFor self.now m }
    {
        self.clock
    }

    /// The status row of the service of this name; None where there is none. Page `s6-svstat`.
    pub fn row(&self, name: Name) -> Option<Row>
        ensures { (m : Machine) → StandsFor self.now m → result ≡ row_named name m }
    {
        row_of(&self.registry, name, self.clock)
    }

    /// The status rows of all services, in rising serial. Page `s6-svstat`.
    pub fn rows(&self) -> ArrayVec<Row, SERVICE_LIMIT>
        ensures { (m : Machine) → StandsFor self.now m → result.items ≡ all_rows m }
    {
        rows_of(&self.registry, self.clock)
    }

    /// Fills a list with the rows that `rows` gives, at most 256; what it held is gone. `NoMemory`
    /// where memory is refused: the list is then filled in part. Each row is written once.
    pub fn fill_rows<B: Allocator>(&self, rows: &mut Vec<Row, B>) -> Result<(), NoMemory>
        ensures each { OnOk result ((m : Machine) → StandsFor self.now m
            → rows.new.items ≡ all_rows m) }
        ensures count { OnOk result (length rows.new.items ≤ 256) }
    {
        fill_rows(&self.registry, self.clock, rows)
    }

    /// The next moment, in milliseconds, to which the timer of a service is set, or at which a
    /// waiter that waits still has its deadline; None where there is none. Until then nothing
    /// happens by itself.
    pub fn next_due(&self) -> Option<u64>
        ensures { (m : Machine) → StandsFor self.now m → result ≡ next_due m }
    {
        earlier_of(next_timer(&self.registry), self.waits.next_deadline())
    }

    /// Whether it has ended: it is closing, and the supervisor of each service has ended.
    pub fn ended(&self) -> bool
        ensures { (m : Machine) → StandsFor self.now m → result ≡ has_ended m }
    {
        self.closing && are_gone(&self.registry)
    }

    /// All that it stores as plain data: an image agrees with the same states of the written
    /// machine (`specs/`) as its tree. `NoMemory` where memory is refused.
    pub fn image(&self) -> Result<Image<A>, NoMemory>
        ensures { IfOk result (λ image. image ≡ self.now) }
    {
        let alloc = self.registry.allocator();
        let registry = self.registry.image(alloc)?;
        // The moments before this place, which no waiter needs, are forgotten.
        let forgotten = self.waits.needed_from();
        let kept = Vec::from_slice(alloc, kept_of(&self.history, forgotten))?;
        let waits = self.waits.image(alloc)?;
        let directories = self.directories.image(alloc)?;
        Ok(Image {
            clock: self.clock,
            steps: self.steps,
            closing: self.closing,
            registry,
            forgotten,
            kept,
            waits,
            directories,
        })
    }

    /// How many steps it has taken, at most 2^48.
    pub fn steps(&self) -> u64
        ensures { (m : Machine) → StandsFor self.now m → result ≡ m.steps }
    {
        self.steps
    }
}

// The moments that the history keeps: those from this place on, since the ones before it are
// forgotten.
fn kept_of<A: Allocator + Copy>(history: &History<A>, forgotten: u64) -> &[Moment]
    requires { history.now.forgotten ≡ forgotten }
    ensures { result.now ≡ history.now.kept }
{
    match history.from(forgotten) {
        Some(moments) => moments,
        // Each step forgets only what is before `needed_from`, which is the place that is asked
        // for.
        None => unreachable!(),
    }
}

// Takes the pattern that the act offers out of it, and whether it is to repeat, if the event
// directories answered with a new subscription. Else the act, which is large, is not moved.
fn take_offer<A: Allocator>(act: &mut Act<A>, told: &DirectoryAnswer) -> Option<(Pattern, bool)>
    ensures { is_subscribed told.now ≡ true
        → option_map (λ o. (o.0, o.1)) result ≡ offer_of act.old }
{
    match told {
        DirectoryAnswer::Subscribed(_) => take_pattern(act),
        _ => None,
    }
}

// Takes the pattern that an act offers out of it, and leaves a tick. It is a function of its own:
// inlined, each step would fill places for two acts.
#[inline(never)]
fn take_pattern<A: Allocator>(act: &mut Act<A>) -> Option<(Pattern, bool)>
    ensures { option_map (λ o. (o.0, o.1)) result ≡ offer_of act.old }
{
    match std::mem::replace(act, Act::Tick) {
        Act::Subscribe(_, pattern, repeats) => Some((pattern, repeats)),
        _ => None,
    }
}
