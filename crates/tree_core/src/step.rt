//! A step, in its order: clock, due timers, act, who looks at its moments, reply. It is worked out
//! before anything is changed; `apply_into` of `tree.rt` makes it, or hands the input back where
//! memory was refused. `work_out` of svscan_core (`pending.rt`) does the due timers, in rising
//! serial, and then the act's work.
ghost use Rattle.std.specs.Prelude.{◌≡◌, ◌++◌, ◌≤◌, List, [], length, map, true, false, IfOk, IsOk, OnOk};
ghost use Rattle.svscan_core.specs.Registry.{registry_prepared, result_of};
ghost use Rattle.svscan_core.specs.Table.{charts_of};
ghost use Rattle.tree_core.specs.Acts.{tally_reply};
ghost use Rattle.tree_core.specs.Choices.{chosen_of, lists_more};
ghost use Rattle.tree_core.specs.Effect.{IsEmpty};
ghost use Rattle.tree_core.specs.Limits.{order_limit};
ghost use Rattle.tree_core.specs.Listening.{as_match, as_release};
ghost use Rattle.tree_core.specs.Plan.{IsQuiet};
ghost use Rattle.tree_core.specs.Replies.{ListenersAnswer, tally_in, chosen_reply, released_by_answer, waiter_reply, directory_reply};
ghost use Rattle.tree_core.specs.StepParts.{CanCount, FitsIn, GrowsBy, PlansStep, StandAsBefore, answers_of, parts_of, work_prepared};
ghost use Rattle.tree_core.specs.declared.reply.Reply.TheVariants.{Done};
ghost use Rattle.supervise_core.specs.Service.{Supervised};

use super::choice::{Choice, choose};
use super::clock::{later, moments_of};
use super::effect::Effect;
use super::input::Input;
use super::reply::{Refusal, Reply, ScanReport, TallyReport};
use deadlines::{Deadlines, DeadlinesPlan};
use event_directory::{Directories, DirectoriesPlan, DirectoryAnswer, DirectoryFault, Pattern};
use s6_events::{At, History, HistoryPlan, Name, NoMemory};
use std::alloc::Allocator;
use svscan_core::{Registry, RegistryPlan};
use wait_conditions::{WaitAnswer, Waits, WaitsPlan};

/// A step that is worked out before anything is changed: the clock after it, whether the tree is
/// closing then, and the plan of each part.
#[derive(Drop)]
pub struct StepPlan<A: Allocator> {
    pub now: At,
    pub closing: bool,
    pub services: RegistryPlan,
    pub timers: DeadlinesPlan<A>,
    pub history: HistoryPlan<A>,
    pub waiters: WaitsPlan<A>,
    /// The plan of the event directories.
    pub letters: DirectoriesPlan<A>,
}

// The reply with the last deaths of the service of this name. NoService where no service has it.
fn tally_of<A: Allocator + Copy>(
    alloc: A,
    registry: &Registry<A>,
    name: Name,
) -> Result<Reply<A>, NoMemory>
    ensures { IfOk result (λ reply. reply
        ≡ tally_reply (tally_in name registry.now.shown.services)) }
{
    match registry.named(name) {
        Some(service) => Ok(Reply::Tally(TallyReport::new(service.tally().list(alloc)?))),
        None => Ok(Reply::Refused(Refusal::NoService)),
    }
}

// The reply about a waiter that is to be made or to end, by the answer of the waiters (`told`).
fn waiter_reply<A: Allocator>(told: &WaitAnswer) -> Reply<A>
    ensures { result ≡ waiter_reply told.now }
{
    match told {
        WaitAnswer::Added(id, _) => Reply::Waiter(*id),
        // `wait` of `refusals.rt` has refused bad names before, so that only the limit of waiters
        // is left.
        WaitAnswer::Refused(_) => Reply::Refused(Refusal::TooMany),
        // There was no such waiter to be cancelled.
        WaitAnswer::Cancelled(false) => Reply::Refused(Refusal::NoSuch),
        WaitAnswer::Cancelled(true) | WaitAnswer::Nothing => Reply::Done,
    }
}

// The reply about what was asked of the event directories, by their answer (`told`).
fn directory_reply<A: Allocator>(told: &DirectoryAnswer) -> Reply<A>
    ensures { result ≡ directory_reply told.now }
{
    match told {
        DirectoryAnswer::Done => Reply::Done,
        DirectoryAnswer::Subscribed(id) => Reply::Subscription(*id),
        DirectoryAnswer::Refused(DirectoryFault::NoSuch) => Reply::Refused(Refusal::NoSuch),
        DirectoryAnswer::Refused(DirectoryFault::TooMany) => Reply::Refused(Refusal::TooMany),
        DirectoryAnswer::Refused(DirectoryFault::Exists) => Reply::Refused(Refusal::Exists),
    }
}

// The reply to a choice, whose work the registry has worked out. `waiters` and `directories` are
// the answers to what it asks of the waiters and of the event directories. It is a function of its
// own, since most replies are just Done.
#[inline(never)]
fn reply_to<A: Allocator + Copy>(
    alloc: A,
    registry: &Registry<A>,
    choice: &Choice,
    waiters: &WaitAnswer,
    directories: &DirectoryAnswer,
) -> Result<Reply<A>, NoMemory>
    ensures reply { IfOk result (λ reply. reply ≡ chosen_reply (chosen_of choice.now)
        registry.now.shown.services (work_prepared registry.now)
        (record { waiters = waiters.now; directories = directories.now })) }
    ensures quiet { lists_more (chosen_of choice.now) ≡ false → IsOk result }
{
    Ok(match choice {
        Choice::Refuse(why) => Reply::Refused(*why),
        Choice::Report(_, _) if registry.is_stale() => Reply::Refused(Refusal::Stale),
        // Which services the scan drops, and what becomes of each listed name for which there was
        // no service.
        Choice::Listing(_) => Reply::Scanned(ScanReport::new(
            registry.dropped().to_vec(alloc)?,
            registry.listed().to_vec(alloc)?,
        )),
        Choice::Show(row) => Reply::Row(*row),
        Choice::Tally(name) => tally_of(alloc, registry, *name)?,
        Choice::Failure(fails) => Reply::PermanentFailure(*fails),
        Choice::Wait(_, _, _, _) | Choice::Cancel(_) => waiter_reply(waiters),
        Choice::MakeDirectory(_)
        | Choice::Send(_, _)
        | Choice::Subscribe(_)
        | Choice::Unsubscribe(_) => directory_reply(directories),
        Choice::Report(_, _) | Choice::Nothing | Choice::Letters(_, _) | Choice::Command(_) => {
            Reply::Done
        }
    })
}

// Whether the reply is known to be Done without a look at the answers of the waiters and of the
// event directories.
fn is_just_done<A: Allocator + Copy>(registry: &Registry<A>, choice: &Choice) -> bool
    ensures { result ≡ true → (services : List Supervised) → (told : ListenersAnswer)
        → chosen_reply {A = A} (chosen_of choice.now) services
        (result_of (registry_prepared services registry.now.planned)) told ≡ Done }
{
    match choice {
        Choice::Report(_, _) => !registry.is_stale(),
        Choice::Nothing | Choice::Letters(_, _) | Choice::Command(_) => true,
        _ => false,
    }
}

// Fills an empty effect (all that the step gives) with what the parts prepared: the marks and
// orders of services, the matches of subscriptions, the releases of waiters, and the reply.
#[inline(always)]
fn fill_effect<A: Allocator + Copy>(
    registry: &Registry<A>,
    choice: &Choice,
    waiters: &WaitsPlan<A>,
    letters: &DirectoriesPlan<A>,
    effect: &mut Effect<A>,
) -> Result<(), NoMemory>
    requires empty { IsEmpty effect.old }
    requires few { length registry.now.planned.orders ≤ order_limit }
    ensures reply { OnOk result (effect.new.reply ≡ chosen_reply (chosen_of choice.now)
        registry.now.shown.services (work_prepared registry.now)
        (answers_of waiters.now letters.now)) }
    ensures events { OnOk result (effect.new.events.items ≡ registry.now.planned.events) }
    ensures orders { OnOk result (effect.new.orders.items ≡ registry.now.planned.orders) }
    ensures matched { OnOk result
        (effect.new.matched.items ≡ map as_match letters.now.matches.items) }
    ensures released { OnOk result (effect.new.released.items
        ≡ map as_release waiters.now.released
        ++ map as_release (released_by_answer waiters.now.answer)) }
    ensures quiet { lists_more (chosen_of choice.now) ≡ false → registry.now.planned.events ≡ []
        → letters.now.matches.items ≡ [] → waiters.now.released ≡ []
        → released_by_answer waiters.now.answer ≡ [] → IsOk result }
{
    effect.tell(registry.events(), registry.orders())?;
    effect.match_all(letters)?;
    effect.release_all(waiters)?;
    if !is_just_done(registry, choice) {
        let alloc = registry.allocator();
        let answer = waiters.answer();
        effect.reply = reply_to(alloc, registry, choice, &answer, &letters.answer)?;
    }
    Ok(())
}

/// Works out the step of an input, at this clock: each part prepares its share, and the effect is
/// filled. Nothing is changed yet. `find_due` notes the services whose timers are due, and `choose`
/// what the act asks of each part; the moments of the step (`joining`) will join the history, from
/// which their list is borrowed. This is the one place that works out the new clock, and which
/// services are due. It is called at one place, and is inlined there so that its plan, which is
/// large, isn't moved.
#[inline(always)]
pub fn plan_step<A: Allocator + Copy>(
    registry: &mut Registry<A>,
    deadlines: &mut Deadlines<A>,
    history: &mut History<A>,
    waits: &mut Waits<A>,
    directories: &mut Directories<Pattern, A>,
    clock: At,
    closing: bool,
    input: &Input<A>,
    effect: &mut Effect<A>,
) -> Result<StepPlan<A>, NoMemory>
    requires { CanCount registry.old deadlines.old waits.old directories.old }
    ensures same { StandAsBefore
        (parts_of registry.old deadlines.old history.old waits.old directories.old)
        (parts_of registry.new deadlines.new history.new waits.new directories.new) }
    ensures step { IfOk result (λ plan. PlansStep clock closing
        (parts_of registry.old deadlines.old history.old waits.old directories.old) input.now plan
        (parts_of registry.new deadlines.new history.new waits.new directories.new) effect.new) }
    ensures fits { IfOk result (λ plan. FitsIn plan
        (parts_of registry.new deadlines.new history.new waits.new directories.new)) }
    ensures grows { IfOk result (λ plan. GrowsBy
        (parts_of registry.old deadlines.old history.old waits.old directories.old) plan
        (parts_of registry.new deadlines.new history.new waits.new directories.new)) }
    ensures quiet { IsQuiet input.now clock (charts_of registry.old.shown.services) → IsOk result }
{
    effect.clear();
    let alloc = registry.allocator();
    // Called only for the proof: the contract of `len` says that the table of services is sound.
    let _count = registry.len();
    let now = later(clock, input.at);
    deadlines.find_due(now)?;
    let mut choice = Choice::Nothing;
    choose(alloc, registry, &input.act, closing, now, &mut choice)?;
    let services = registry.prepare(deadlines.found(), &choice.services(), now)?;
    let moments = moments_of(history.lend(), clock, input.at, registry.events())?;
    let joining = moments.as_slice();
    let waiters = waits.prepare(joining, &choice.waiters(now))?;
    let letters = directories.prepare(joining, &choice.directories())?;
    let history = history.prepare(moments)?;
    let timers = deadlines.prepare(registry.timers())?;
    fill_effect(registry, &choice, &waiters, &letters, effect)?;
    Ok(StepPlan {
        now,
        closing: choice.closing(closing),
        services,
        timers,
        history,
        waiters,
        letters,
    })
}
