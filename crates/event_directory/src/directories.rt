//! All event directories of a tree: a step of them is prepared, which changes nothing that is
//! shown, and then made (committed).
ghost use Rattle.std.specs.Prelude.{◌≡◌, ◌≤◌, ◌<◌, ◌+◌, ◌^◌, ◌++◌, [], IfOk, IsOkAnd, OnOk, OnErr, true, option_map};
ghost use Rattle.event_directory.specs.Changes.{Offer, directory_request_of, matches_of, directory_answer, directories_after_change};
ghost use Rattle.event_directory.specs.Changes.DirectoryRequest.{no_directory_request};
ghost use Rattle.event_directory.specs.Directories.{WrittenDirectories, new_directories, list_named, matches_by, directories_after_moments};
ghost use Rattle.event_directory.specs.Hearing.{heard_moments, hits_of_moments};
ghost use Rattle.event_directory.specs.RegisterChanges.{prepared_step, given_change, told_change, after_step, view_in};
ghost use Rattle.event_directory.specs.HeardStep.{HearsStep};
ghost use Rattle.event_directory.specs.Remembered.{AreHeard, directories_after_commit, nothing_prepared, plan_number};
ghost use Rattle.event_directory.specs.declared.directory_change.DirectoryAnswer.TheVariants as answer;
ghost use Rattle.event_directory.specs.declared.pending_step.PendingStep.TheVariants.{Nothing};

use crate::directory_change::{DirectoryAnswer, DirectoryChange};
use crate::directory_plan::DirectoriesPlan;
use crate::finds::Finds;
use crate::image::DirectoriesImage;
use crate::pattern::Pattern;
use crate::pending_step::PendingStep;
use crate::register::Register;
use crate::step::{finish_step, work_out};
use crate::sub_view::SubView;
use s6_events::{Moment, NoMemory, SubId};
use std::alloc::Allocator;
use std::marker::Model;

/// All event directories of a tree: the free ones by name, at most 256, and at most 256
/// subscriptions to them and to services. Pages `fifodir`, `s6-mkfifodir`, `s6-ftrig-listen1` and
/// `s6-ftrig-notify`; the limits, and that all is remembered in memory and not in folders of pipes,
/// are chosen here.
///
/// A step is worked out first (`prepare`), which changes nothing that is shown, and then made
/// (`commit`), which takes no memory.
#[derive(Drop)]
pub struct Directories<F: Finds, A: Allocator> {
    register: Register<F, A>,
    // Whether the letters of a step are prepared in `register`, for `commit` to hear them.
    is_prepared: bool,
    // The change that the prepared step still has to make.
    pending: PendingStep<F, A>,
    // Counts the calls of `prepare`, modulo 2^64. The plan that one gives has this as its number.
    number: u64,
}

impl<F: Finds, A: Allocator> Model for Directories<F, A> {
    ghost use Rattle.std.specs.Prelude.{if◌then◌else◌};
    ghost use Rattle.event_directory.specs.Register.{shown_in, prepared_in, prepared_by_pending, HasRoom};
    ghost use Rattle.event_directory.specs.Remembered.{Remembered};

    ghost Value = { Remembered };

    ghost view = { λ d. record {
      shown = shown_in d.register;
      prepared = prepared_by_pending d.pending (if d.is_prepared then prepared_in d.register else shown_in d.register);
      number = d.number;
    } };

    ghost invariant = { λ d. HasRoom d.pending d.register };
}

impl<F: Finds, A: Allocator + Copy> Directories<F, A> {
    /// Directories with no free directory and no subscription. They keep the allocator.
    pub fn new(alloc: A) -> Directories<F, A>
        ensures empty { AreHeard F.test result.shown new_directories }
        ensures serials { result.shown.next ≡ 1 }
        ensures idle { result.prepared ≡ nothing_prepared result.shown }
    {
        Directories {
            register: Register::new(alloc),
            is_prepared: false,
            pending: PendingStep::Nothing,
            number: 0,
        }
    }

    /// The letters at which the texts of this subscription matched, and whether it still listens;
    /// None where there is none of this serial. Page `s6-ftrig-listen1`.
    pub fn list(&self, id: SubId) -> Option<SubView<'_>>
        ensures { (d : WrittenDirectories) → AreHeard F.test self.now.shown d →
            option_map (λ v. (v.letters.now, v.state)) result ≡ list_named F.test id d }
    {
        self.stored_list(id)
    }

    // The letters at which the texts of this subscription matched, and whether it still listens.
    // For the proof of `list`: its clause speaks only of what is stored.
    fn stored_list(&self, id: SubId) -> Option<SubView<'_>>
        ensures { option_map (λ v. (v.letters.now, v.state)) result ≡ view_in id self.now.shown }
    {
        self.register.list(id)
    }

    /// Works out a step: its moments in order, and then one change. Each subscription to a service
    /// sees the letters of the service's marks among these moments; each subscription to a free
    /// directory sees the letters of a message to it. A new subscription sees what comes after the
    /// step. Nothing that is shown changes, and what was prepared before is forgotten.
    ///
    /// A change may be refused, and the answer says why: Exists where a free directory has the name
    /// that is to be made; TooMany where there are 256 free directories, or 256 subscriptions,
    /// already; NoSuch where there is no such free directory, or no such subscription. Only the
    /// moments are heard then.
    ///
    /// The next serial has to be below 2^63. NoMemory where memory is refused: nothing is prepared
    /// then. A step with no moment and no change takes no memory, and gives nothing. Pages
    /// `s6-mkfifodir`, `s6-ftrig-notify` and `s6-ftrig-listen1`; the order of a step is chosen
    /// here.
    #[inline(always)]
    pub fn prepare(
        &mut self,
        moments: &[Moment],
        change: &DirectoryChange<'_>,
    ) -> Result<DirectoriesPlan<A>, NoMemory>
        requires { self.old.shown.next < 2 ^ 63 }
        ensures hears { IfOk result (λ plan. HearsStep F.test self.old.shown moments.now
            (directory_request_of change.now) plan.matches.items plan.answer self.new.prepared) }
        ensures number { IfOk result (λ plan. plan_number plan ≡ self.new.number) }
        ensures serials { OnOk result
            ((offer : Offer) → (directories_after_commit self.new.prepared offer).next
            ≤ self.old.shown.next + 1) }
        ensures shown { self.new.shown ≡ self.old.shown }
        ensures idle { OnErr result (self.new.prepared ≡ nothing_prepared self.old.shown) }
        ensures quiet { moments.now ≡ [] → directory_request_of change.now ≡ no_directory_request
            → IsOkAnd result (λ plan. (plan.matches.items ≡ []) × (plan.answer ≡ answer.Done)) }
    {
        // The `?` is for the proof, which looks at each outcome (done, or refused) by itself.
        let plan = self.prepare_stored(moments, change)?;
        Ok(plan)
    }

    // Works out a step, which `commit` then makes. For the proof of `prepare`: its clauses speak
    // only of what is stored.
    #[inline(always)]
    fn prepare_stored(
        &mut self,
        moments: &[Moment],
        change: &DirectoryChange<'_>,
    ) -> Result<DirectoriesPlan<A>, NoMemory>
        requires { self.old.shown.next < 2 ^ 63 }
        ensures matches { IfOk result
            (λ plan. plan.matches.items ≡ hits_of_moments F.test moments.now self.old.shown.followed
            ++ given_change F.test (directory_request_of change.now)
            (after_step F.test moments.now self.old.shown)) }
        ensures answer { IfOk result
            (λ plan. plan.answer ≡ told_change (directory_request_of change.now)
            (after_step F.test moments.now self.old.shown)) }
        ensures prepared { OnOk result (self.new.prepared
            ≡ prepared_step F.test moments.now (directory_request_of change.now) self.old.shown) }
        ensures number { IfOk result (λ plan. plan_number plan ≡ self.new.number) }
        ensures shown { self.new.shown ≡ self.old.shown }
        ensures idle { OnErr result (self.new.prepared ≡ nothing_prepared self.old.shown) }
        ensures quiet { moments.now ≡ [] → directory_request_of change.now ≡ no_directory_request
            → IsOkAnd result (λ plan. (plan.matches.items ≡ []) × (plan.answer ≡ answer.Done)) }
    {
        self.forget_prepared();
        // Each call counts, and its plan has the count as its number.
        self.number = self.number.wrapping_add(1);
        // The step gives nothing and changes nothing: nothing is prepared.
        if is_unheard(&self.register, moments, change) {
            return Ok(DirectoriesPlan {
                matches: Vec::new(self.register.allocator()),
                answer: DirectoryAnswer::Done,
                number: self.number,
            });
        }
        self.prepare_heard(moments, change)
    }

    // Prepares a step that somebody may hear, or that changes something: `work_out` adds the
    // matches to its list, and answers what is left to be done by `commit` (`pending`). It is a
    // function of its own, since most steps are heard by nobody.
    #[inline(never)]
    fn prepare_heard(
        &mut self,
        moments: &[Moment],
        change: &DirectoryChange<'_>,
    ) -> Result<DirectoriesPlan<A>, NoMemory>
        requires { self.old.shown.next < 2 ^ 63 }
        ensures matches { IfOk result
            (λ plan. plan.matches.items ≡ hits_of_moments F.test moments.now self.old.shown.followed
            ++ given_change F.test (directory_request_of change.now)
            (after_step F.test moments.now self.old.shown)) }
        ensures answer { IfOk result
            (λ plan. plan.answer ≡ told_change (directory_request_of change.now)
            (after_step F.test moments.now self.old.shown)) }
        ensures prepared { OnOk result (self.new.prepared
            ≡ prepared_step F.test moments.now (directory_request_of change.now) self.old.shown) }
        ensures number { IfOk result (λ plan. plan_number plan ≡ self.new.number) }
        ensures shown { self.new.shown ≡ self.old.shown }
        ensures idle { OnErr result (self.new.prepared ≡ nothing_prepared self.old.shown) }
    {
        let mut matches = Vec::new(self.register.allocator());
        // Where memory is refused below, nothing is prepared.
        self.pending = PendingStep::Nothing;
        self.is_prepared = false;
        let (pending, answer) = work_out(&mut self.register, moments, change, &mut matches)?;
        self.is_prepared = true;
        self.pending = pending;
        Ok(DirectoriesPlan {
            matches,
            answer,
            number: self.number,
        })
    }

    /// Makes the step of this plan, which has to be the last one that `prepare` gave: contracts
    /// tell that by its number. It takes no memory. Where the step makes a subscription, `offered`
    /// is its pattern, and whether it is sought again after each match; without one, no
    /// subscription is made. Afterwards nothing is prepared.
    pub fn commit(&mut self, plan: DirectoriesPlan<A>, offered: Option<(F, bool)>)
        requires number { plan_number plan ≡ self.old.number }
        ensures after { self.new.shown
            ≡ directories_after_commit self.old.prepared
            (option_map (λ o. (F.source o.0, o.1)) offered) }
        ensures idle { self.new.prepared ≡ nothing_prepared self.new.shown }
    {
        // What is to be done lies in `self`: the plan only had the matches and the answer for the
        // caller.
        drop(plan);
        if self.is_prepared || !is_nothing(&self.pending) {
            self.make(offered);
        }
    }

    // Makes a prepared step that somebody hears, or that changes something: first its letters are
    // heard, then its change is made. `offered` is the pattern for a new subscription, and whether
    // it repeats. It is a function of its own, since most steps are heard by nobody.
    #[inline(never)]
    fn make(&mut self, offered: Option<(F, bool)>)
        ensures after { self.new.shown
            ≡ directories_after_commit self.old.prepared
            (option_map (λ o. (F.source o.0, o.1)) offered) }
        ensures idle { self.new.prepared ≡ nothing_prepared self.new.shown }
    {
        let pending = std::mem::replace(&mut self.pending, PendingStep::Nothing);
        if self.is_prepared {
            self.register.hear_prepared();
            self.is_prepared = false;
        }
        finish_step(&mut self.register, pending, offered);
    }

    // What was prepared, letters and a change (`pending`), is forgotten: `commit` will not make it.
    fn forget_prepared(&mut self)
        ensures shown { self.new.shown ≡ self.old.shown }
        ensures number { self.new.number ≡ self.old.number }
        ensures idle { self.new.prepared ≡ nothing_prepared self.new.shown }
    {
        self.is_prepared = false;
        if !is_nothing(&self.pending) {
            self.drop_pending();
        }
    }

    // The change that was prepared is forgotten. It is a function of its own, since most steps
    // prepare none.
    #[inline(never)]
    fn drop_pending(&mut self)
        ensures shown { self.new.shown ≡ self.old.shown }
        ensures number { self.new.number ≡ self.old.number }
        ensures idle { self.new.prepared ≡ nothing_prepared self.new.shown }
    {
        self.is_prepared = false;
        self.pending = PendingStep::Nothing;
    }
}

impl<A: Allocator + Copy> Directories<Pattern, A> {
    /// All that is shown, as plain data, where a pattern is its text. `NoMemory` where memory is
    /// refused.
    pub fn image(&self, alloc: A) -> Result<DirectoriesImage<A>, NoMemory>
        ensures { IfOk result (λ image. image ≡ self.now.shown) }
    {
        self.register.image(alloc)
    }
}

// Whether a step gives nothing and changes nothing: it asks for no change, and there is no moment,
// or no subscription (the register is silent).
fn is_unheard<F: Finds, A: Allocator + Copy>(
    register: &Register<F, A>,
    moments: &[Moment],
    change: &DirectoryChange<'_>,
) -> bool
    ensures request { result ≡ true → directory_request_of change.now ≡ no_directory_request }
    ensures hits { result ≡ true → hits_of_moments F.test moments.now register.now.followed ≡ [] }
    ensures after { result ≡ true → heard_moments F.test moments.now register.now.followed
        ≡ register.now.followed }
    ensures quiet { moments.now ≡ [] → directory_request_of change.now ≡ no_directory_request
        → result ≡ true }
{
    if !asks_nothing(change) {
        return false;
    }
    if moments.is_empty() {
        return true;
    }
    register.is_silent()
}

// Whether no change is prepared.
fn is_nothing<F: Finds, A: Allocator + Copy>(pending: &PendingStep<F, A>) -> bool
    ensures { result ≡ true → pending.now ≡ Nothing }
{
    matches!(pending, PendingStep::Nothing)
}

// Whether this is no change: the step asks nothing of the event directories.
fn asks_nothing(change: &DirectoryChange<'_>) -> bool
    ensures nothing { result ≡ true → directory_request_of change.now ≡ no_directory_request }
    ensures any { directory_request_of change.now ≡ no_directory_request → result ≡ true }
{
    matches!(change, DirectoryChange::Nothing)
}
