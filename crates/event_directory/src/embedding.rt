//! Calls of a directory by itself, for whoever embeds this crate alone: no program of this tree
//! makes them.
ghost use Rattle.std.specs.Prelude.{◌≡◌, ◌<◌, ◌++◌, ◌∷◌, [], List, IfOk, OnOk, OnErr, IfErr, All, map, ◌+◌};
ghost use Rattle.event_directory.specs.Sending.{TextSubscription, HaveHeard, after_letter, hits_from, after_letters, hits_from_letters, Sends, Prepares, new_kept_subscription, new_text_subscription};
ghost use Rattle.event_directory.specs.Stored.{greatest_offset};

use crate::directory::{Directory, copy_after, forget, prepare_letters, put_after};
use crate::finds::Finds;
use crate::hit::Hit;
use crate::plan::LettersPlan;
use crate::subscriptions::{
    any_listens, begin_all, commit_all, greatest_offset, hear_planned_all, plan_all, prepare_all,
};
use s6_events::{Letter, NoMemory, SubId};
use std::alloc::Allocator;

impl<F: Finds, A: Allocator + Copy> Directory<F, A> {
    /// Subscribes from now on, with a serial greater than those before: for one match, or again
    /// after each match. Page `s6-ftrig-listen1`. It does not hear the letters of a plan that is
    /// not committed yet. Where memory is refused, the pattern comes back and nothing has changed.
    pub fn subscribe(&mut self, id: SubId, pattern: F, repeats: bool) -> Result<(), F>
        requires { All (λ s. s.id < id) self.old.standing }
        ensures ok { OnOk result (self.new.standing
            ≡ self.old.standing ++ new_kept_subscription id (F.source pattern) repeats ∷ []) }
        ensures hears { OnOk result ((subscribed : List TextSubscription) →
            HaveHeard F.test self.old.standing subscribed →
            HaveHeard F.test self.new.standing
            (subscribed ++ new_text_subscription id (F.source pattern) repeats ∷ [])) }
        ensures planned { OnOk result (self.new.planned
            ≡ self.old.planned ++ new_kept_subscription id (F.source pattern) repeats ∷ []) }
        ensures err { IfErr result (λ back. (back ≡ pattern)
            × (self.new.standing ≡ self.old.standing)) }
        ensures still { OnErr result (self.new.planned ≡ self.old.planned) }
    {
        if self.reserve().is_err() {
            return Err(pattern);
        }
        self.join(id, pattern, repeats);
        Ok(())
    }

    /// Subscribes from now on, in the place that `prepare` made, but not to letters of a plan.
    pub fn join(&mut self, id: SubId, pattern: F, repeats: bool)
        requires room { 0 < self.old.room }
        requires greater { All (λ s. s.id < id) self.old.standing }
        ensures after { self.new.standing
            ≡ self.old.standing ++ new_kept_subscription id (F.source pattern) repeats ∷ [] }
        ensures hears { (subscribed : List TextSubscription) →
            HaveHeard F.test self.old.standing subscribed →
            HaveHeard F.test self.new.standing
            (subscribed ++ new_text_subscription id (F.source pattern) repeats ∷ []) }
        ensures planned { self.new.planned ≡
            self.old.planned ++ new_kept_subscription id (F.source pattern) repeats ∷ [] }
    {
        self.take_in(id, pattern, repeats);
    }

    /// Sends one letter: each live subscription hears it. Returns the hits, in rising serial. An
    /// earlier plan is forgotten. Page `s6-ftrig-notify`. NoMemory where memory is refused: nothing
    /// has changed then, and an earlier plan is still there.
    pub fn send(&mut self, letter: Letter) -> Result<Vec<(SubId, Hit), A>, NoMemory>
        ensures hits { IfOk result (λ hits. hits.items
            ≡ hits_from F.test letter self.old.standing) }
        ensures after { OnOk result
            (self.new.standing ≡ after_letter F.test letter self.old.standing) }
        ensures defined { IfOk result
            (λ hits. (subscribed : List TextSubscription) →
            HaveHeard F.test self.old.standing subscribed →
            Sends F.test self.new.standing letter subscribed hits.items) }
        ensures idle { OnOk result (self.new.planned ≡ self.new.standing) }
        ensures err { OnErr result
            ((self.new.standing ≡ self.old.standing) × (self.new.planned ≡ self.old.planned)) }
    {
        // The `?` is for the proof, which looks at each outcome (done, or refused) by itself.
        let hits = self.hear(letter)?;
        Ok(hits)
    }

    // Prepares one letter and hears it. For the proof of `send`.
    fn hear(&mut self, letter: Letter) -> Result<Vec<(SubId, Hit), A>, NoMemory>
        ensures hits { IfOk result (λ hits. hits.items
            ≡ hits_from F.test letter self.old.standing) }
        ensures after { OnOk result
            (self.new.standing ≡ after_letter F.test letter self.old.standing) }
        ensures idle { OnOk result (self.new.planned ≡ self.new.standing) }
        ensures err { OnErr result
            ((self.new.standing ≡ self.old.standing) × (self.new.planned ≡ self.old.planned)) }
    {
        self.begin();
        let hits = self.prepare_more(letter)?;
        self.hear_prepared();
        Ok(hits)
    }

    /// Plans the letters of one step, and makes a place for one more subscription. Nothing is heard
    /// yet, and an earlier plan is forgotten. NoMemory where memory is refused: nothing has changed
    /// then, and an earlier plan is still there.
    pub fn prepare(&mut self, letters: &[Letter]) -> Result<LettersPlan<A>, NoMemory>
        ensures hits { IfOk result (λ plan. plan
            ≡ hits_from_letters F.test letters.now self.old.standing) }
        ensures planned { OnOk result
            (self.new.planned ≡ after_letters F.test letters.now self.old.standing) }
        ensures defined { IfOk result
            (λ plan. (subscribed : List TextSubscription) →
            HaveHeard F.test self.old.standing subscribed →
            Prepares F.test self.new.planned letters.now subscribed plan) }
        ensures room { OnOk result (0 < self.new.room) }
        ensures same { self.new.standing ≡ self.old.standing }
        ensures still { OnErr result (self.new.planned ≡ self.old.planned) }
    {
        // The `?` is for the proof, which looks at each outcome (done, or refused) by itself.
        let plan = self.prepare_stored(letters)?;
        Ok(plan)
    }

    // Prepares these letters, which become the plan. For the proof of `prepare`.
    fn prepare_stored(&mut self, letters: &[Letter]) -> Result<LettersPlan<A>, NoMemory>
        ensures hits { IfOk result (λ plan. plan
            ≡ hits_from_letters F.test letters.now self.old.standing) }
        ensures planned { OnOk result
            (self.new.planned ≡ after_letters F.test letters.now self.old.standing) }
        ensures room { OnOk result (0 < self.new.room) }
        ensures same { self.new.standing ≡ self.old.standing }
        ensures still { OnErr result (self.new.planned ≡ self.old.planned) }
    {
        self.reserve()?;
        self.begin();
        let hits = prepare_letters(self, letters)?;
        self.stand_by()?;
        Ok(LettersPlan { hits })
    }

    // What is prepared becomes the plan, with a copy of its letters. These leave the text, whose
    // memory keeps the room for them.
    fn stand_by(&mut self) -> Result<(), NoMemory>
        ensures planned { OnOk result (self.new.planned ≡ self.old.prepared) }
        ensures still { OnErr result (self.new.planned ≡ self.old.planned) }
        ensures same { self.new.standing ≡ self.old.standing }
        ensures room { self.new.room ≡ self.old.room }
    {
        let alloc = *self.subscriptions.allocator();
        self.planned = copy_after(alloc, &self.text, self.heard)?;
        plan_all(&mut self.subscriptions);
        self.text.truncate(self.heard);
        self.is_planned = true;
        Ok(())
    }

    /// Hears the letters of the plan, if there is one, and returns its hits. Then there is none.
    pub fn commit(&mut self, plan: LettersPlan<A>) -> Vec<Vec<(SubId, Hit), A>, A>
        ensures after { self.new.standing ≡ self.old.planned }
        ensures idle { self.new.planned ≡ self.new.standing }
        ensures hits { map (λ v. v.items) result.items ≡ plan }
        ensures room { self.new.room ≡ self.old.room }
    {
        self.hear_planned();
        plan.hits
    }

    // Hears the letters of the plan, if there is one: they go behind those that are heard.
    fn hear_planned(&mut self)
        ensures after { self.new.standing ≡ self.old.planned }
        ensures idle { self.new.planned ≡ self.new.standing }
        ensures room { self.new.room ≡ self.old.room }
    {
        if !self.is_planned {
            return;
        }
        hear_planned_all(&mut self.subscriptions);
        put_after(&mut self.text, self.heard, &self.planned);
        self.is_planned = false;
        self.heard = forget(&mut self.text, &self.subscriptions);
    }
}
