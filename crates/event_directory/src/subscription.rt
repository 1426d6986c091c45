//! One subscription: what a letter gives it (a match, Done, Overlong), and where its own text
//! begins in that of its directory. It has two drafts of what it will be: after the letters that
//! are being prepared (`prepared`), and after those of a plan (`planned`).
ghost use Rattle.std.specs.Prelude.{◌≡◌, ◌<◌, ◌≤◌, ◌+◌, [], IfOk, OnOk, length, vec_len};
ghost use Rattle.event_directory.specs.SubscriberList.{hit_between, is_live};
ghost use Rattle.event_directory.specs.Stored.{heard_in, live_offset, new_reader, new_reading, next_reading};
ghost use Rattle.event_directory.specs.declared.sub_view.State.TheVariants as state;

use crate::finds::Finds;
use crate::hit::Hit;
use crate::pattern::TEXT_LIMIT;
use crate::sub_view::State;
use s6_events::{Letter, NoMemory, SubId};
use std::alloc::Allocator;
use std::marker::Model;

/// What a subscription will have heard once certain letters are heard that are not heard yet. The
/// three fields mean what those of `Subscription` do.
#[derive(Drop)]
pub struct Draft<A: Allocator> {
    // The letters at which its texts will match, after those that it has heard.
    letters: Vec<Letter, A>,
    state: State,
    offset: usize,
}

impl<A: Allocator> Draft<A> {
    // An empty draft (what a subscription will be after letters that are not heard yet): no letter
    // matched, no text, and still live.
    fn new(alloc: A) -> Draft<A>
    where
        A: Copy,
        ensures letters { result.letters.items ≡ [] }
        ensures state { result.state ≡ state.Live }
        ensures offset { result.offset ≡ 0 }
        ensures len { vec_len result.letters ≡ 0 }
    {
        Draft {
            letters: Vec::new(alloc),
            state: State::Live,
            offset: 0,
        }
    }
}

/// A subscription: what it has heard, what it will have heard after the letters that are being
/// prepared, and what after those of a plan that was made.
#[derive(Drop)]
pub struct Subscription<F: Finds, A: Allocator> {
    id: SubId,
    pattern: F,
    repeats: bool,
    // The letters at which its texts matched. There is room behind them for those of each draft.
    letters: Vec<Letter, A>,
    state: State,
    // How many letters from the end of its directory's text its own text begins, while it is live:
    // those since its last match.
    offset: usize,
    // As it will be after the letters that are being prepared.
    prepared: Draft<A>,
    // As it will be after the letters of a plan that is not committed yet.
    planned: Draft<A>,
}

impl<F: Finds, A: Allocator> Model for Subscription<F, A> {
    ghost use Rattle.std.specs.Prelude.{◌≤◌, ◌+◌, ◌++◌, vec_len, vec_capacity};
    ghost use Rattle.event_directory.specs.Stored.{StoredSubscription};

    ghost Value = { StoredSubscription };

    ghost view = { λ s. record {
      standing = record {
        id = s.id;
        pattern = F.source s.pattern;
        repeats = s.repeats;
        reading = record { letters = s.letters.items; state = s.state; offset = s.offset };
      };
      prepared = record {
        letters = s.letters.items ++ s.prepared.letters.items;
        state = s.prepared.state;
        offset = s.prepared.offset;
      };
      planned = record {
        letters = s.letters.items ++ s.planned.letters.items;
        state = s.planned.state;
        offset = s.planned.offset;
      };
    } };

    ghost invariant = { λ s.
        (vec_len s.letters + vec_len s.prepared.letters ≤ vec_capacity s.letters)
        × (vec_len s.letters + vec_len s.planned.letters ≤ vec_capacity s.letters) };
}

impl<F: Finds, A: Allocator + Copy> Subscription<F, A> {
    /// A subscription that is made now, and has heard nothing. It is live: its pattern is sought.
    pub fn new(alloc: A, id: SubId, pattern: F, repeats: bool) -> Subscription<F, A>
        ensures standing { result.standing ≡ new_reader id (F.source pattern) repeats }
        ensures prepared { result.prepared ≡ new_reading }
        ensures planned { result.planned ≡ new_reading }
    {
        Subscription {
            id,
            pattern,
            repeats,
            letters: Vec::new(alloc),
            state: State::Live,
            offset: 0,
            prepared: Draft::new(alloc),
            planned: Draft::new(alloc),
        }
    }

    /// Its serial.
    pub fn id(&self) -> SubId
        ensures { result ≡ self.now.standing.id }
    {
        self.id
    }

    /// Its pattern.
    pub fn pattern(&self) -> &F
        ensures { F.source result.now ≡ self.now.standing.pattern }
    {
        &self.pattern
    }

    /// Whether it listens again after a match.
    pub fn repeats(&self) -> bool
        ensures { result ≡ self.now.standing.repeats }
    {
        self.repeats
    }

    /// The letters at which its texts matched.
    pub fn letters(&self) -> &[Letter]
        ensures { result.now ≡ self.now.standing.reading.letters }
    {
        &self.letters
    }

    /// Whether it still listens.
    pub fn state(&self) -> State
        ensures { result ≡ self.now.standing.reading.state }
    {
        self.state
    }

    /// The letters since its last match, while it is live, else none. They are the end of `text`,
    /// which is its directory's text.
    pub fn text_in<'t>(&self, text: &'t [Letter]) -> &'t [Letter]
        ensures { result.now ≡ (heard_in text.now self.now.standing.reading).text }
    {
        if self.state != State::Live {
            return &[];
        }
        &text[text.len().saturating_sub(self.offset)..]
    }

    /// How many letters it needs, from the end of its directory's text: those since its last match
    /// while it is live, else none.
    pub fn live_offset(&self) -> usize
        ensures { result ≡ live_offset self.now.standing.reading }
    {
        if self.state == State::Live {
            self.offset
        } else {
            0
        }
    }

    /// Whether it looks at the next letter that is prepared: it is still live after those that were
    /// prepared before.
    pub fn listens(&self) -> bool
        ensures { result ≡ is_live self.now.prepared.state }
    {
        self.prepared.state == State::Live
    }

    /// Begins to prepare: no letter is prepared yet, so that its draft says what it is now.
    pub fn begin(&mut self)
        ensures same { self.new.standing ≡ self.old.standing }
        ensures planned { self.new.planned ≡ self.old.planned }
        ensures prepared { self.new.prepared ≡ self.old.standing.reading }
    {
        self.prepared.letters.clear();
        self.prepared.state = self.state;
        self.prepared.offset = self.offset;
    }

    /// Prepares `letter`, the last one of `text`, and returns the hit that it will give, if any.
    /// Only its draft (`prepared`) changes, which is what it will have heard; `offset` is how many
    /// letters its own text has.
    pub fn prepare_hit(&mut self, text: &[Letter], letter: Letter) -> Result<Option<Hit>, NoMemory>
        requires { live_offset self.old.prepared < length text.now }
        ensures same { self.new.standing ≡ self.old.standing }
        ensures planned { self.new.planned ≡ self.old.planned }
        ensures within { live_offset self.new.prepared ≤ live_offset self.old.prepared + 1 }
        ensures hit { IfOk result
            (λ hit. hit ≡ hit_between letter (heard_in [] self.old.prepared)
            (heard_in [] (next_reading (F.test self.old.standing.pattern)
            self.old.standing.repeats letter text.now self.old.prepared))) }
        ensures next { OnOk result (self.new.prepared
            ≡ next_reading (F.test self.old.standing.pattern)
            self.old.standing.repeats letter text.now self.old.prepared) }
    {
        // It looks at no further letter.
        if self.prepared.state != State::Live {
            return Ok(None);
        }
        // This letter would be the 1,025th of its text.
        if self.prepared.offset >= TEXT_LIMIT {
            self.prepared.state = State::Overlong;
            self.prepared.offset = 0;
            return Ok(Some(Hit::Overlong));
        }
        let offset = self.prepared.offset + 1;
        // Its own text is the end of `text`: the letters since its last match, this one included.
        if !self.pattern.finds(&text[text.len() - offset..])? {
            self.prepared.offset = offset;
            return Ok(None);
        }
        // Room in its own list for the letters of the draft, so that `commit` takes no memory.
        self.letters.reserve(self.prepared.letters.len() + 1)?;
        self.prepared.letters.push(letter)?;
        // The next text begins behind the match.
        self.prepared.offset = 0;
        if !self.repeats {
            self.prepared.state = State::Done;
        }
        Ok(Some(Hit::Matched(letter)))
    }

    /// Exchanges the two drafts: what it will be after the letters that are being prepared, and
    /// what after those of the plan.
    pub fn exchange(&mut self)
        ensures same { self.new.standing ≡ self.old.standing }
        ensures prepared { self.new.prepared ≡ self.old.planned }
        ensures planned { self.new.planned ≡ self.old.prepared }
    {
        std::mem::swap(&mut self.prepared, &mut self.planned);
    }

    /// Hears what was prepared: it becomes what that draft says; what was planned is forgotten.
    pub fn commit(&mut self)
        ensures standing { self.new.standing
            ≡ record self.old.standing { reading = self.old.prepared } }
        ensures prepared { self.new.prepared ≡ self.old.prepared }
    {
        self.planned.letters.clear();
        match self.letters.append(&mut self.prepared.letters) {
            Ok(()) => {}
            // `prepare_hit` made room in `letters` for those of the draft.
            Err(_) => unreachable!(),
        }
        self.state = self.prepared.state;
        self.offset = self.prepared.offset;
    }
}
