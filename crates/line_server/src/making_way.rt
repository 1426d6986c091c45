//! Which connection makes way for a new one, where no slot is free.
ghost use Rattle.std.specs.Prelude.{◌≡◌, Some, map};
ghost use Rattle.line_server.specs.MakingWay.{idle_since, is_leaving, last_moment, takes_lines, dismissed, noting, may_dismiss, dismissible_since, time_left, lesser, least_of, is_number, first_idle_since, longest_idle, first_chance};

/// For so long after it came a connection keeps its slot, in milliseconds.
pub const FIRST_TIME: u64 = 100;

/// For so long a connection that has ended or made way may still read its last answers where its
/// slot is wanted, in milliseconds.
pub const LAST_TIME: u64 = 1_000;

/// What the connection of a slot does.
#[derive(Clone, Copy, Debug, PartialEq, Eq)]
pub enum SlotUse {
    /// It came at this moment of the system's clock, in milliseconds, and no line of it was read
    /// yet.
    NewSince(u64),
    /// Since this moment of the system's clock, in milliseconds, it asks nothing, and nothing was
    /// written to it.
    IdleSince(u64),
    /// A line of it is being answered, or something is still to be told to it.
    Needed,
    /// It asks nothing more since this moment, and its slot will be free once it has read its
    /// answers.
    Leaving(u64),
    /// It made way, and all that it had sent was answered at this moment: its slot will be free
    /// once it has read its answers.
    Dismissed(u64),
    /// It made way, and what it had sent before is being answered.
    LastAnswers,
    /// It made way at this moment, and no line of it had been read: none is carried out, and it is
    /// told `busy`.
    TurnedAway(u64),
}

impl SlotUse {
    /// Since when it is idle, if it is.
    pub fn idle_since(&self) -> Option<u64>
        ensures { result ≡ idle_since self.now }
    {
        match self {
            SlotUse::NewSince(moment) | SlotUse::IdleSince(moment) => Some(*moment),
            _ => None,
        }
    }

    /// Whether it has ended or made way, so that its slot will be free.
    pub fn is_leaving(&self) -> bool
        ensures { result ≡ is_leaving self.now }
    {
        match self {
            SlotUse::NewSince(_) | SlotUse::IdleSince(_) | SlotUse::Needed => false,
            SlotUse::Leaving(_)
            | SlotUse::Dismissed(_)
            | SlotUse::LastAnswers
            | SlotUse::TurnedAway(_) => true,
        }
    }

    /// Since when nothing more is to be posted to it, if it has ended or made way: a second later
    /// it is ended, if its slot is wanted.
    pub fn last_moment(&self) -> Option<u64>
        ensures { result ≡ last_moment self.now }
    {
        match self {
            SlotUse::Leaving(moment) | SlotUse::Dismissed(moment) | SlotUse::TurnedAway(moment) =>
                Some(*moment),
            _ => None,
        }
    }

    /// Whether its lines are carried out.
    pub fn takes_lines(&self) -> bool
        ensures { result ≡ takes_lines self.now }
    {
        !matches!(self, SlotUse::TurnedAway(_))
    }

    /// What it does once it makes way at the moment `now`: one of which no line was read is turned
    /// away, so that no wait of it is begun and then lost.
    pub fn dismissed(self, now: u64) -> SlotUse
        ensures { result ≡ dismissed now self }
    {
        match self {
            SlotUse::NewSince(_) => SlotUse::TurnedAway(now),
            _ => SlotUse::Dismissed(now),
        }
    }

    /// What it does once that is noted: one that made way stays so, and is waited for while it is
    /// answered.
    pub fn noting(self, doing: SlotUse) -> SlotUse
        ensures { result ≡ noting self doing }
    {
        match (self, doing) {
            (SlotUse::Dismissed(_), SlotUse::Needed) => SlotUse::LastAnswers,
            (SlotUse::LastAnswers, SlotUse::IdleSince(moment)) => SlotUse::Dismissed(moment),
            (SlotUse::Dismissed(_) | SlotUse::LastAnswers | SlotUse::TurnedAway(_), _) => self,
            (_, doing) => doing,
        }
    }
}

/// How far a knock is: a connection that waits for a slot.
#[derive(Clone, Copy, Debug, PartialEq, Eq)]
pub enum KnockStage {
    /// It has just come.
    First,
    /// It has looked, and nobody has made way for it yet.
    Later,
    /// One has made way for it.
    Served,
}

impl KnockStage {
    /// Whether a connection is to make way for it. `is_one_leaving`: one leaves anyway, for which
    /// it waits a moment. Only one makes way for it, also where that one takes long to leave.
    pub fn may_dismiss(self, is_one_leaving: bool) -> bool
        ensures { result ≡ may_dismiss is_one_leaving self }
    {
        match self {
            KnockStage::First => !is_one_leaving,
            KnockStage::Later => true,
            KnockStage::Served => false,
        }
    }
}

/// The connection of a slot: when it came, in milliseconds of the system's clock, and what it does.
#[derive(Clone, Copy, Debug, PartialEq, Eq)]
pub struct Occupant {
    pub came: u64,
    pub doing: SlotUse,
}

impl Occupant {
    /// Since when it is idle, if it may be dismissed at the moment `now`: not within the first 100
    /// milliseconds after it came.
    pub fn dismissible_since(&self, now: u64) -> Option<u64>
        ensures { result ≡ dismissible_since now self.now }
    {
        if now.saturating_sub(self.came) >= FIRST_TIME {
            self.doing.idle_since()
        } else {
            None
        }
    }

    /// After how many milliseconds it may be dismissed, if it is idle.
    pub fn time_left(&self, now: u64) -> Option<u64>
        ensures { result ≡ time_left now self.now }
    {
        let _since = self.doing.idle_since()?;
        Some(FIRST_TIME.saturating_sub(now.saturating_sub(self.came)))
    }
}

// The lesser of two numbers, or the one that is there.
fn lesser(one: Option<u64>, other: Option<u64>) -> Option<u64>
    ensures { result ≡ lesser one other }
{
    match (one, other) {
        (Some(one), Some(other)) => Some(one.min(other)),
        (Some(one), None) => Some(one),
        (None, other) => other,
    }
}

// Since when the connection is idle that has been for the longest time, of those that may be
// dismissed; None where none may.
fn longest_since(occupants: &[Occupant], now: u64) -> Option<u64>
    ensures { result ≡ least_of (map (dismissible_since now) occupants.now) }
{
    match occupants {
        [] => None,
        [first, rest @ ..] => lesser(first.dismissible_since(now), longest_since(rest, now)),
    }
}

// Whether a number is there, and this one.
fn is_number(number: u64, found: Option<u64>) -> bool
    ensures { result ≡ is_number number found }
{
    match found {
        Some(found) => found == number,
        None => false,
    }
}

// The first slot whose connection may be dismissed and is idle since this moment.
fn first_idle_since(occupants: &[Occupant], now: u64, moment: u64) -> Option<usize>
    ensures { result ≡ first_idle_since (Some moment) now occupants.now }
{
    occupants
        .iter()
        .position(|one| is_number(moment, one.dismissible_since(now)))
}

/// The slot whose connection has been idle for the longest time, of those that may be dismissed at
/// the moment `now`, in milliseconds; None where none may. Of two that are alike, the first.
pub fn longest_idle(occupants: &[Occupant], now: u64) -> Option<usize>
    ensures { result ≡ longest_idle now occupants.now }
{
    let moment = longest_since(occupants, now)?;
    first_idle_since(occupants, now, moment)
}

/// After how many milliseconds, from the moment `now` on, the first of the connections that are
/// idle may be dismissed; None where none is idle.
pub fn first_chance(occupants: &[Occupant], now: u64) -> Option<u64>
    ensures { result ≡ first_chance now occupants.now }
{
    match occupants {
        [] => None,
        [first, rest @ ..] => lesser(first.time_left(now), first_chance(rest, now)),
    }
}
