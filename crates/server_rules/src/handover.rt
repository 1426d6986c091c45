//! When a run takes inputs, when it ends, and what comes after each round, which is one iteration
//! of the driver's loop.
ghost use Rattle.std.specs.Prelude.{◌≡◌, [], None, false};
ghost use Rattle.server_rules.specs.Handover.{after_ending, after_round, after_steps, ends_early, has_carried_all, is_busy_lane, last_step, retry_time, takes_inputs, until_due};

use crate::places::LANE_LIMIT;
use arrayvec::ArrayVec;

/// For how many steps past its handover a run takes inputs, while a lane takes no order. The run
/// has room for what is in the rings after that, too.
const SPARE_STEPS: u64 = 1_024;

/// How long the driver waits after a lane or the system refused something, in milliseconds. A lane
/// rings sooner, if it can.
pub const RETRY_WAIT: u64 = 100;

/// Why the driver stops driving a run.
#[derive(Clone, Copy, PartialEq, Eq, Debug)]
pub enum RunEnd {
    /// The tree has ended.
    Ended,
    /// The run has its last step, and nothing is left to be done in it: the next run is to begin.
    Handover,
    /// The run takes no step more.
    Full,
}

/// Why no further step was made, after all that could be made.
#[derive(Clone, Copy, PartialEq, Eq, Debug)]
pub enum Halt {
    /// No input is left.
    Idle,
    /// This lane has no room for the orders of a step.
    Blocked(usize),
    /// There is no memory for a step, or for what it gave.
    NoMemory,
    /// The run takes no step more.
    Full,
}

/// What comes after a round.
#[derive(Clone, Copy, PartialEq, Eq, Debug)]
pub enum After {
    /// There is more to do at once.
    GoOn,
    /// Nothing until somebody rings or, where a number is given, that many milliseconds have
    /// passed.
    Wait(Option<u64>),
    /// The run is driven no more.
    Stop(RunEnd),
}

/// What the lanes did when each of them was asked to carry its orders.
#[derive(Drop)]
pub struct Carrying {
    /// Whether some lane has more to carry.
    pub has_more: bool,
    /// The lanes that take no order now.
    pub busy: ArrayVec<usize, LANE_LIMIT>,
}

impl Carrying {
    /// No lane was asked yet.
    pub fn new() -> Carrying
        ensures more { result.has_more ≡ false }
        ensures busy { result.busy.items ≡ [] }
    {
        Carrying {
            has_more: false,
            busy: ArrayVec::new(),
        }
    }

    // Whether this lane takes no order now.
    fn is_busy_at(&self, lane: usize) -> bool
        ensures { result ≡ is_busy_lane lane self.now }
    {
        self.busy.iter().any(|busy| *busy == lane)
    }

    // Whether no lane has an order left.
    fn is_done(&self) -> bool
        ensures { result ≡ has_carried_all self.now }
    {
        !self.has_more && self.busy.is_empty()
    }
}

/// What a round has found. `is_open`: the run took inputs. `is_full`: a ring was full before all
/// reports were handed in. `has_more`: a connection has more to begin, or waits for a scan that can
/// begin. `due`: the next moment to which a timer or a deadline is set.
#[derive(Drop)]
pub struct Round {
    /// The moment at which it began, in milliseconds.
    pub moment: u64,
    /// Whether the run took inputs.
    pub is_open: bool,
    /// Whether a ring was full before all reports were handed in.
    pub is_full: bool,
    /// Whether a connection has more to begin, or waits for a scan that can begin.
    pub has_more: bool,
    /// Why it made no further step.
    pub halt: Halt,
    /// Whether the tree has ended.
    pub has_ended: bool,
    pub carrying: Carrying,
    /// The next moment to which a timer or a deadline is set, in milliseconds.
    pub due: Option<u64>,
}

impl Round {
    // For how many milliseconds nothing is due; None where nothing will be. In a run that takes no
    // inputs nothing is due, since it makes no tick.
    fn until_due(&self) -> Option<u64>
        ensures { result ≡ until_due self.now }
    {
        match self.due {
            Some(due) if self.is_open => Some(due.saturating_sub(self.moment)),
            _ => None,
        }
    }

    // How many milliseconds the driver waits after something was refused: 100, or fewer where
    // something is due before.
    fn retry_time(&self) -> u64
        ensures { result ≡ retry_time self.now }
    {
        match self.until_due() {
            Some(time) if time < RETRY_WAIT => time,
            _ => RETRY_WAIT,
        }
    }

    /// What comes after a round while all services are told to end, and no connection is served.
    /// Reports that found no room, and orders that are left, are gone on with at once; else it
    /// waits a little.
    pub fn after_ending(&self) -> After
        ensures { result ≡ after_ending self.now }
    {
        match self.halt {
            Halt::Full => After::Stop(RunEnd::Full),
            Halt::Idle if self.has_ended => After::Stop(RunEnd::Ended),
            Halt::Idle if self.is_full || self.carrying.has_more => After::GoOn,
            Halt::Idle | Halt::Blocked(_) | Halt::NoMemory => After::Wait(Some(RETRY_WAIT)),
        }
    }
}

/// How many steps a run has, and after how many it ends: `handover`, or `record_from` where
/// somebody waits for it to be recorded. While `is_lane_busy`, inputs are taken for some steps
/// more.
#[derive(Clone, Copy, PartialEq, Eq, Debug)]
pub struct Pace {
    /// How many steps of the run were handed out.
    pub steps: u64,
    /// After how many steps the run ends and the next one goes on.
    pub handover: u64,
    /// After how many steps the run ends early, because somebody waits for it to be recorded; None
    /// where nobody does.
    pub record_from: Option<u64>,
    /// Whether a lane took no order when it was last asked.
    pub is_lane_busy: bool,
}

impl Pace {
    /// The pace of a run in which no step was made.
    pub fn new(handover: u64) -> Pace
        ensures { result
            ≡ record { steps = 0; handover = handover; record_from = None; is_lane_busy = false } }
    {
        Pace {
            steps: 0,
            handover,
            record_from: None,
            is_lane_busy: false,
        }
    }

    /// Somebody waits for the run to be recorded: it ends after the steps that it has now, once
    /// nothing is left to be done in it. If it is to end early already, nothing changes.
    pub fn end_early(&mut self)
        ensures { self.new ≡ ends_early self.old }
    {
        if self.record_from.is_none() {
            self.record_from = Some(self.steps);
        }
    }

    // After how many steps the run ends: at the handover, or earlier where somebody waits for it to
    // be recorded.
    fn last_step(&self) -> u64
        ensures { result ≡ last_step self.now }
    {
        match self.record_from {
            Some(steps) if steps < self.handover => steps,
            _ => self.handover,
        }
    }

    /// Whether inputs are handed in: until the run has its last step and, while a lane takes no
    /// order, up to 1,024 steps past the handover.
    pub fn takes_inputs(&self) -> bool
        ensures { result ≡ takes_inputs self.now }
    {
        self.steps < self.last_step()
            || (self.is_lane_busy && self.steps.saturating_sub(self.handover) < SPARE_STEPS)
    }

    /// What comes after a round.
    pub fn after(&self, round: &Round) -> After
        ensures { result ≡ after_round self.now round.now }
    {
        match round.halt {
            Halt::Full => After::Stop(RunEnd::Full),
            Halt::Idle => self.after_steps(round),
            // The lane has carried orders since the step was blocked, so it has room again.
            Halt::Blocked(lane) if !round.carrying.is_busy_at(lane) => After::GoOn,
            Halt::Blocked(_) | Halt::NoMemory => After::Wait(Some(round.retry_time())),
        }
    }

    // What comes after a round in which all steps were made. The run ends once the tree has ended,
    // or once it has its last step and no lane has an order left. It goes on at once where a lane
    // has more to carry, where reports found no room (`is_full`), or where a connection has more to
    // begin.
    fn after_steps(&self, round: &Round) -> After
        ensures { result ≡ after_steps self.now round.now }
    {
        // No lane has an order left.
        let is_done = round.carrying.is_done();
        if round.has_ended {
            After::Stop(RunEnd::Ended)
        } else if is_done && self.last_step() <= self.steps {
            After::Stop(RunEnd::Handover)
        } else if round.carrying.has_more || round.is_full || (round.is_open && round.has_more) {
            After::GoOn
        } else if is_done {
            After::Wait(round.until_due())
        } else {
            // A lane takes no order now: it is tried again after a little while.
            After::Wait(Some(round.retry_time()))
        }
    }
}
