//! What comes of an attempt to make a step, and why a drive ends.

/// What came of an attempt to make one step: the step, or why there was none.
#[derive(Clone, Copy, PartialEq, Eq, Debug)]
pub enum Stop {
    /// A step was made.
    Done,
    /// No input is held, and no ring gave one.
    Idle,
    /// This lane may have no room for the orders of a step; it is the least such lane. No input was
    /// taken.
    Blocked(usize),
    /// The run has as many steps as a run may have. No input was taken.
    RunFull,
    /// Memory was refused. The tree and its run are as they were. The input is held, and is the
    /// next one tried.
    NoMemory,
}

/// Why a drive ended.
#[derive(Clone, Copy, PartialEq, Eq, Debug)]
pub enum DriveStop {
    /// No input is held, and no ring gave one.
    Idle,
    /// All steps that were asked for were made.
    Count,
    /// This lane may have no room for the orders of a step; it is the least such lane.
    Blocked(usize),
    /// The run has as many steps as a run may have.
    RunFull,
    /// Memory was refused: for a step, or for publishing the state before the first step or after
    /// the last.
    NoMemory,
}

/// How many steps a drive made, and why it ended.
#[derive(Clone, Copy, PartialEq, Eq, Debug)]
pub struct Driven {
    pub steps: u64,
    pub stop: DriveStop,
}
