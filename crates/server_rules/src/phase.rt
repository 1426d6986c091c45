//! The phases of a connection.
ghost use Rattle.std.specs.Prelude.{◌≡◌};
ghost use Rattle.server_rules.specs.Connection.{is_here};

use crate::made_things::MadeChange;
use crate::status_lines::Subject;

/// What a step, a scan or a handover that is under way for a connection is for.
#[derive(Clone, Copy, PartialEq, Eq, Debug)]
pub enum Errand {
    /// A step that it asked for, with what the step makes or ends: the reply is the answer.
    Step(MadeChange),
    /// A tick, after which the status of these services is told.
    Status(Subject),
    /// A scan of the directory, whose reply is the answer.
    Scan,
    /// A handover of the run, after which the record has all steps.
    Record,
    /// The end of a released waiter, which makes place for the waiter that the connection asked
    /// for.
    Replacement,
}

/// The phase of a connection: what is under way for it, and whether its client has left.
#[derive(Clone, Copy, PartialEq, Eq, Debug)]
pub enum ClientPhase {
    /// Nothing of it is under way. What it asked waits its turn.
    Idle,
    /// This many steps that it asked for are under way. None of them makes or ends a waiter or a
    /// subscription.
    Stepping(usize),
    /// This errand is under way, and nothing beside it.
    UnderWay(Errand),
    /// A released waiter was ended, and the act that was put off is to be handed in.
    PutOff,
    /// It left, and this many steps are still under way.
    LeftStepping(usize),
    /// It left, and this errand is still under way.
    Left(Errand),
    /// It left, and what it made is to be ended.
    Leaving,
    /// It left, and a step is under way that ends a waiter or a subscription of it.
    Cancelling,
    /// It left, and all that it made is ended: its slot is free.
    Gone,
}

impl ClientPhase {
    /// Whether the client has not left.
    pub fn is_here(&self) -> bool
        ensures { result ≡ is_here self.now }
    {
        match self {
            ClientPhase::Idle
            | ClientPhase::Stepping(_)
            | ClientPhase::UnderWay(_)
            | ClientPhase::PutOff => true,
            ClientPhase::LeftStepping(_)
            | ClientPhase::Left(_)
            | ClientPhase::Leaving
            | ClientPhase::Cancelling
            | ClientPhase::Gone => false,
        }
    }
}
