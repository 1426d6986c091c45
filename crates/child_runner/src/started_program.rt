//! Which program was started: `run` or `finish` of a service, which its serial (`sid`) names. The
//! generation counts the starts of the service.
ghost use Rattle.std.specs.Prelude.{◌≡◌};
ghost use Rattle.child_runner.specs.Roll.{is_last};

use order_lanes::Report;
use s6_events::{Exit, Sid};

/// One of a service's two programs.
#[derive(Clone, Copy, PartialEq, Eq, Debug)]
pub(crate) enum Program {
    Run,
    Finish,
}

/// One start of a service's program: the service's serial, the generation, and which program.
#[derive(Clone, Copy, PartialEq, Eq, Debug)]
pub(crate) struct Start {
    pub sid: Sid,
    pub generation: u64,
    pub program: Program,
}

impl Start {
    /// The start of the `run` of this generation, of the service of this serial.
    pub fn of_run(sid: Sid, generation: u64) -> Start {
        Start {
            sid,
            generation,
            program: Program::Run,
        }
    }

    /// The start of the `finish` after the `run` of this generation, of the service of this serial.
    pub fn of_finish(sid: Sid, generation: u64) -> Start {
        Start {
            sid,
            generation,
            program: Program::Finish,
        }
    }

    /// A copy of this start.
    pub fn copied(&self) -> Start {
        Start {
            sid: self.sid,
            generation: self.generation,
            program: self.program,
        }
    }

    /// The report of its end.
    pub fn end(&self, exit: Exit) -> Report {
        match self.program {
            Program::Run => Report::Death(self.sid, self.generation, exit),
            Program::Finish => Report::FinishEnded(self.sid, self.generation, exit),
        }
    }
}

/// Whether no report of the start comes after this one.
pub(crate) fn is_last(report: &Report) -> bool
    ensures { result ≡ is_last report.now }
{
    matches!(
        report,
        Report::StartFailed(..) | Report::Death(..) | Report::FinishEnded(..)
    )
}
