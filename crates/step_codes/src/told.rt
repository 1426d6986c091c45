//! The codes of what a step tells: events and releases.
use crate::coded::{Code, Coded};
use s6_events::{Mark, Sid, WaitId};
use std::alloc::AllocError;
use svscan_core::Event;
use tree_core::Release;
use wait_conditions::Verdict;

impl Coded for Event {
    ghost use Rattle.step_codes.specs.ToldCodes.{event_onto, FitsEvent};

    ghost onto = { event_onto };

    ghost fits = { FitsEvent };

    // Adds its code: the serial of the service, and the mark.
    fn push(&self, code: &mut Vec<u8>) -> Result<(), AllocError> {
        self.sid.0.push(code)?;
        self.mark.push(code)?;
        Ok(())
    }

    // Reads the serial of the service, and the mark.
    fn take(code: &mut Code<'_>) -> Event {
        let sid = Sid(u64::take(code));
        let mark = Mark::take(code);
        Event { sid, mark }
    }
}

impl Coded for Release {
    ghost use Rattle.step_codes.specs.ToldCodes.{release_onto, FitsRelease};

    ghost onto = { release_onto };

    ghost fits = { FitsRelease };

    // The waiter, and a byte for its verdict: its condition held; it was given up, since a service
    // failed for good or since supervisors ended; or its deadline came.
    fn push(&self, code: &mut Vec<u8>) -> Result<(), AllocError> {
        self.waiter.0.push(code)?;
        code.push(match self.verdict {
            Verdict::Held => 0,
            Verdict::Failed => 1,
            Verdict::Gone => 2,
            Verdict::TimedOut => 3,
        })?;
        Ok(())
    }

    // Reads the waiter, and the byte of its verdict: its condition held; a service failed for good;
    // supervisors have ended; or its deadline came.
    fn take(code: &mut Code<'_>) -> Release {
        let waiter = WaitId(u64::take(code));
        let verdict = match code.take_byte() {
            0 => Verdict::Held,
            1 => Verdict::Failed,
            2 => Verdict::Gone,
            _ => Verdict::TimedOut,
        };
        Release { waiter, verdict }
    }
}
