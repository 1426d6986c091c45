//! The clock of a tree.
use s6_events::At;
use std::io;
use std::time::{Clock, Instant, SystemTime, UNIX_EPOCH};

/// Milliseconds since the server began, through all its runs.
#[derive(Clone, Copy)]
pub struct ServerClock {
    start: Instant,
    /// The time of day at which it began, in milliseconds since 1970.
    pub since: u64,
}

impl ServerClock {
    /// A clock that begins now; None where the system has no clock.
    pub fn start<R: Clock>(rt: &R) -> Option<ServerClock> {
        match (Instant::now(rt), time_of_day(rt)) {
            // `start` is of a clock that never goes back; `since` is the time of day.
            (Ok(start), Ok(since)) => Some(ServerClock { start, since }),
            _ => None,
        }
    }

    /// The present moment, in milliseconds; 0 where the system has no clock any more.
    pub fn millis<R: Clock>(&self, rt: &R) -> u64 {
        match self.start.elapsed(rt) {
            Ok(passed) => u64::try_from(passed.as_millis()).unwrap_or(u64::MAX),
            Err(_) => 0,
        }
    }
}

// The time of day, in milliseconds since 1970; 0 before that.
fn time_of_day<R: Clock>(rt: &R) -> io::Result<u64> {
    match SystemTime::now(rt)?.duration_since(UNIX_EPOCH) {
        Ok(passed) => Ok(u64::try_from(passed.as_millis()).unwrap_or(u64::MAX)),
        Err(_) => Ok(0),
    }
}

/// The moment of so many milliseconds; 0 where they are more than a moment can have. That does no
/// harm, since the clock of a tree never goes back.
pub fn moment_of(millis: u64) -> At {
    At::new(millis).unwrap_or(At::zero())
}
