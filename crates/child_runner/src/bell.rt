//! A bell: it wakes a thread that waits for something to do.
use std::sync::{Condvar, Mutex, Wait};
use std::time::{Clock, Duration};

/// A bell is rung when there is something to do, and rings until somebody has waited for it, so no
/// ring is missed. A backend rings its bell when it has something to report. Whoever sends orders
/// to the backend's thread may ring it too.
#[derive(Drop)]
pub struct Bell {
    is_ringing: Mutex<bool>,
    rang: Condvar,
}

impl Bell {
    /// A bell that doesn't ring.
    pub fn new() -> Bell {
        Bell {
            is_ringing: Mutex::new(false),
            rang: Condvar::new(),
        }
    }

    /// Rings it.
    pub fn ring<R: Wait>(&self, rt: &R) {
        *self.is_ringing.lock(rt) = true;
        self.rang.notify_all();
    }

    /// Waits until it rings, and stops it.
    pub fn wait<R: Wait>(&self, rt: &R) {
        let ringing = self.is_ringing.lock(rt);
        let mut ringing = self.rang.wait_while(rt, ringing, |rings| !*rings);
        *ringing = false;
    }

    /// Waits until it rings, but at most for `time`, and stops it. Returns whether it rang.
    pub fn wait_at_most<R: Wait + Clock>(&self, rt: &R, time: Duration) -> bool {
        let ringing = self.is_ringing.lock(rt);
        let (mut ringing, _late) = self
            .rang
            .wait_timeout_while(rt, ringing, time, |rings| !*rings);
        let rang = *ringing;
        *ringing = false;
        rang
    }
}
