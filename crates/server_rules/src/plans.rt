//! What is planned for actor 0, the scanner: scans that clients asked for (`askers`; the scan under
//! way is for `served`), and ticks for timers.
ghost use Rattle.std.specs.Prelude.{◌≡◌, [], true, false};
ghost use Rattle.server_rules.specs.Plans.{is_called, wanted_at};

use arrayvec::ArrayVec;
use line_server::SLOT_COUNT;
use std::mem;

/// The slots of clients that asked for a scan. A client has one scan under way at most, so a slot
/// is listed once at most.
pub type Askers = ArrayVec<usize, SLOT_COUNT>;

/// What actor 0 is to hand in at a moment.
#[derive(Clone, Copy, PartialEq, Eq, Debug)]
pub enum Wanted {
    /// Nothing, until somebody asks.
    Nothing,
    /// Nothing before this moment.
    At(u64),
    /// A tick: the moment to which a timer or a deadline is set has come.
    Tick,
    /// A scan, for the clients that ask.
    Scan,
}

/// What is planned for actor 0: when the next tick is due, who waits for a scan that isn't begun
/// (`askers`), and for whom the scan that is under way is made (`served`).
#[derive(Drop)]
pub struct Plans {
    /// The moment to which a timer or a deadline is set, in milliseconds. A tick before it changes
    /// nothing but the clock (`tree_core::laws::sleep`), so nobody has to wake before it.
    pub due: Option<u64>,
    /// Those who wait for a scan that isn't begun.
    pub askers: Askers,
    /// Whether a scan is under way: the directory is read, or the scan is handed in and not
    /// answered.
    pub is_scanning: bool,
    /// Those for whom the scan is made.
    pub served: Askers,
}

impl Plans {
    /// Nothing is planned.
    pub fn new() -> Plans {
        Plans {
            due: None,
            askers: ArrayVec::new(),
            is_scanning: false,
            served: ArrayVec::new(),
        }
    }

    /// Whether a client waits for a scan to begin. While one is under way, the next one waits.
    pub fn is_called(&self) -> bool
        ensures { result ≡ is_called self.now }
    {
        !self.askers.is_empty() && !self.is_scanning
    }

    /// What actor 0 is to hand in at this moment, in milliseconds: a scan where a client waits for
    /// one to begin (`is_called`), else a tick once the moment has come to which a timer or a
    /// deadline is set (`due`).
    pub fn wanted(&self, now: u64) -> Wanted
        ensures { result ≡ wanted_at self.now now }
    {
        if self.is_called() {
            return Wanted::Scan;
        }
        match self.due {
            Some(due) if due <= now => Wanted::Tick,
            Some(due) => Wanted::At(due),
            None => Wanted::Nothing,
        }
    }

    /// A scan begins, for all who asked.
    pub fn begin_scan(&mut self)
        ensures served { self.new.served.items ≡ self.old.askers.items }
        ensures askers { self.new.askers.items ≡ [] }
        ensures under_way { self.new.is_scanning ≡ true }
        ensures due { self.new.due ≡ self.old.due }
    {
        self.served = mem::replace(&mut self.askers, ArrayVec::new());
        self.is_scanning = true;
    }

    /// The scan is over, and the next one may begin. Returns those for whom it was made.
    pub fn end_scan(&mut self) -> Askers
        ensures served { result.items ≡ self.old.served.items }
        ensures none { self.new.served.items ≡ [] }
        ensures over { self.new.is_scanning ≡ false }
        ensures askers { self.new.askers.items ≡ self.old.askers.items }
    {
        self.is_scanning = false;
        mem::replace(&mut self.served, ArrayVec::new())
    }
}
