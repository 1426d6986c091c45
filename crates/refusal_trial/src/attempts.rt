//! Each part of the trial is made again where memory was refused.
use arrayvec::ArrayVec;
use s6_events::{NoMemory, Order, Sid};
use std::io::Write;

/// What is printed. It takes no memory.
pub type Text = ArrayVec<u8, 24_576>;

/// What came of the attempts so far.
#[derive(Drop)]
pub struct Attempts {
    text: Text,
    refusals: u32,
}

impl Attempts {
    /// Nothing was tried.
    pub fn new() -> Attempts {
        Attempts {
            text: Text::new(),
            refusals: 0,
        }
    }

    /// What is printed.
    pub fn text(&self) -> &[u8] {
        self.text.as_slice()
    }

    /// How often memory was refused.
    pub fn refusals(&self) -> u32 {
        self.refusals
    }

    /// Counts a refusal.
    pub fn refuse(&mut self) {
        self.refusals = self.refusals.saturating_add(1);
    }

    /// Adds what came of a part.
    pub fn add(&mut self, bytes: &[u8]) {
        let _ = self.text.try_extend_from_slice(bytes);
    }

    /// Tells an order. It takes no memory.
    pub fn tell_order(&mut self, order: &Order) {
        let _ = match order {
            Order::Run(Sid(sid), generation, _, descriptor) => {
                writeln!(self.text, "run {sid} {generation}, ready on {descriptor:?}")
            }
            Order::Finish(Sid(sid), generation, _, code, signal) => {
                writeln!(self.text, "finish {sid} {generation} {code} {signal}")
            }
            Order::Signal(Sid(sid), generation, number) => {
                writeln!(self.text, "signal {sid} {generation} {number}")
            }
            Order::KillFinish(Sid(sid), generation) => {
                writeln!(self.text, "kill finish {sid} {generation}")
            }
        };
    }

    /// Begins a part of this name.
    pub fn begin(&mut self, name: &str) {
        self.add(b"-- ");
        self.add(name.as_bytes());
        self.add(b"\n");
    }

    /// Makes a part of this name.
    pub fn make<F: FnMut(&mut Text) -> Result<(), NoMemory>>(&mut self, name: &str, part: F)
        requires { F.IsAlwaysCallable part }
    {
        self.begin(name);
        self.again(part);
    }

    /// Does something, and once more where it was refused memory. What a refused attempt printed is
    /// forgotten.
    pub fn again<F: FnMut(&mut Text) -> Result<(), NoMemory>>(&mut self, mut part: F)
        requires { F.IsAlwaysCallable part }
    {
        for _ in 0..2 {
            let mut text = Text::new();
            match part(&mut text) {
                Ok(()) => return self.add(text.as_slice()),
                Err(_) => self.refuse(),
            }
        }
        self.add(b"refused twice\n");
    }
}
