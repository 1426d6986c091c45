//! The scale of a timeline: which moments the width of the lanes stands for.
ghost use Rattle.std.specs.Prelude.{◌≡◌, ◌<◌, ◌-◌};
ghost use Rattle.run_stories.specs.Intervals.{place_of};

use s6_events::At;

/// The width of the lanes, in tenths of a pixel.
pub const WIDTH: u64 = 10_000;

/// The most marks of the axis.
pub const MARKS: u64 = 11;

/// Which moments the width stands for: from the first one to the last.
#[derive(Clone, Copy)]
pub struct Scale {
    pub first: At,
    pub last: At,
}

impl Scale {
    // How many milliseconds the width of the lanes stands for.
    fn whole(&self) -> u64
        ensures { result ≡ self.now.last - self.now.first }
    {
        self.last.millis().saturating_sub(self.first.millis())
    }

    /// The place of a moment on the width of the lanes, in tenths of a pixel: `WIDTH` of them stand
    /// for all moments of the scale.
    pub fn place(&self, at: At) -> u64
        ensures { result ≡ place_of self.now at }
    {
        let past = at.millis().saturating_sub(self.first.millis());
        (past * WIDTH / self.whole().max(1)).min(WIDTH)
    }

    /// How many milliseconds the marks of the axis are apart: one, two or five times a power of
    /// ten, so that no more than `MARKS` are needed.
    pub fn mark_step(&self) -> u64
        ensures { 0 < result }
    {
        let whole = self.whole();
        let mut unit = 1;
        // The greatest power of ten that is no more than `whole`, or 1.
        for _ in 0..18 {
            if unit <= whole / 10 {
                unit *= 10;
            }
        }
        // Now the width stands for less than ten units.
        if whole <= unit.saturating_mul(2) {
            (unit / 5).max(1)
        } else if whole <= unit.saturating_mul(5) {
            (unit / 2).max(1)
        } else {
            unit.max(1)
        }
    }

    /// The first moment that is marked, in milliseconds, where marks are `step` milliseconds apart:
    /// the first multiple of that from where the scale begins.
    pub fn first_mark(&self, step: u64) -> u64 {
        let first = self.first.millis();
        first.checked_next_multiple_of(step).unwrap_or(first)
    }
}
