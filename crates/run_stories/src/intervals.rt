//! The intervals of a lane of a timeline, in tenths of a pixel: each shows one shade, which is what
//! the service was.
ghost use Rattle.std.specs.Prelude.{◌≡◌, OnOk};
ghost use Rattle.run_stories.specs.Intervals.{Fill, shown_at, with_interval};
ghost use Rattle.run_stories.specs.declared.shade.Shade.TheVariants.{Absent};

use crate::lanes::ShadeChange;
use crate::scale::{Scale, WIDTH};
use crate::shade::Shade;
use std::alloc::{AllocError, Allocator};

/// A part of a lane, from one place to another, in tenths of a pixel, and the shade that it shows.
#[derive(Clone, Copy)]
pub struct Interval {
    pub from: u64,
    pub to: u64,
    pub shade: Shade,
}

// Adds an interval of this shade, unless it would be empty.
fn cut<A: Allocator>(
    intervals: &mut Vec<Interval, A>,
    from: u64,
    to: u64,
    shade: Shade,
) -> Result<(), AllocError>
    ensures { OnOk result (intervals.new.items ≡ with_interval intervals.old.items from to shade) }
{
    if from < to {
        intervals.push(Interval { from, to, shade })?;
    }
    Ok(())
}

/// Makes the intervals those of a lane with these changes, each of which begins a shade at a
/// moment. They fill the whole width, one behind the other, and show at each tenth of a pixel the
/// shade of the last change up to there. An error where memory is refused.
pub fn cut_lane<A: Allocator>(
    scale: &Scale,
    changes: &[ShadeChange],
    intervals: &mut Vec<Interval, A>,
) -> Result<(), AllocError>
    ensures { OnOk result
        (Fill (shown_at scale.now Absent changes.now) 0 intervals.new.items 10000) }
{
    intervals.clear();
    let mut from = 0;
    let mut shade = Shade::Absent;
    for change in changes {
        let place = scale.place(change.at);
        // What the lane showed before ends at the place of this change.
        cut(intervals, from, place, shade)?;
        from = place.max(from);
        shade = change.shade;
    }
    // The last shade goes on to the end.
    cut(intervals, from, WIDTH, shade)
}
