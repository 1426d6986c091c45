//! The lanes of a timeline, one for each service name: what each shows (a shade: up, ready, down
//! and so on), and from when on.
ghost use Rattle.std.specs.Prelude.{◌<◌, IfSome, IfOk, length};

use crate::effect_words::row_of;
use crate::shade::{Shade, Supervision, shade_of, supervision_after};
use s6_events::{At, Mark, Name};
use std::alloc::{AllocError, Allocator};
use supervise_core::Row;
use tree_core::{Effect, Tree};

/// A change of a lane: from this moment on it shows this shade.
#[derive(Clone, Copy)]
pub struct ShadeChange {
    pub at: At,
    pub shade: Shade,
}

/// The lane of all services with one name: one that was dropped and comes again has the same lane.
#[derive(Drop)]
pub struct TimelineLane<A: Allocator> {
    pub name: Name,
    // What its marks say of the service that has this name, or had it last.
    supervision: Supervision,
    pub changes: Vec<ShadeChange, A>,
}

/// The lanes of all services, in the order in which they were added.
#[derive(Drop)]
pub struct TimelineLanes<A: Allocator> {
    pub lanes: Vec<TimelineLane<A>, A>,
}

// Adds a change of a lane, if the shade is another than before. Of two changes at one moment the
// later one stays.
fn note<A: Allocator>(
    changes: &mut Vec<ShadeChange, A>,
    at: At,
    shade: Shade,
) -> Result<(), AllocError> {
    match changes.as_slice().last().copied() {
        Some(last) if last.shade == shade => return Ok(()),
        Some(last) if last.at == at => {
            let _replaced = changes.pop();
        }
        _ => {}
    }
    changes.push(ShadeChange { at, shade })?;
    Ok(())
}

impl<A: Allocator + Copy> TimelineLanes<A> {
    /// A timeline that has no lane yet.
    pub fn new(alloc: A) -> TimelineLanes<A> {
        TimelineLanes {
            lanes: Vec::new(alloc),
        }
    }

    // The place of the lane with this name. Where there is no such lane, it is made: it shows
    // nothing yet.
    fn place_of(&mut self, alloc: A, name: Name) -> Result<usize, AllocError>
        ensures { IfOk result (λ place. place < length self.new.lanes.items) }
    {
        let found = self
            .lanes
            .as_slice()
            .iter()
            .position(|lane| lane.name == name);
        if let Some(place) = found {
            return Ok(place);
        }
        let place = self.lanes.len();
        self.lanes.push(TimelineLane {
            name,
            // Its supervisor is there, until a mark says otherwise.
            supervision: Supervision::Supervised,
            changes: Vec::new(alloc),
        })?;
        Ok(place)
    }

    // Notes what the lane of this name shows now. `mark` is a mark that its service has given in
    // the step, if any; `row` is the status row of the service, None where it is gone.
    fn hear(
        &mut self,
        alloc: A,
        name: Name,
        mark: Option<Mark>,
        row: Option<Row>,
        now: At,
    ) -> Result<(), AllocError> {
        let place = self.place_of(alloc, name)?;
        let lane = &mut self.lanes[place];
        if let Some(mark) = mark {
            lane.supervision = supervision_after(lane.supervision, mark);
        }
        // What the marks say of the service (its supervision) and its row give the shade.
        let shade = match row {
            Some(row) => shade_of(lane.supervision, &row),
            None => Shade::Absent,
        };
        note(&mut lane.changes, now, shade)
    }

    /// Notes what lanes show after a step: those of the services with an event in it, and that of
    /// `named`, if there is such a service. `named` is the service to which the step sent letters,
    /// which may change what its lane shows without an event. An event has the serial of its
    /// service: these rows have its name. An error where memory is refused.
    pub fn note_step(
        &mut self,
        alloc: A,
        tree: &Tree<A>,
        rows: &[Row],
        effect: &Effect<A>,
        named: Option<Name>,
    ) -> Result<(), AllocError> {
        let now = tree.now();
        for event in effect.events.as_slice() {
            if let Some(known) = row_of(rows, event.sid) {
                let name = known.name;
                self.hear(alloc, name, Some(event.mark), tree.row(name), now)?;
            }
        }
        let Some(name) = named else {
            return Ok(());
        };
        match tree.row(name) {
            Some(row) => self.hear(alloc, name, None, Some(row), now),
            None => Ok(()),
        }
    }
}
