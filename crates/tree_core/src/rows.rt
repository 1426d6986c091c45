//! The status rows of the services.
ghost use Rattle.std.specs.Prelude.{◌≡◌, ◌<◌, ◌≤◌, List, OnOk, Some, slice_get, length, map, find, bytes_eq, option_map};
ghost use Rattle.s6_events.specs.declared.moment.Moment.{Moment};
ghost use Rattle.supervise_core.specs.StatusRow.{status_row};
ghost use Rattle.svscan_core.specs.Sound.{AllAgree};
ghost use Rattle.svscan_core.specs.Table.{charts_of};

use super::limits::SERVICE_LIMIT;
use arrayvec::ArrayVec;
use s6_events::{At, Name, NoMemory};
use std::alloc::Allocator;
use supervise_core::Row;
use svscan_core::Registry;

/// The status row of the service of this name; None where no service has it.
pub fn row_of<A: Allocator + Copy>(registry: &Registry<A>, name: Name, now: At) -> Option<Row>
    ensures { (history : List Moment) → AllAgree registry.now.shown.services history
        → result ≡ option_map (status_row history now)
        (find (λ c. bytes_eq name c.name) (charts_of registry.now.shown.services)) }
{
    Some(registry.named(name)?.row(now))
}

// The status row of the service at a place.
fn row_at<A: Allocator + Copy>(registry: &Registry<A>, place: usize, now: At) -> Row
    requires { place < length registry.now.shown.services }
    ensures { (history : List Moment) → AllAgree registry.now.shown.services history
        → slice_get (map (status_row history now) (charts_of registry.now.shown.services)) place
        ≡ Some result }
{
    match registry.at(place) {
        Some(service) => service.row(now),
        // The callers ask only for places below the number of services.
        None => unreachable!(),
    }
}

/// The status rows of all services.
pub fn rows_of<A: Allocator + Copy>(registry: &Registry<A>, now: At) -> ArrayVec<Row, SERVICE_LIMIT>
    ensures { (history : List Moment) → AllAgree registry.now.shown.services history
        → result.items ≡ map (status_row history now) (charts_of registry.now.shown.services) }
{
    let mut rows = ArrayVec::new();
    for place in 0..registry.len() {
        rows.push(row_at(registry, place, now));
    }
    rows
}

/// Fills a list with the status rows of all services; what it held is gone. `NoMemory` where memory
/// is refused: the list is then filled in part.
pub fn fill_rows<A: Allocator + Copy, B: Allocator>(
    registry: &Registry<A>,
    now: At,
    rows: &mut Vec<Row, B>,
) -> Result<(), NoMemory>
    ensures each { OnOk result ((history : List Moment)
        → AllAgree registry.now.shown.services history
        → rows.new.items
        ≡ map (status_row history now) (charts_of registry.now.shown.services)) }
    ensures count { OnOk result (length rows.new.items ≤ 256) }
{
    rows.clear();
    rows.reserve(registry.len())?;
    for place in 0..registry.len() {
        rows.push(row_at(registry, place, now))?;
    }
    Ok(())
}
