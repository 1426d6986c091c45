//! When something is next due in a tree by itself: the next moment to which a timer is set. And
//! whether all its supervisors have ended.
ghost use Rattle.std.specs.Prelude.{◌≡◌, ◌<◌, Some, length, map, slice_get, option_map};
ghost use Rattle.std.specs.List.{list_all};
ghost use Rattle.supervise_core.specs.ChartState.{is_gone};
ghost use Rattle.svscan_core.specs.Table.{charts_of};
ghost use Rattle.tree_core.specs.NextDue.{next_timer};

use std::alloc::Allocator;
use supervise_core::{Phase, Service};
use svscan_core::Registry;
use wait_conditions::earlier_of;

// The service at a place.
fn service_at<A: Allocator + Copy>(registry: &Registry<A>, place: usize) -> &Service<A>
    requires { place < length registry.now.shown.services }
    ensures { slice_get registry.now.shown.services place ≡ Some result.now }
{
    match registry.at(place) {
        Some(service) => service,
        // The callers ask only for places below the number of services.
        None => unreachable!(),
    }
}

/// The earliest moment to which the timer of a service is set; None where no timer is set.
pub fn next_timer<A: Allocator + Copy>(registry: &Registry<A>) -> Option<u64>
    ensures { result ≡ next_timer (charts_of registry.now.shown.services) }
{
    let mut next = None;
    for place in 0..registry.len() {
        next = earlier_of(next, service_at(registry, place).timer());
    }
    next
}

// Whether the phase is that of a service whose supervisor has ended.
fn is_gone(phase: Phase) -> bool
    ensures { result ≡ is_gone phase }
{
    matches!(phase, Phase::Gone)
}

/// Whether the supervisor of each service has ended.
pub fn are_gone<A: Allocator + Copy>(registry: &Registry<A>) -> bool
    ensures { result ≡ list_all (λ c. is_gone c.phase) (charts_of registry.now.shown.services) }
{
    for place in 0..registry.len() {
        if !is_gone(service_at(registry, place).chart().phase) {
            return false;
        }
    }
    true
}
