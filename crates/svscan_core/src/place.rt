//! The place of the service of a serial.
ghost use Rattle.std.specs.Prelude.{◌≡◌, ◌<◌, ◌==◌, length, false, true, Some, IfSome, IfNone, slice_get};
ghost use Rattle.std.specs.List.{list_any};
ghost use Rattle.deadlines.specs.Timers.{is_rising};
ghost use Rattle.svscan_core.specs.Table.{charts_of, serials_of};

use super::slots::Slots;
use s6_events::Sid;
use std::alloc::Allocator;

// Whether the service at this place has this serial.
fn is_at<A: Allocator + Copy>(slots: &Slots<A>, place: usize, sid: Sid) -> bool
    ensures bound { result ≡ true → place < length slots.now.services }
    ensures found { result ≡ true
        → slice_get (serials_of (charts_of slots.now.services)) place ≡ Some sid }
    ensures other { slice_get (serials_of (charts_of slots.now.services)) place ≡ Some sid
        → result ≡ true }
{
    let Some(service) = slots.nth(place) else {
        return false;
    };
    service.sid() == sid
}

/// The place of the service of this serial; None where no service has it. Until a service leaves,
/// each serial is one above its place, and is looked for there first. Serials rise with the places,
/// so that a search by halves finds it elsewhere.
pub fn place_of<A: Allocator + Copy>(slots: &Slots<A>, sid: Sid) -> Option<usize>
    requires order { is_rising (serials_of (charts_of slots.now.services)) ≡ true }
    ensures bound { IfSome result (λ p. p < length slots.now.services) }
    ensures found { IfSome result
        (λ p. slice_get (serials_of (charts_of slots.now.services)) p ≡ Some sid) }
    ensures none { IfNone result (list_any (λ s. s.chart.sid == sid) slots.now.services ≡ false) }
{
    let guess = sid.0.wrapping_sub(1) as usize;
    if is_at(slots, guess, sid) {
        return Some(guess);
    }
    let mut low = 0;
    let mut high = slots.len();
    while low < high {
        let middle = low + (high - low) / 2;
        let at = slots.nth(middle)?.sid();
        if at == sid {
            return Some(middle);
        }
        if at < sid {
            low = middle + 1;
        } else {
            high = middle;
        }
    }
    None
}
