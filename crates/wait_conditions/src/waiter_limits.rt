//! The limits of waiters: the services of one, and how many stand at a time. Before these are
//! looked at, `refusals.rt` of tree_core refuses a wait by its names.
ghost use Rattle.std.specs.Prelude.{◌≡◌};
ghost use Rattle.wait_conditions.specs.Refusal.{is_named_in, repeats_serial, add_refusal};

use crate::add_fault::AddFault;
use s6_events::Sid;

/// The most services that one waiter watches.
pub const MOST_WATCHED: usize = 16;

/// The most waiters that there are at one time, those that were released and not cancelled
/// included.
pub const WAITER_LIMIT: usize = 1024;

// Whether the service of this serial is one of these.
fn is_among(sid: Sid, sids: &[Sid]) -> bool
    ensures { result ≡ is_named_in sids.now sid }
{
    sids.iter().any(|other| other.0 == sid.0)
}

// Whether a service is named twice.
fn has_repeat(sids: &[Sid]) -> bool
    ensures { result ≡ repeats_serial sids.now }
{
    for i in 0..sids.len() {
        if is_among(sids[i], &sids[i + 1..]) {
            return true;
        }
    }
    false
}

/// Why a waiter for the services of these serials is refused, where there are `standing` waiters
/// already (released ones too); None where it is not refused.
pub fn refusal_for(standing: usize, sids: &[Sid]) -> Option<AddFault>
    ensures { result ≡ add_refusal standing sids.now }
{
    if sids.is_empty() {
        Some(AddFault::Empty)
    } else if has_repeat(sids) {
        Some(AddFault::Repeated)
    } else if sids.len() > MOST_WATCHED {
        Some(AddFault::TooManyServices)
    } else if standing >= WAITER_LIMIT {
        Some(AddFault::TooMany)
    } else {
        None
    }
}
