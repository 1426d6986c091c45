//! Making a prepared step: changed services, dropped ones and new ones.
ghost use Rattle.std.specs.Prelude.{◌≡◌, ◌≤◌, [], length, false, vec_capacity};
ghost use Rattle.svscan_core.specs.Moving.{with_changes, KeepNames};
ghost use Rattle.svscan_core.specs.Names.{repeats_name};
ghost use Rattle.svscan_core.specs.Scanning.{without_names, prepared_services};
ghost use Rattle.svscan_core.specs.Table.{charts_of, names_of};

use super::moves::ChangedService;
use super::slots::Slots;
use s6_events::Name;
use std::alloc::Allocator;
use supervise_core::Service;

// Gives the service at each of these places its new state and status (`standing`), and adds the
// death that it reported, if any, to its last deaths.
fn adopt_all<A: Allocator + Copy>(slots: &mut Slots<A>, touched: &[ChangedService])
    requires { KeepNames slots.old.services touched.now }
    ensures services { slots.new.services ≡ with_changes slots.old.services touched.now }
    ensures room { slots.new.room ≡ slots.old.room }
{
    for change in touched {
        slots.adopt(change.place, &change.standing, change.death);
    }
}

// Takes out the services of these names.
fn remove_all<A: Allocator + Copy>(slots: &mut Slots<A>, names: &[Name])
    ensures services { slots.new.services ≡ without_names slots.old.services names.now }
    ensures room { slots.old.room ≤ slots.new.room }
{
    for name in names {
        slots.remove(*name);
    }
}

/// Makes the step that was worked out: the touched services become what they are to be, the dropped
/// ones leave, and the added ones go last. No memory is taken, for room was made before. `added` is
/// empty then, and keeps its memory.
pub fn commit_changes<A: Allocator + Copy>(
    slots: &mut Slots<A>,
    touched: &[ChangedService],
    dropped: &[Name],
    added: &mut Vec<Service<A>, A>,
)
    requires names { KeepNames slots.old.services touched.now }
    requires room { length added.old.items ≤ slots.old.room }
    requires unique { repeats_name
        (names_of (charts_of (prepared_services slots.old.services touched.now dropped.now
        added.old.items))) ≡ false }
    ensures services { slots.new.services
        ≡ prepared_services slots.old.services touched.now dropped.now added.old.items }
    ensures added { added.new.items ≡ [] }
    ensures capacity { vec_capacity added.new ≡ vec_capacity added.old }
{
    adopt_all(slots, touched);
    remove_all(slots, dropped);
    slots.add_all(added);
}
