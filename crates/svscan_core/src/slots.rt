//! Where the services are kept: slots, with an index of their names.
ghost use Rattle.std.specs.Prelude.{◌≡◌, [], ◌∷◌, ◌++◌, ◌+◌, ◌<◌, ◌≤◌, false, length, find, bytes_eq, slice_get, slice_set, option_map, vec_capacity, None, Some, IsSomeAnd, OnOk, IsOk};
ghost use Rattle.std.specs.List.{list_any};
ghost use Rattle.slab.specs.Slab.{get, slab_len, Updates};
ghost use Rattle.supervise_core.specs.Service.{Supervised, with_view};
ghost use Rattle.svscan_core.specs.Names.{repeats_name};
ghost use Rattle.svscan_core.specs.Table.{charts_of, names_of, without_name};

use indexmap::IndexMap;
use s6_events::{At, Exit, Name, NoMemory};
use slab::Slab;
use std::alloc::Allocator;
use std::hash::{BuildHasherDefault, FoldHasher};
use std::marker::Model;
use supervise_core::{Service, ServiceState};

/// The services, each in a slot of its own, and an index from their names to the slots, in the
/// order in which they were added. A service keeps its slot; its place is where its name is in the
/// index.
#[derive(Drop)]
pub struct Slots<A: Allocator> {
    slots: Slab<Service<A>, A>,
    index: IndexMap<Name, usize, BuildHasherDefault<FoldHasher>, A>,
}

impl<A: Allocator> Model for Slots<A> {
    ghost use Rattle.svscan_core.specs.Held.{SlotsView};

    ghost Value = { SlotsView };

    ghost use Rattle.svscan_core.specs.SlotFields.{slots_view, IsHeld};

    ghost view = { slots_view };

    ghost invariant = { IsHeld };
}

// Gives the service in this slot this state and status, and adds the death to its tally, if there
// is one.
fn adopt_in<A: Allocator + Copy>(
    slots: &mut Slab<Service<A>, A>,
    slot: usize,
    standing: &ServiceState,
    death: Option<(At, Exit)>,
)
    ensures updates { (s : Supervised) → get slots.old slot ≡ Some s
        → Updates slots.old slots.new slot (Some (with_view standing.now death s)) }
    ensures count { slab_len slots.new ≡ slab_len slots.old }
    ensures capacity { slots.new.capacity ≡ slots.old.capacity }
{
    if let Some(service) = slots.get_mut(slot) {
        service.adopt(standing, death);
    }
}

// Takes the service out of this slot, if there is one.
fn empty_slot<A: Allocator + Copy>(slots: &mut Slab<Service<A>, A>, slot: usize)
    ensures updates { Updates slots.old slots.new slot None }
    ensures count { slab_len slots.new ≤ slab_len slots.old }
    ensures capacity { slots.new.capacity ≡ slots.old.capacity }
{
    let _removed = slots.try_remove(slot);
}

impl<A: Allocator + Copy> Slots<A> {
    /// Slots with no service, and an empty index from names to slots.
    pub fn new(alloc: A) -> Slots<A>
        ensures services { result.services ≡ [] }
    {
        Slots {
            slots: Slab::new(alloc),
            index: IndexMap::new(alloc),
        }
    }

    /// How many services there are. No two of them have the same name.
    pub fn len(&self) -> usize
        ensures count { result ≡ length self.now.services }
        ensures names { repeats_name (names_of (charts_of self.now.services)) ≡ false }
    {
        self.index.len()
    }

    /// The service at this place, in the order in which they were added. The index has at that
    /// place the number of its slot.
    pub fn nth(&self, place: usize) -> Option<&Service<A>>
        ensures { option_map (λ s. s.now) result ≡ slice_get self.now.services place }
    {
        let (_, slot) = self.index.get_index(place)?;
        self.slots.get(*slot)
    }

    /// The service of this name.
    pub fn find(&self, name: &Name) -> Option<&Service<A>>
        ensures { option_map (λ s. s.now) result
            ≡ find (λ s. bytes_eq name.now s.chart.name) self.now.services }
    {
        let slot = self.index.get(name)?;
        self.slots.get(*slot)
    }

    /// Whether there is a service of this name.
    pub fn has(&self, name: &Name) -> bool
        ensures { result ≡ list_any (λ s. bytes_eq name.now s.chart.name) self.now.services }
    {
        self.index.contains_key(name)
    }

    /// Gives the service at this place this state and status, and adds the death to its tally, if
    /// there is one. Its name stays.
    pub fn adopt(&mut self, place: usize, standing: &ServiceState, death: Option<(At, Exit)>)
        requires name { IsSomeAnd (slice_get self.old.services place)
            (λ s. s.chart.name ≡ standing.now.chart.name) }
        ensures services { (s : Supervised) → slice_get self.old.services place ≡ Some s
            → self.new.services
            ≡ slice_set self.old.services place (with_view standing.now death s) }
        ensures room { self.new.room ≡ self.old.room }
    {
        // Called only for the proof: the contract of `len` says that no two names are equal.
        let _count = self.index.len();
        if let Some((_, slot)) = self.index.get_index(place) {
            adopt_in(&mut self.slots, *slot, standing, death);
        }
    }

    /// Takes the service of this name, if there is one, out of the index and out of its slot; the
    /// others keep their order.
    pub fn remove(&mut self, name: Name)
        ensures services { self.new.services ≡ without_name self.old.services name }
        ensures room { self.old.room ≤ self.new.room }
    {
        // Called only for the proof: the contract of `len` says that no two names are equal.
        let _count = self.index.len();
        if let Some(slot) = self.index.shift_remove(&name) {
            empty_slot(&mut self.slots, slot);
        }
    }

    /// Makes room for `count` more services. `NoMemory` where memory is refused; the services stay
    /// as they are.
    pub fn reserve(&mut self, count: usize) -> Result<(), NoMemory>
        ensures services { self.new.services ≡ self.old.services }
        ensures room { OnOk result (count ≤ self.new.room) }
        ensures quiet { count ≡ 0 → IsOk result }
    {
        if count == 0 {
            return Ok(());
        }
        self.slots.reserve(count)?;
        self.index.reserve(count)?;
        Ok(())
    }

    /// Adds a service of a new name, as the last one; there is room for it.
    pub fn add(&mut self, service: Service<A>)
        requires room { 0 < self.old.room }
        requires absent { list_any (λ s. bytes_eq service.chart.name s.chart.name) self.old.services
            ≡ false }
        ensures services { self.new.services ≡ self.old.services ++ service ∷ [] }
        ensures room { self.old.room ≤ self.new.room + 1 }
    {
        let name = service.chart().name;
        let slot = self.slots.insert_reserved(service);
        // The name is new, so that no other slot had it; and there is room, so that no memory is
        // asked for.
        let _old = self.index.insert(name, slot).unwrap();
    }

    /// Adds all of these as the last ones, in their order; there is room for them. `added` is empty
    /// then, and keeps its memory.
    pub fn add_all(&mut self, added: &mut Vec<Service<A>, A>)
        requires room { length added.old.items ≤ self.old.room }
        requires names { repeats_name (names_of (charts_of (self.old.services ++ added.old.items)))
            ≡ false }
        ensures services { self.new.services ≡ self.old.services ++ added.old.items }
        ensures added { added.new.items ≡ [] }
        ensures capacity { vec_capacity added.new ≡ vec_capacity added.old }
    {
        for service in added.drain(..) {
            self.add(service);
        }
    }

    /// The allocator that it was made with.
    pub fn allocator(&self) -> A {
        *self.index.allocator()
    }
}
