//! A listing of the scan directory: whether it repeats a name, and its entries in the order of
//! their names' bytes.
ghost use Rattle.std.specs.Prelude.{◌≡◌, IfOk, false};
ghost use Rattle.svscan_core.specs.Listing.{names_in, has_entry, listed_config, in_byte_order};
ghost use Rattle.svscan_core.specs.Names.{repeats_name};
ghost use Rattle.svscan_core.specs.SortedListing.{AreAlike};

use super::entry::Entry;
use s6_events::{Name, NoMemory};
use servicedir::Config;
use std::alloc::{AllocError, Allocator};
use std::collections::{BTreeMap, HashSet};
use std::marker::Model;

/// A listing in the order of its names' bytes: each name with the configuration that was read of
/// its directory.
#[derive(Drop)]
pub struct SortedListing<A: Allocator> {
    found: BTreeMap<Name, Option<Config>, A>,
}

impl<A: Allocator> Model for SortedListing<A> {
    ghost use Rattle.std.specs.Prelude.{List};
    ghost use Rattle.svscan_core.specs.declared.entry.Entry.{Entry};

    ghost Value = { List Entry };

    ghost use Rattle.svscan_core.specs.SortedListing.{sorted_entries};

    ghost view = { sorted_entries };
}

impl<A: Allocator + Copy> SortedListing<A> {
    /// Whether it has an entry of the name.
    pub fn has(&self, name: &Name) -> bool
        ensures { result ≡ has_entry self.now name.now }
    {
        self.found.contains_key(name)
    }

    /// The configuration that was read of the directory of the name; None where the name is not
    /// listed, or its directory couldn't be read.
    pub fn config_of(&self, name: &Name) -> Option<Config>
        ensures { result ≡ listed_config self.now name.now }
    {
        match self.found.get(name) {
            Some(config) => *config,
            None => None,
        }
    }

    /// Its names, in the order of their bytes.
    pub fn names(&self, alloc: A) -> Result<Vec<Name, A>, AllocError>
        ensures { IfOk result (λ names. names.items ≡ names_in self.now) }
    {
        self.found.keys().copied().collect(alloc)
    }
}

/// Sorts a listing, in which no name stands twice: each name goes to its place in the order of
/// bytes.
pub fn sort_listing<A: Allocator + Copy>(
    alloc: A,
    listing: &[Entry],
) -> Result<SortedListing<A>, NoMemory>
    requires { repeats_name (names_in listing.now) ≡ false }
    ensures names { IfOk result (λ sorted. names_in sorted ≡ in_byte_order (names_in listing.now)) }
    ensures alike { IfOk result (λ sorted. AreAlike sorted listing.now) }
{
    let mut found = BTreeMap::new(alloc);
    for entry in listing {
        // No name stands twice, so that no other entry is replaced.
        let _other = found.insert(entry.name, entry.config)?;
    }
    Ok(SortedListing { found })
}

/// Whether a name stands twice in the listing.
pub fn has_repeats<A: Allocator + Copy>(alloc: A, listing: &[Entry]) -> Result<bool, NoMemory>
    ensures { IfOk result (λ repeats. repeats ≡ repeats_name (names_in listing.now)) }
{
    let mut names = HashSet::new(alloc);
    let mut repeats = false;
    for entry in listing {
        // `insert` answers false for a name that came before.
        repeats |= !names.insert(entry.name)?;
    }
    Ok(repeats)
}
