//! Names of services, as a wait has them.
ghost use Rattle.std.specs.Prelude.{◌≡◌, IfOk};
ghost use Rattle.svscan_core.specs.Names.{repeats_name};

use s6_events::{Name, NoMemory};
use std::alloc::Allocator;
use std::collections::BTreeSet;
use std::marker::Model;

/// Names of services, in any number and any order, as a wait has them.
#[derive(Drop)]
pub struct Names<A: Allocator> {
    names: Vec<Name, A>,
}

impl<A: Allocator> Model for Names<A> {
    ghost use Rattle.std.specs.Prelude.{List, ℕ};

    ghost Value = { List (List ℕ) };

    ghost view = { λ n. n.names.items };
}

impl<A: Allocator> Names<A> {
    /// These names.
    pub fn new(names: Vec<Name, A>) -> Names<A>
        ensures { result ≡ names.items }
    {
        Names { names }
    }

    /// The names, in the order in which they came.
    pub fn names(&self) -> &[Name]
        ensures { result.now ≡ self.now }
    {
        self.names.as_slice()
    }
}

/// Whether a name is among these twice. `NoMemory` where memory is refused.
pub fn has_repeated_name<A: Allocator + Copy>(alloc: A, names: &[Name]) -> Result<bool, NoMemory>
    ensures { IfOk result (λ repeats. repeats ≡ repeats_name names.now) }
{
    let mut set = BTreeSet::new(alloc);
    let mut repeats = false;
    for name in names {
        // `insert` answers false for a name that came before.
        repeats |= !set.insert(*name)?;
    }
    Ok(repeats)
}
