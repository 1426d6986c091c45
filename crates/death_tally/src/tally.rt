//! The last deaths of a service: its tally, which lies in a ring buffer.
ghost use Rattle.std.specs.Prelude.{◌≡◌, ◌++◌, ◌∷◌, [], IfOk, List, ℕ};
ghost use Rattle.s6_events.specs.declared.exit.Exit.{Exit};
ghost use Rattle.death_tally.specs.LastDeaths.{Tallies, new_tally, with_death};

use circular_buffer::HeapCircularBuffer;
use s6_events::{At, Exit, NoMemory};
use std::alloc::Allocator;
use std::marker::Model;

/// The last deaths of a service, each with its moment, oldest first. They lie in a ring with a
/// place for each death that it may keep; there is no ring where it keeps none. Page `servicedir`,
/// `max-death-tally`.
#[derive(Drop)]
pub struct Tally<A: Allocator> {
    ring: Option<HeapCircularBuffer<(At, Exit), A>>,
    // How many deaths it keeps at most.
    most: u16,
}

impl<A: Allocator> Model for Tally<A> {
    ghost use Rattle.death_tally.specs.LastDeaths.{Deaths};

    ghost Value = { Deaths };

    ghost use Rattle.death_tally.specs.TallyFields.{deaths_in, IsTally};

    ghost view = { deaths_in };

    ghost invariant = { IsTally };
}

impl<A: Allocator + Copy> Tally<A> {
    /// An empty tally that keeps at most `most` deaths; 0 keeps none. It takes the memory for all
    /// of them. `NoMemory` where that is refused. The deaths will lie in a ring buffer (`ring`) of
    /// that many places; there is none where `most` is 0.
    pub fn new(alloc: A, most: u16) -> Result<Tally<A>, NoMemory>
        ensures { IfOk result (λ tally. tally ≡ new_tally most) }
    {
        let ring = if most == 0 {
            None
        } else {
            Some(HeapCircularBuffer::with_capacity(alloc, usize::from(most))?)
        };
        Ok(Tally { ring, most })
    }

    /// Adds a death. Where the tally is full, the oldest one is forgotten. A tally that keeps none
    /// stays empty.
    pub fn add(&mut self, at: At, exit: Exit)
        ensures kept { self.new ≡ with_death self.old (at, exit) }
        ensures last { (all : List (ℕ × Exit)) → Tallies self.old all
            → Tallies self.new (all ++ (at, exit) ∷ []) }
    {
        if let Some(ring) = &mut self.ring {
            // A full ring gives back its oldest death, which is forgotten here.
            let _oldest = ring.push_back((at, exit));
        }
    }

    /// How many deaths it keeps at most.
    pub fn most(&self) -> u16
        ensures { result ≡ self.now.most }
    {
        self.most
    }

    /// The deaths that it has, oldest first, in the two parts in which they lie: those up to the
    /// end of the ring, and those that wrapped round.
    pub fn as_slices(&self) -> (&[(At, Exit)], &[(At, Exit)])
        ensures { result.0.now ++ result.1.now ≡ self.now.kept }
    {
        match &self.ring {
            Some(ring) => ring.as_slices(),
            None => (&[], &[]),
        }
    }

    /// A copy of the deaths that it has, oldest first. `NoMemory` where memory for that is refused.
    pub fn list<B: Allocator + Copy>(&self, alloc: B) -> Result<Vec<(At, Exit), B>, NoMemory>
        ensures { IfOk result (λ deaths. deaths.items ≡ self.now.kept) }
    {
        let mut deaths = Vec::new(alloc);
        let (front, back) = self.as_slices();
        deaths.extend_from_slice(front)?;
        deaths.extend_from_slice(back)?;
        Ok(deaths)
    }
}
