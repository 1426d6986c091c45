//! A step of the table that is worked out, and what a step gives.
ghost use Rattle.std.specs.Prelude.{◌≡◌};

use super::entry::Listed;
use super::event::Event;
use s6_events::{Order, Sid};
use std::alloc::Allocator;
use std::marker::Model;

/// Stands for a step that a registry worked out and keeps, until it works out the next one.
/// `Registry::commit` makes that step. Where the plan is dropped, the registry stays as it is.
/// Contracts see it as the number of the step.
#[derive(Drop)]
pub struct RegistryPlan {
    pub(crate) number: u64,
}

impl Model for RegistryPlan {
    ghost use Rattle.std.specs.Prelude.{ℕ};

    ghost Value = { ℕ };

    ghost view = { λ p. p.number };
}

/// What a scan, or a command to all services, gives: the marks and orders of each service in the
/// order made, the serials that were dropped, and what became of each listed name for which there
/// was no service.
#[derive(Drop)]
pub struct RegistryAnswer<A: Allocator> {
    pub events: Vec<Event, A>,
    pub orders: Vec<Order, A>,
    pub dropped: Vec<Sid, A>,
    pub listed: Vec<Listed, A>,
}

impl RegistryPlan {
    /// The plan of the step of this number.
    pub fn of(number: u64) -> RegistryPlan
        ensures { result ≡ number }
    {
        RegistryPlan { number }
    }
}
