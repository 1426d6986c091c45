//! All that a tree stores, as plain data.
use event_directory::DirectoriesImage;
use s6_events::{At, Moment};
use std::alloc::Allocator;
use std::marker::Model;
use svscan_core::RegistryImage;
use wait_conditions::WaitsImage;

/// All that a tree stores, as plain data. A clause sees it as what its tree stores, so that both
/// agree with the same states of the written machine (`specs/`).
#[derive(Drop)]
pub struct Image<A: Allocator> {
    pub clock: At,
    /// How many inputs it has taken.
    pub steps: u64,
    /// Whether it was told to terminate.
    pub closing: bool,
    pub registry: RegistryImage<A>,
    /// How many of the first moments of the history are forgotten: those before `kept`.
    pub forgotten: u64,
    pub kept: Vec<Moment, A>,
    pub waits: WaitsImage<A>,
    pub directories: DirectoriesImage<A>,
}

impl<A: Allocator> Model for Image<A> {
    ghost use Rattle.tree_core.specs.StandsFor.{StoredTree};

    ghost Value = { StoredTree };

    ghost view = { λ i. record {
      clock = i.clock;
      steps = i.steps;
      closing = i.closing;
      services = i.registry.services;
      next_sid = i.registry.next_sid;
      forgotten = i.forgotten;
      kept = i.kept.items;
      waits = i.waits;
      directories = i.directories;
    } };
}
