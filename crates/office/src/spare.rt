//! The lists that the close of an office fills.
ghost use Rattle.std.specs.Prelude.{◌≡◌, ◌≤◌, [], vec_capacity};

use crate::new_office::LANE_LIMIT;
use order_lanes::{Backend, Desk, Lanes};
use s6_events::NoMemory;
use std::alloc::Global;

/// Empty lists with room for the desks of all lanes, and for their backends. They are made when an
/// office is opened, so that its close takes no memory.
#[derive(Drop)]
pub struct Spare<B: Backend, L: Lanes> {
    pub desks: Vec<Desk<B, L>>,
    pub backends: Vec<B>,
    ghost no_desk: { desks.items ≡ [] },
    ghost desk_room: { 4 ≤ vec_capacity desks },
    ghost no_backend: { backends.items ≡ [] },
    ghost backend_room: { 4 ≤ vec_capacity backends },
}

impl<B: Backend, L: Lanes> Spare<B, L> {
    /// New lists. `NoMemory` where memory is refused.
    pub fn new(alloc: Global) -> Result<Spare<B, L>, NoMemory> {
        Ok(Spare {
            desks: Vec::with_capacity(alloc, LANE_LIMIT)?,
            backends: Vec::with_capacity(alloc, LANE_LIMIT)?,
        })
    }
}
