//! A service as plain data.
use super::chart_state::ChartState;
use super::row::Status;
use s6_events::{At, Exit};
use std::alloc::Allocator;
use std::marker::Model;

/// A service as plain data: its state, what it stores of its marks, its last deaths, and how many
/// of these it keeps at most. A clause sees it as the service whose image it is.
#[derive(Drop)]
pub struct ServiceImage<A: Allocator> {
    pub chart: ChartState,
    pub status: Status,
    pub deaths: Vec<(At, Exit), A>,
    pub most: u16,
}

impl<A: Allocator> Model for ServiceImage<A> {
    ghost use Rattle.supervise_core.specs.Service.{Supervised};

    ghost Value = { Supervised };

    ghost view = { λ s. record { chart = s.chart; status = s.status; tally = record { kept = s.deaths.items; most = s.most } } };
}
