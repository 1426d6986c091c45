//! The waiters as plain data.
ghost use Rattle.std.specs.Prelude.{◌≡◌, IfOk};
ghost use Rattle.wait_conditions.specs.Kept.{waiter_view};
ghost use Rattle.wait_conditions.specs.WaitsFields.{waiters_view};

use crate::service_states::StateRun;
use crate::verdict::WaitState;
use crate::waiter::Waiter;
use crate::watched_service::WatchedService;
use s6_events::{Condition, Mode, NoMemory, WaitId};
use std::alloc::Allocator;
use std::marker::Model;

/// A waiter as plain data: what it was made with, how many moments had come by then, what it knows
/// of its services while it waits, and its state.
#[derive(Drop)]
pub struct WaiterImage<A: Allocator> {
    pub id: WaitId,
    pub condition: Condition,
    pub mode: Mode,
    pub deadline: Option<u64>,
    /// How many moments had come when it was made.
    pub place: u64,
    pub watched: Vec<WatchedService, A>,
    /// Whether it waits still, or with which verdict it was released.
    pub standing: WaitState,
}

impl<A: Allocator> Model for WaiterImage<A> {
    ghost use Rattle.wait_conditions.specs.Kept.{StoredWaiter};

    ghost Value = { StoredWaiter };

    ghost view = { λ w. record {
      id = w.id;
      condition = w.condition;
      mode = w.mode;
      deadline = w.deadline;
      place = w.place;
      watched = w.watched.items;
      standing = w.standing;
    } };
}

/// The waiters as plain data: how many moments came, what is known of every service, the waiters in
/// rising serial, and the serial of the next one. A clause sees it as what the waiters show.
#[derive(Drop)]
pub struct WaitsImage<A: Allocator> {
    pub count: u64,
    pub states: Vec<StateRun, A>,
    pub waiters: Vec<WaiterImage<A>, A>,
    pub next: u64,
}

impl<A: Allocator> Model for WaitsImage<A> {
    ghost use Rattle.wait_conditions.specs.Stands.{WaitsShown};

    ghost Value = { WaitsShown };

    ghost view = { λ w. record { count = w.count; states = w.states.items; waiters = w.waiters.items; next = w.next } };
}

// A waiter as plain data: what it was made with, what it knows of its services, and its state
// (`standing`). `place` is how many moments had come when it was made.
fn image_of<A: Allocator + Copy>(alloc: A, waiter: &Waiter) -> Result<WaiterImage<A>, NoMemory>
    ensures { IfOk result (λ image. image ≡ waiter_view waiter.now) }
{
    Ok(WaiterImage {
        id: waiter.id,
        condition: waiter.condition,
        mode: waiter.mode,
        deadline: waiter.deadline,
        place: waiter.place,
        watched: Vec::from_slice(alloc, waiter.watched.as_slice())?,
        standing: waiter.standing,
    })
}

/// These waiters as plain data.
pub fn images_of<A: Allocator + Copy>(
    alloc: A,
    waiters: &[Waiter],
) -> Result<Vec<WaiterImage<A>, A>, NoMemory>
    ensures { IfOk result (λ images. images.items ≡ waiters_view waiters.now) }
{
    let mut images = Vec::new(alloc);
    for waiter in waiters {
        images.push(image_of(alloc, waiter)?)?;
    }
    Ok(images)
}
