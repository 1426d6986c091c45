//! Waiters for conditions of services: each is released at the first moment at which its verdict is
//! no longer waiting.
#![tactic(auto)]

mod add_fault;
mod condition_fails;
mod condition_holds;
mod counts;
mod deadline;
mod embedding;
mod image;
pub mod laws;
mod next_deadline;
mod planning;
mod reach;
mod releasing;
mod service_states;
mod supervisor_state;
mod verdict;
mod wait_change;
mod wait_plan;
mod waiter;
mod waiter_limits;
mod waiter_list;
mod waits;
mod watched_service;
mod watchers;

pub use add_fault::AddFault;
pub use condition_fails::Failure;
pub use image::{WaiterImage, WaitsImage};
pub use next_deadline::earlier_of;
pub use service_states::StateRun;
pub use supervisor_state::{SinceState, SupervisorState};
pub use verdict::{Verdict, WaitState};
pub use wait_change::{WaitAnswer, WaitChange};
pub use wait_plan::WaitsPlan;
pub use waits::Waits;
pub use watched_service::WatchedService;
