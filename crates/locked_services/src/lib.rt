//! A tree that several threads run: what one lock guards, and its promises. A finish is what is
//! left of a seat that has ended. A lane is a ring of orders to one backend, which is asked them at
//! the lane's desk.
#![tactic(auto)]

mod beginning;
mod closing;
pub mod laws;
mod next_input;
mod opening;
mod room;
mod running;
mod serving;
mod stop;

pub use beginning::{Beginning, new_effect};
pub use closing::{CloseFault, Closed};
pub use opening::{SeatEnds, seat_ends};
pub use room::{NotClosed, Room};
pub use running::RunningTree;
pub use stop::{DriveStop, Driven, Stop};
