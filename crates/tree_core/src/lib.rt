//! The supervision tree: one step for each input, and all that the step gives.
#![tactic(auto)]

mod choice;
mod clock;
mod copied;
mod effect;
mod embedding;
mod image;
mod input;
pub mod laws;
mod limits;
mod names;
mod next_due;
mod plain;
mod refusals;
mod reply;
mod rows;
mod step;
mod tree;

pub use effect::{Effect, Match, Release};
pub use event_directory::{Hit, Message, Pattern, State, SubView};
pub use image::Image;
pub use input::{Act, Input, Listing, Target};
pub use names::Names;
pub use plain::{PlainAct, PlainInput};
pub use reply::{Refusal, Reply, ScanReport, TallyReport};
pub use svscan_core::{Entry, Event, Listed, ORDER_LIMIT, SERVICE_LIMIT, ScanOrder};
pub use tree::Tree;
pub use wait_conditions::{Verdict, WaitState};
