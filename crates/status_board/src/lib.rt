//! The status board: one writer publishes the rows of all services, and readers see them without
//! waiting for anybody.
#![tactic(auto)]

mod board;
mod history;
mod published_shot;
mod reader;
mod shot;
mod shown;
mod told;
mod writer;

pub use board::Board;
// `StandingRows` are the rows of all services as they stand, to be published; a `PublishedShot` is
// what readers get then.
pub use history::Published;
pub use published_shot::{PublishedShot, StandingRows};
pub use reader::BoardReader;
pub use shot::{SERVICE_LIMIT, Shot};
pub use shown::{Next, Shown};
pub use told::Told;
pub use writer::{BoardWriter, NewBoard, NoReader};
