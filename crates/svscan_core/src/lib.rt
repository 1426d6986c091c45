//! The services of a scan directory: what a listing, a report, letters and a command to all of them
//! make of the table.
#![tactic(auto)]

mod commit;
mod embedding;
mod entry;
mod event;
mod image;
mod limits;
mod listing;
mod moves;
mod nuke_and_terminate;
mod pending;
mod place;
mod registry;
mod registry_plan;
mod scan;
mod slots;
mod table;
mod visit;
mod work;

pub use entry::{Entry, Listed, ScanOrder};
pub use event::Event;
pub use image::RegistryImage;
pub use limits::{ORDER_LIMIT, SERVICE_LIMIT};
pub use listing::has_repeats;
pub use nuke_and_terminate::closing_after;
pub use registry::Registry;
pub use registry_plan::{RegistryAnswer, RegistryPlan};
pub use work::ServiceWork;
