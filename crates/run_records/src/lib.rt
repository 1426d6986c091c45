//! What a run of a tree was: its steps, each with its input and all that it gave.
#![tactic(auto)]

mod record;
mod run;
mod step_log;
mod step_places;
mod whole_steps;
mod writing;

pub use record::Record;
pub use run::{RUN_LIMIT, Run};
pub use step_log::{LogRoom, StepLog, StepStart, Stored};
pub use step_places::StepPlaces;
pub use whole_steps::WholeSteps;
pub use writing::RunFault;
