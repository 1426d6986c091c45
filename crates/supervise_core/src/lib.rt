//! One service under its supervisor: what each report, each timer and each look at its directory
//! makes of its state.
#![tactic(auto)]

mod activity;
mod change;
mod chart_state;
mod control;
mod embedding;
mod image;
mod moves;
mod new_config;
mod out;
mod phase;
mod reports;
mod row;
mod service;
mod service_state;
mod timer;

pub use change::Change;
pub use chart_state::ChartState;
pub use image::ServiceImage;
pub use out::Out;
pub use phase::Phase;
pub use row::{Row, Status};
pub use service::Service;
pub use service_state::ServiceState;
