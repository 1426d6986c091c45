//! How orders leave the tree, by lanes. A lane is a ring of orders to one backend, which starts and
//! signals programs.
#![tactic(auto)]

mod backend;
mod desk;
mod lane;
mod lane_orders;
mod lanes;
pub mod probe;
mod report;
mod ring;

pub use backend::{AskFault, Backend};
pub use desk::{Carried, Desk};
pub use lane::Lane;
pub use lane_orders::{blocked_lane, lane_of, send_all};
pub use lanes::Lanes;
pub use report::{act_of, answers, is_of_asked};
pub use ring::{LANE_ROOM, LaneRing, open_lane_rings};
pub use s6_events::Report;
