//! How a step of a run is coded in bytes, and read back.
#![tactic(auto)]

mod acts;
mod coded;
mod kept_input;
mod lists;
mod marks;
mod names;
mod numbers;
mod orders;
mod replies;
mod requests;
mod steps;
mod told;

pub use acts::{has_act_code, push_act, push_told, take_act};
pub use coded::{Code, Coded};
pub use kept_input::{KeptInput, ToldAct, ToldInput, told_of};
pub use lists::{push_list, take_list};
pub use replies::{has_reply_code, push_reply, take_reply};
pub use steps::{push_step, push_told_step, take_head, take_outcome};
