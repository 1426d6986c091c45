//! The replay of scripts and its transcript, which is what the machine answers. The format is this
//! program's own, not one of s6.
#![tactic(auto)]

mod block;
mod checked;
mod checking;
mod counts;
mod fault;
mod head;
mod limits;
mod line;
mod migration;
mod reading;
mod replay;
mod turn;

pub use block::write_effect;
pub use checked::Checked;
pub use checking::check;
pub use counts::Counts;
pub use fault::ReplayFault;
pub use head::read_head;
pub use limits::INPUT_LIMIT;
pub use migration::migrate;
pub use reading::{Scratch, read_end, read_step};
pub use replay::run;
