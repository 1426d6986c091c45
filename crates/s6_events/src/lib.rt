//! What every layer speaks of: names, serials, moments, marks, letters, orders, reports, and the
//! history.
#![tactic(auto)]

mod at;
mod condition;
mod current_letter;
mod exit;
mod field;
mod history;
mod ids;
mod letter;
mod mark;
mod moment;
mod name;
mod no_memory;
mod order;
mod report;

pub use at::At;
pub use condition::{Condition, Mode};
pub use current_letter::letter_after;
pub use exit::Exit;
pub use field::Field;
pub use history::{History, HistoryPlan};
pub use ids::{Actor, Sid, SubId, WaitId};
pub use letter::Letter;
pub use mark::Mark;
pub use moment::Moment;
pub use name::Name;
pub use no_memory::NoMemory;
pub use order::{Order, SIGKILL};
pub use report::Report;
