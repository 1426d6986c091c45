//! A server of lines on a Unix socket: each connection has one of eleven slots, and a mailbox,
//! where texts wait to be written to it. Its lines are answered in order, and what is posted to it
//! is written in order, at the reader's own pace.
#![tactic(auto)]

mod accepting;
mod conversing;
mod line_buffer;
mod mailbox;
mod making_way;
mod outbox;
mod server;
mod slots;
mod work_box;

pub use accepting::serve;
pub use line_buffer::{LINE_LIMIT, LineBuffer, LineStatus};
pub use mailbox::Mailbox;
pub use making_way::{FIRST_TIME, KnockStage, LAST_TIME, Occupant, SlotUse};
pub use outbox::{OUTBOX_LIMIT, Outbox, PostFault};
pub use server::{AfterLine, Answers, Server};
pub use slots::{ClientSlots, LAST_SLOT, SLOT_COUNT};
