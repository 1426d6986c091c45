//! The file in which the runs of a tree are recorded, one after the other, as one script with the
//! reply to each input.
#![tactic(auto)]

mod file_limit;
mod record_file;
mod recorder;

pub use record_file::{RecordFile, RecordWriter, create_record, file_size_limit};
pub use recorder::{RecordFault, Recorder, create_recorder};
