//! Where a tree is to run.
use tree_server::ServeOptions;

/// Where a tree is to run.
#[derive(Drop)]
pub struct TreePlace {
    /// The scan directory.
    pub directory: String,
    /// The path of the socket.
    pub socket: String,
    /// The file in which its runs are recorded, if any.
    pub record: Option<String>,
}

impl TreePlace {
    /// The options of a tree at this place. The next run goes on after `handover` steps. Without a
    /// record its runs are not recorded.
    pub fn options(&self, handover: u64) -> ServeOptions<'_> {
        ServeOptions {
            directory: self.directory.as_str(),
            socket: self.socket.as_str(),
            record: self.record.as_deref(),
            handover,
        }
    }
}
