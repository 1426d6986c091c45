//! Where a tree runs, and how long its runs are.

/// After how many steps of a run the next one goes on, at most. A run has room for more steps: what
/// was handed in until then is still done in it.
pub const HANDOVER: u64 = 260_000;

/// Where a tree runs, and how long its runs are.
#[derive(Clone, Copy)]
pub struct ServeOptions<'a> {
    /// The scan directory.
    pub directory: &'a str,
    /// The path of the socket.
    pub socket: &'a str,
    /// The file in which the runs are recorded, if any.
    pub record: Option<&'a str>,
    /// After how many steps the next run goes on, at most `HANDOVER`.
    pub handover: u64,
}
