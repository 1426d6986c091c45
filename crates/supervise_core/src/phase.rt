//! The five phases of a service.
/// The phase of a service. Page `s6-supervise`, "Detailed operation".
#[derive(Clone, Copy, Debug, PartialEq, Eq)]
pub enum Phase {
    /// Neither `run` nor `finish` is there.
    Down,
    /// `run` was ordered, and nothing is known of it yet.
    Starting,
    /// `run` is there.
    Up,
    /// `run` is dead and `finish` is there.
    Finish,
    /// The supervisor has ended.
    Gone,
}
