//! What is seen of a subscription: its letters and its state.
use s6_events::Letter;

/// Whether a subscription still listens. It is there until it is unsubscribed, whatever its state.
#[derive(Clone, Copy, PartialEq, Eq, Debug)]
pub enum State {
    /// It looks at the next letter.
    Live,
    /// It was made for one match, and has had it.
    Done,
    /// Its text grew past 1,024 letters without a match.
    Overlong,
}

/// What a subscription has heard: the last letter of each match, the oldest first. Page
/// `s6-ftrig-listen1`.
#[derive(Clone, Copy)]
pub struct SubView<'a> {
    /// The letters at which its texts matched.
    pub letters: &'a [Letter],
    /// Whether it still listens.
    pub state: State,
}
