//! What a letter may bring a subscription.
use s6_events::Letter;

/// What a letter gave a subscription. Page `s6-ftrig-listen1`; `Overlong` is chosen here.
#[derive(Clone, Copy, PartialEq, Eq, Debug)]
pub enum Hit {
    /// The pattern finds a match in the text up to this letter, and found none before it.
    Matched(Letter),
    /// This letter is the 1,025th of a text without a match: the subscription hears no more.
    Overlong,
}
