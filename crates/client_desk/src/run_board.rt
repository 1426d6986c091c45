//! The board of a run, as the driver reads it. A board shows the status rows of all services, as
//! they are after some step.
use channel_names::Channels;
use status_board::BoardReader;

/// The board of a run, as the driver reads it.
#[derive(Drop)]
pub struct RunBoard<C: Channels> {
    pub reader: BoardReader<C>,
    /// How many steps of the run were made.
    pub made: u64,
    /// Whether the board is known to show the last of them. False where the last drive was refused
    /// memory.
    pub is_shown: bool,
}

impl<C: Channels> RunBoard<C> {
    /// The board of a run in which no step was made.
    pub fn new(reader: BoardReader<C>) -> RunBoard<C> {
        RunBoard {
            reader,
            // No step was made, so there is none that the board doesn't show.
            made: 0,
            is_shown: true,
        }
    }
}
