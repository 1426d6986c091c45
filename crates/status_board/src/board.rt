//! The board on which shots are published.
ghost use Rattle.std.specs.Prelude.{◌≡◌, List, [], ◌∷◌, ◌++◌, OnErr, OnOk};
ghost use Rattle.status_board.specs.declared.shot.Shot.{Shot as Published};

use crate::published_shot::StandingRows;
use crate::shot::Shot;
use crate::told::Told;
use crate::writer::BoardWriter;
use channel_names::Channels;
use s6_events::NoMemory;
use std::alloc::Global;
use std::sync::Wait;

/// The end of a board that publishes. `BoardWriter` is one; code that keeps a board under a lock is
/// generic over it. Contracts see it as all shots that were published, oldest first.
pub trait Board<C: Channels>: Drop {
    /// All shots that were published.
    ghost shots: { Self → List Published };

    /// Publishes this shot: readers see it from now on. `NoMemory` where memory is refused: nothing
    /// was published.
    fn publish(&mut self, shot: &Shot) -> Result<(), NoMemory>
        ensures added { OnOk result (shots self.new ≡ shots self.old ++ shot.now ∷ []) }
        ensures same { OnErr result (shots self.new ≡ shots self.old) };

    /// Publishes these rows as `publish` does a shot. The board keeps them, so none is copied.
    fn publish_rows(&mut self, rows: StandingRows<Global>) -> Result<(), NoMemory>
        ensures added { OnOk result (shots self.new ≡ shots self.old ++ rows ∷ []) }
        ensures same { OnErr result (shots self.new ≡ shots self.old) };

    /// All shots that were published so far, for a reader to learn.
    fn tell(&self) -> Told<C>
        ensures { result ≡ shots self.now };
}

impl<C: Channels, R: Wait + Drop> Board<C> for BoardWriter<C, R, Global> {
    ghost shots = { λ w. w };

    // By the writer's own function of this name.
    fn publish(&mut self, shot: &Shot) -> Result<(), NoMemory> {
        BoardWriter::publish(self, shot)
    }

    // By the writer's own function of this name.
    fn publish_rows(&mut self, rows: StandingRows<Global>) -> Result<(), NoMemory> {
        BoardWriter::publish_rows(self, rows)
    }

    // All shots that were published so far, for a reader to learn: by the writer's own function of
    // this name.
    fn tell(&self) -> Told<C> {
        BoardWriter::tell(self)
    }
}
