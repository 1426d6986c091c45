//! The names that proofs give to the rings and the board of one office.
use std::marker::Brand;

/// Names, for proofs, of the rings and the history of one run. It is a type parameter of what is
/// kept under a lock, and of what is used with it outside of the lock: so a proof knows that both
/// are of the same ring or the same history. A program picks new names for each run, once it has
/// made what they name, so the values of one run are never taken for those of another.
pub trait Channels {
    ghost use Rattle.std.specs.Prelude.{ℕ};
    ghost use Rattle.logbook.specs.Pages.{Book};
    ghost use Rattle.channel_names.specs.RingName.{RingName};

    /// The ring that goes from each actor's seat to the tree.
    ghost seat_ring: { ℕ → RingName };

    /// The history of what was published on the status board.
    ghost board: { Book };
}

// The names before a program made anything: of no ring, and of no history. What it makes then has
// names of its own, in place of these.
impl Channels for Brand {
    ghost use Rattle.channel_names.specs.Unnamed.{no_ring, no_history};

    ghost seat_ring = { λ actor. no_ring };

    ghost board = { no_history };
}
