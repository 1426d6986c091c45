//! A shot: the status rows of all services, at most `SERVICE_LIMIT`, and the number of steps that
//! the tree had made when they were taken (`at`).
ghost use Rattle.std.specs.Prelude.{◌≡◌, []};

use arrayvec::ArrayVec;
use supervise_core::Row;

/// The most rows of a shot: as many as a tree has services at most.
pub const SERVICE_LIMIT: usize = 256;

/// The status rows of all services, at most [`SERVICE_LIMIT`], in rising serial, and the number of
/// steps that the tree had made when they were taken. Page `s6-svstat` for the rows; that they are
/// published together, and with this number, is this program's own.
#[derive(Drop)]
pub struct Shot {
    pub at: u64,
    pub rows: ArrayVec<Row, SERVICE_LIMIT>,
}

impl Shot {
    /// No rows, after no step: a place for a shot that is read.
    pub fn empty() -> Shot
        ensures at { result.at ≡ 0 }
        ensures rows { result.rows.items ≡ [] }
    {
        Shot {
            at: 0,
            rows: ArrayVec::new(),
        }
    }

    /// A copy of the shot.
    pub fn copied(&self) -> Shot
        ensures { result ≡ self.now }
    {
        let mut shot = Shot::empty();
        shot.copy_from(self);
        shot
    }

    /// Becomes a copy of the other. Only the rows that the other has are copied.
    pub fn copy_from(&mut self, other: &Shot)
        ensures { self.new ≡ other.now }
    {
        self.at = other.at;
        // The rows that this shot had are gone.
        self.rows.clear();
        if self
            .rows
            .try_extend_from_slice(other.rows.as_slice())
            .is_err()
        {
            // Both shots have room for `SERVICE_LIMIT` rows.
            unreachable!()
        }
    }
}
