//! A shot that the board keeps, and readers see: the status rows of all services, and the number of
//! steps that the tree had made before (`at`).
ghost use Rattle.std.specs.Prelude.{◌≡◌, ◌≤◌, IfOk, Some, length};
ghost use Rattle.status_board.specs.Board.{last_shot};

use crate::history::Published;
use crate::shot::Shot;
use channel_names::Channels;
use std::alloc::{AllocError, Allocator};
use std::marker::Model;
use supervise_core::Row;

/// The rows of all services as they are after some step, in a list on the heap. A `Shot` has a
/// fixed 256 places for them. Contracts see them as a shot.
#[derive(Drop)]
pub struct StandingRows<A: Allocator> {
    // How many steps the tree had made when the rows were taken.
    at: u64,
    rows: Vec<Row, A>,
}

impl<A: Allocator> Model for StandingRows<A> {
    ghost use Rattle.std.specs.Prelude.{◌≤◌, length};
    ghost use Rattle.status_board.specs.declared.shot.Shot.{Shot};

    ghost Value = { Shot };

    ghost view = { λ s. record { at = s.at; rows = record { items = s.rows.items } } };

    ghost invariant = { λ s. length s.rows.items ≤ 256 };
}

impl<A: Allocator> StandingRows<A> {
    /// The rows of a tree, at most [`SERVICE_LIMIT`](crate::SERVICE_LIMIT), in rising serial, and
    /// after how many steps they were taken.
    pub fn new(at: u64, rows: Vec<Row, A>) -> StandingRows<A>
        requires { length rows.items ≤ 256 }
        ensures { result ≡ record { at = at; rows = record { items = rows.items } } }
    {
        StandingRows { at, rows }
    }
}

impl<A: Allocator + Copy> StandingRows<A> {
    /// A copy of this shot. `AllocError` where memory is refused.
    pub fn of(alloc: A, shot: &Shot) -> Result<StandingRows<A>, AllocError>
        ensures { IfOk result (λ rows. rows ≡ shot.now) }
    {
        let mut rows = Vec::new(alloc);
        rows.extend_from_slice(shot.rows.as_slice())?;
        Ok(StandingRows { at: shot.at, rows })
    }
}

impl<A: Allocator> StandingRows<A> {
    // Copies the rows and the number of steps into a shot.
    fn copy_into(&self, shot: &mut Shot)
        ensures { shot.new ≡ self.now }
    {
        shot.at = self.at;
        shot.rows.clear();
        if shot
            .rows
            .try_extend_from_slice(self.rows.as_slice())
            .is_err()
        {
            // There are at most `SERVICE_LIMIT` rows, for which a shot has room.
            unreachable!()
        }
    }
}

/// A shot that was published, and all shots that were published up to it. Contracts see all of
/// them.
#[derive(Drop)]
pub struct PublishedShot<C: Channels, A: Allocator> {
    rows: StandingRows<A>,
    published: Published<C>,
}

impl<C: Channels, A: Allocator> Model for PublishedShot<C, A> {
    ghost use Rattle.std.specs.Prelude.{◌≡◌, List, Some};
    ghost use Rattle.status_board.specs.declared.shot.Shot.{Shot};
    ghost use Rattle.status_board.specs.Board.{last_shot};

    ghost Value = { List Shot };

    ghost view = { λ c. c.published };

    ghost invariant = { λ c. last_shot c.published ≡ Some c.rows };
}

impl<C: Channels, A: Allocator> PublishedShot<C, A> {
    // The shot that was published last, with all that were published.
    pub(crate) fn new(rows: StandingRows<A>, published: Published<C>) -> PublishedShot<C, A>
        requires { last_shot published ≡ Some rows }
        ensures { result ≡ published }
    {
        PublishedShot { rows, published }
    }

    // Copies the shot that was published last into this one.
    pub(crate) fn copy_into(&self, shot: &mut Shot)
        ensures { last_shot self.now ≡ Some shot.new }
    {
        self.rows.copy_into(shot);
    }

    // All that were published.
    pub(crate) fn published(&self) -> &Published<C>
        ensures { result.now ≡ self.now }
    {
        &self.published
    }
}
