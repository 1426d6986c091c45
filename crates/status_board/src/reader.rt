//! The end of the board that reads shots: the status rows of all services after some step, and the
//! number of that step.
ghost use Rattle.std.specs.Prelude.{◌≡◌, ◌≤◌, IfSome, IfNone, IsTrue, IsFalse, None, Some};
ghost use mathlib.Core.List.{IsPrefix};
ghost use Rattle.status_board.specs.Board.{last_shot, last_steps, shot_unless_older, NeverFalls};

use crate::history::Published;
use crate::published_shot::PublishedShot;
use crate::shot::Shot;
use crate::shown::Shown;
use crate::told::Told;
use channel_names::Channels;
use left_right::ReadHandle;
use std::alloc::{Allocator, Global};
use std::marker::Model;

/// The end of the board that reads. Contracts see it as the published shots that it has seen or was
/// told. It may move to a thread of its own.
#[derive(Drop)]
pub struct BoardReader<C: Channels, A: Allocator = Global> {
    handle: ReadHandle<Shown<C, A>, A>,
    known: Published<C>,
}

impl<C: Channels, A: Allocator> Model for BoardReader<C, A> {
    ghost use Rattle.std.specs.Prelude.{List};
    ghost use Rattle.status_board.specs.declared.shot.Shot.{Shot};

    ghost Value = { List Shot };

    ghost view = { λ r. r.known };
}

impl<C: Channels, A: Allocator> BoardReader<C, A> {
    // The reader with this handle, which knows these shots.
    pub(crate) fn over(handle: ReadHandle<Shown<C, A>, A>, known: Published<C>) -> BoardReader<C, A>
        ensures { result ≡ known }
    {
        BoardReader { handle, known }
    }

    /// The shot that was published last; None where the board gives none, as once its writer is
    /// gone, or shows an older one than the reader knows. So a reader never gets an older shot than
    /// one that it saw or was told. It takes no lock and no memory, and waits for nobody. The shot
    /// is returned with its [`SERVICE_LIMIT`](crate::SERVICE_LIMIT) places, which costs time: to
    /// read often, keep a shot and call `read_into`.
    pub fn read(&mut self) -> Option<Shot>
        ensures later { IsPrefix self.old self.new }
        ensures last { IfSome result (λ shot. last_shot self.new ≡ Some shot) }
        ensures at { IfSome result (λ shot. NeverFalls self.new → last_steps self.old ≤ shot.at) }
        ensures none { IfNone result (self.new ≡ self.old) }
    {
        let mut shot = Shot::empty();
        if self.read_into(&mut shot) {
            Some(shot)
        } else {
            None
        }
    }

    /// Reads as `read` does, into a shot of the caller: copies the one that was published last into
    /// it, of which only the rows that it has are copied. False where `read` would give None; then
    /// the shot stays as it was.
    #[tactic(auto, using(crate::proofs::Lasts::never_falls))]
    pub fn read_into(&mut self, shot: &mut Shot) -> bool
        ensures later { IsPrefix self.old self.new }
        ensures last { IsTrue result → last_shot self.new ≡ Some shot.new }
        ensures at { IsTrue result → NeverFalls self.new → last_steps self.old ≤ shot.new.at }
        ensures none { IsFalse result → (self.new ≡ self.old) × (shot.new ≡ shot.old) }
    {
        // While it is read, this copy is not changed. None where the writer is gone.
        let Some(guard) = self.handle.enter() else {
            return false;
        };
        let shown: &Shown<C, A> = &guard;
        // The shot that was published last, with all that were published up to it. `known` is what
        // the reader knows of the published shots: an older shot than the last of these is not
        // taken.
        match shown.change() {
            Some(change) => take_shot(&mut self.known, change, shot),
            None => false,
        }
    }

    /// From now on the reader knows all shots that were told too, so that no read gives an older
    /// one than the last of them. What it knows stays where that has more shots.
    pub fn learn(&mut self, told: Told<C>)
        ensures later { IsPrefix self.old self.new }
        ensures told { IsPrefix told self.new }
    {
        self.known.follow(&told.published);
    }
}

// Copies the shot of a change, which was published, into `shot`, unless more shots are known than
// were published up to it: then it is older than one that the reader knows. All these are known
// from then on. Returns whether a shot was copied.
fn take_shot<C: Channels, A: Allocator>(
    known: &mut Published<C>,
    change: &PublishedShot<C, A>,
    shot: &mut Shot,
) -> bool
    ensures answer { IsTrue result → shot_unless_older known.old change.now ≡ Some shot.new }
    ensures older { IsFalse result → shot_unless_older known.old change.now ≡ None }
    ensures later { IsPrefix known.old known.new }
    ensures last { IsTrue result → last_shot known.new ≡ Some shot.new }
    ensures none { IsFalse result → (known.new ≡ known.old) × (shot.new ≡ shot.old) }
{
    if known.follow(change.published()) {
        change.copy_into(shot);
        true
    } else {
        false
    }
}
